//! Protothreads.
ghost use Rattle.std.specs.Prelude.{◌≡◌, ℕ, ◌+◌, ◌≤◌, [], ◌∷◌, false, List, length};
ghost use Rattle.program_tree.specs.Tree.{Statement};
ghost use Rattle.program_tree.specs.Code.{Code};
ghost use Rattle.program_tree.specs.Flat.{Leads, rest_at};
ghost use Rattle.program_tree.specs.Program.{code_of};
ghost use Rattle.protothread.specs.Remainder.{fresh_of};
ghost use Rattle.protothread.specs.Step.{advanced_of, answered_of, PaysFor};
ghost use Rattle.protothread.specs.Places.{place_by, yielding, body_of_thread, remainder_of};
ghost use Rattle.protothread.specs.Reach.{EffectCanSpawn, IsFoundIn, Reaches, Resumes, performed_at, reached_at};

use crate::answer::PtState;
use crate::calls::{Call, Calls};
use crate::effect::{StatementEffect, done_by};
use crate::fuel::Fuel;
use crate::look::Look;
use crate::part::{Part, thread_code};
use crate::step::{Op, Step};
use crate::value::{formula_value, term_value, value_with_number};
use crate::vars::Vars;
use program_tree::{Event, Instruction, ProcessText};

/// The last action of a thread.
#[derive(Clone, Copy)]
enum LastAction {
    /// The thread answered `Done`, or is fresh.
    AtRest,
    /// The thread answered an operation. If a variable is given, it hasn't got the answer to the post yet.
    UnderWay(Option<u8>),
    /// The thread answered the post of a `pause`, and now gives up control.
    Pausing,
    /// The thread answered `Runaway`.
    RunAway,
}

/// A thread: the part that it runs, and its position. The position is a place in the flat code of the innermost
/// spawned thread or, if no thread is spawned, of the part. Each spawned thread keeps the place from which its spawner
/// continues.
#[derive(Drop)]
pub struct Thread {
    part: Part,
    last_action: LastAction,
    is_yielded: bool,
    position: u16,
    calls: Calls,
}

/// The outcome of a statement: the thread continues in this code, or stops.
#[derive(Clone, Copy)]
enum Reach<'a> {
    GoesOn(&'a [Instruction]),
    Operates(Op),
    Answers(PtState),
}

/// The place at which a thread continues after a test with this value.
#[inline(always)]
fn chosen(value: u16, holds: u16, fails: u16) -> u16
    ensures value { result ≡ place_by value holds fails }
{
    if value != 0 { holds } else { fails }
}

impl Thread {
    /// A thread that has yet to execute the whole part.
    pub fn fresh(part: Part) -> Thread
        ensures fresh { (code : Code) → remainder_of code result ≡ fresh_of code part }
    {
        Thread {
            part,
            last_action: LastAction::AtRest,
            is_yielded: false,
            position: 0,
            calls: Calls::new(),
        }
    }

    /// The flat code of the innermost thread.
    fn innermost<'a>(&self, text: &'a ProcessText) -> &'a [Instruction]
        ensures is_found_in { IsFoundIn (code_of text.now) self.now result.now }
    {
        match self.calls.last() {
            None => self.part.code(text),
            Some(call) => thread_code(text, call.thread),
        }
    }

    /// The answer when the thread yields here. A spawner answers `Waiting`, because it waits for the thread that it
    /// spawned.
    fn yield_answer(&self) -> PtState
        ensures value { result ≡ yielding (length self.now.calls) }
    {
        match self.calls.len() {
            0 => PtState::Yielded,
            _ => PtState::Waiting,
        }
    }

    /// Makes the thread continue at a place.
    fn go_on(&mut self, position: u16)
        ensures after { self.new ≡ record self.old { is_yielded = false; position = position } }
    {
        self.is_yielded = false;
        self.position = position;
    }

    /// Makes the thread fresh again, if no thread is spawned.
    fn begin_again(&mut self)
        requires no_calls { self.old.calls ≡ [] }
        ensures fresh { (code : Code) → remainder_of code self.new ≡ fresh_of code self.old.part }
    {
        self.last_action = LastAction::AtRest;
        self.is_yielded = false;
        self.position = 0;
    }

    /// Gives up control at the statement, and records whether the statement has yielded.
    fn give_up(&mut self, is_yielded: bool)
        ensures after { self.new ≡ record self.old { last_action = LastAction.AtRest; is_yielded = is_yielded } }
    {
        self.last_action = LastAction::AtRest;
        self.is_yielded = is_yielded;
    }

    /// Executes the statement without blocks at the thread's position. `next` is the place after the statement.
    fn perform<'a>(
        &mut self,
        text: &'a ProcessText,
        flat: &'a [Instruction],
        effect: StatementEffect,
        next: u16,
        vars: &mut Vars,
    ) -> Reach<'a>
        requires inside { IsFoundIn (code_of text.now) self.old flat.now }
        requires earlier { EffectCanSpawn self.old.calls effect }
        ensures kept { length vars.new ≡ length vars.old }
        ensures calls { length self.new.calls ≤ length self.old.calls + 1 }
        ensures reaches { (s : Statement ℕ) (rest : List (Statement ℕ))
            → rest_at (body_of_thread (code_of text.now) self.old) self.old.position ≡ s ∷ rest
            → rest_at (body_of_thread (code_of text.now) self.old) next ≡ rest
            → Reaches (code_of text.now)
            (performed_at (code_of text.now) self.old vars.old s rest effect) result self.old self.new vars.old
            vars.new }
    {
        match effect {
            StatementEffect::Passes => {
                self.go_on(next);
                Reach::GoesOn(flat)
            }
            StatementEffect::Assigns(variable, value) => {
                vars.set(variable, value);
                self.go_on(next);
                Reach::GoesOn(flat)
            }
            StatementEffect::Operates(op, into) => {
                self.last_action = LastAction::UnderWay(into);
                self.go_on(next);
                Reach::Operates(op)
            }
            StatementEffect::Pauses(op) => {
                self.last_action = LastAction::Pausing;
                self.is_yielded = true;
                Reach::Operates(op)
            }
            StatementEffect::Waits => {
                self.give_up(false);
                Reach::Answers(PtState::Waiting)
            }
            StatementEffect::Yields => {
                self.give_up(true);
                Reach::Answers(self.yield_answer())
            }
            StatementEffect::Spawns(thread) => {
                self.calls.push(Call { thread, next });
                self.go_on(0);
                Reach::GoesOn(thread_code(text, thread))
            }
            StatementEffect::Restarts => {
                self.last_action = LastAction::AtRest;
                self.go_on(0);
                Reach::Answers(PtState::Waiting)
            }
            StatementEffect::Exits => match self.calls.pop() {
                Some(call) => {
                    self.go_on(call.next);
                    Reach::GoesOn(self.innermost(text))
                }
                None => {
                    self.last_action = LastAction::AtRest;
                    self.go_on(0);
                    Reach::Answers(PtState::Exited)
                }
            },
        }
    }

    /// Executes the statement at the thread's position.
    fn reach<'a, L: Look>(
        &mut self,
        text: &'a ProcessText,
        flat: &'a [Instruction],
        instruction: &'a Instruction,
        event: &Event,
        vars: &mut Vars,
        look: &L,
    ) -> Reach<'a>
        requires inside { IsFoundIn (code_of text.now) self.old flat.now }
        requires leads { Leads (rest_at (body_of_thread (code_of text.now) self.old)) instruction.now
            (rest_at (body_of_thread (code_of text.now) self.old) self.old.position) }
        ensures kept { length vars.new ≡ length vars.old }
        ensures calls { length self.new.calls ≤ length self.old.calls + 1 }
        ensures reaches { (s : Statement ℕ) (rest : List (Statement ℕ))
            → rest_at (body_of_thread (code_of text.now) self.old) self.old.position ≡ s ∷ rest
            → Reaches (code_of text.now)
            (reached_at (code_of text.now) self.old vars.old event.now
            (L.looks look.now) s rest) result self.old self.new vars.old vars.new }
    {
        match instruction {
            Instruction::Act(action, next) => {
                let effect = done_by(action, text.number(), self.is_yielded, vars, event, look);
                self.perform(text, flat, effect, *next, vars)
            }
            Instruction::Assign(variable, value, next) => {
                let value = formula_value(value, vars, event, look);
                vars.set(*variable, value);
                self.go_on(*next);
                Reach::GoesOn(flat)
            }
            Instruction::AssignTerm(variable, term, next) => {
                let value = term_value(term, vars, event);
                vars.set(*variable, value);
                self.go_on(*next);
                Reach::GoesOn(flat)
            }
            Instruction::AssignNumber(variable, operator, left, number, next) => {
                let value = value_with_number(*operator, *left, *number, vars);
                vars.set(*variable, value);
                self.go_on(*next);
                Reach::GoesOn(flat)
            }
            Instruction::Test(test, holds, fails) => {
                let value = formula_value(test, vars, event, look);
                self.go_on(chosen(value, *holds, *fails));
                Reach::GoesOn(flat)
            }
            Instruction::TestTerm(test, holds, fails) => {
                let value = term_value(test, vars, event);
                self.go_on(chosen(value, *holds, *fails));
                Reach::GoesOn(flat)
            }
            Instruction::TestNumber(operator, left, number, holds, fails) => {
                let value = value_with_number(*operator, *left, *number, vars);
                self.go_on(chosen(value, *holds, *fails));
                Reach::GoesOn(flat)
            }
        }
    }

    /// Returns to the thread's position, and pays for the spawns that a new call passes. The step ends here if too few
    /// units are left for them, if the post of a `pause` was the last action, or if the thread has run away. Most
    /// often there is nothing to pay, because the thread continues after an operation or has no spawned threads.
    #[inline(always)]
    #[tactic(auto, unfolding(crate::specs::Step::advanced_of))]
    fn resume(&mut self, fuel: &mut Fuel) -> Option<Step>
        ensures resumes { Resumes result self.old self.new fuel.old fuel.new }
    {
        if let LastAction::UnderWay(_) = self.last_action {
            return None;
        }
        if let LastAction::AtRest = self.last_action {
            if self.calls.len() == 0 {
                return None;
            }
        }
        self.come_back(fuel)
    }

    /// The same as `resume`, for any last action.
    #[inline(never)]
    #[tactic(auto, unfolding(crate::specs::Step::advanced_of))]
    fn come_back(&mut self, fuel: &mut Fuel) -> Option<Step>
        ensures resumes { Resumes result self.old self.new fuel.old fuel.new }
    {
        match self.last_action {
            LastAction::AtRest => {
                if fuel.pay(self.calls.len()) {
                    return None;
                }
                self.last_action = LastAction::RunAway;
                Some(Step::Runaway)
            }
            LastAction::UnderWay(_) => None,
            LastAction::Pausing => {
                self.last_action = LastAction::AtRest;
                Some(Step::Done(self.yield_answer()))
            }
            LastAction::RunAway => Some(Step::Runaway),
        }
    }

    /// Continues up to the next operation or answer. The thread pays a unit of work for each statement that it
    /// reaches, for each further test of a `while`, and for each spawn that a call passes on its way to the thread's
    /// position. Each time the thread is resumed, it also pays a unit for the statement at that position. After the
    /// answers `Exited` and `Ended` the thread is fresh. A thread that has run away always answers `Runaway`.
    ///
    /// Each call gets the same text, and variables that were made from this text.
    #[inline(always)]
    #[tactic(auto, unfolding(crate::specs::Step::advanced_of))]
    pub fn advance<L: Look>(
        &mut self,
        text: &ProcessText,
        event: &Event,
        vars: &mut Vars,
        look: &L,
        fuel: &mut Fuel,
    ) -> Step
        ensures exact { advanced_of (code_of text.now) event.now (L.looks look.now)
            (remainder_of (code_of text.now) self.old) vars.old fuel.old ≡ record {
              step = result;
              remainder = remainder_of (code_of text.now) self.new;
              variables = vars.new;
              units = fuel.new;
            } }
        ensures pays { PaysFor result fuel.old fuel.new }
        // The number of variables stays the same, so `Vars::get` can read the same variables.
        ensures kept { length vars.new ≡ length vars.old }
    {
        if let Some(step) = self.resume(fuel) {
            return step;
        }
        let mut flat = self.innermost(text);
        loop {
            match flat.get(usize::from(self.position)) {
                None => match self.calls.pop() {
                    None => {
                        self.begin_again();
                        return Step::Done(PtState::Ended);
                    }
                    Some(call) => {
                        self.go_on(call.next);
                        flat = self.innermost(text);
                    }
                },
                Some(instruction) => {
                    if !fuel.spend() {
                        self.last_action = LastAction::RunAway;
                        return Step::Runaway;
                    }
                    match self.reach(text, flat, instruction, event, vars, look) {
                        Reach::GoesOn(next) => flat = next,
                        Reach::Operates(op) => return Step::Op(op),
                        Reach::Answers(state) => return Step::Done(state),
                    }
                }
            }
        }
    }

    /// Gives the thread the answer to its post: 0 if the queue accepted the event, 1 if the queue was full. The
    /// variable named after `into`, if there is one, gets the answer.
    pub fn answer(&mut self, vars: &mut Vars, answer: u16)
        ensures exact { (code : Code)
            → answered_of (remainder_of code self.old) vars.old answer
            ≡ record { remainder = remainder_of code self.new; variables = vars.new } }
        ensures kept { length vars.new ≡ length vars.old }
    {
        if let LastAction::UnderWay(into) = self.last_action {
            if let Some(variable) = into {
                vars.set(variable, answer);
            }
            self.last_action = LastAction::UnderWay(None);
        }
    }
}
