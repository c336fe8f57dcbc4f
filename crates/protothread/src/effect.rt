//! The effect of a statement without blocks.
ghost use Rattle.std.specs.Prelude.{◌≡◌};
ghost use Rattle.program_tree.specs.Meaning.{action_of};
ghost use Rattle.protothread.specs.Step.{effect_of, passes_where as by_test};

use crate::look::Look;
use crate::step::Op;
use crate::value::evaluate_by_call;
use crate::vars::Vars;
use program_tree::{Action, Event, Proc, SystemEvent, Target};

/// The effect of a statement on the thread that has reached it.
#[derive(Clone, Copy)]
pub(crate) enum StatementEffect {
    /// No effect: the thread continues after the statement.
    Passes,
    /// A variable gets a value.
    Assigns(u8, u16),
    /// An operation, and the variable that gets its answer.
    Operates(Op, Option<u8>),
    /// The post of a `pause`.
    Pauses(Op),
    /// The thread waits at the statement.
    Waits,
    /// The thread yields at the statement.
    Yields,
    /// The thread makes a thread of the process fresh, and calls it.
    Spawns(u8),
    /// The thread is fresh again and waits.
    Restarts,
    /// The thread is fresh again and has exited.
    Exits,
}

/// Returns `Passes` if the test holds, and otherwise the other effect.
fn passes_where(test: bool, other: StatementEffect) -> StatementEffect
    ensures value { result ≡ by_test test other }
{
    if test { StatementEffect::Passes } else { other }
}

/// The effect of a statement in the process with this number.
pub(crate) fn done_by<L: Look>(
    action: &Action,
    process: u8,
    is_yielded: bool,
    vars: &Vars,
    event: &Event,
    look: &L,
) -> StatementEffect
    ensures value { result ≡
        effect_of process is_yielded vars.now event.now (L.looks look.now) (action_of action.now) }
{
    match action {
        Action::Assign(variable, value) => {
            StatementEffect::Assigns(*variable, evaluate_by_call(value, vars, event, look))
        }
        Action::Print(value) => {
            StatementEffect::Operates(Op::Print(evaluate_by_call(value, vars, event, look)), None)
        }
        Action::Send(value) => {
            StatementEffect::Operates(Op::Send(evaluate_by_call(value, vars, event, look)), None)
        }
        Action::WaitUntil(condition) => {
            passes_where(
                evaluate_by_call(condition, vars, event, look) != 0,
                StatementEffect::Waits,
            )
        }
        Action::WaitWhile(condition) => {
            passes_where(
                evaluate_by_call(condition, vars, event, look) == 0,
                StatementEffect::Waits,
            )
        }
        Action::Yield => passes_where(is_yielded, StatementEffect::Yields),
        Action::YieldUntil(condition) => {
            let met = is_yielded && evaluate_by_call(condition, vars, event, look) != 0;
            passes_where(met, StatementEffect::Yields)
        }
        Action::Spawn(thread) => StatementEffect::Spawns(*thread),
        Action::Restart => StatementEffect::Restarts,
        Action::Exit => StatementEffect::Exits,
        Action::Pause => {
            let goes_on = SystemEvent::Continue.number();
            if is_yielded {
                passes_where(event.number == goes_on, StatementEffect::Yields)
            } else {
                StatementEffect::Pauses(Op::Post(Target::One(Proc::Own(process)), goes_on, 0))
            }
        }
        Action::Acquire(semaphore) => {
            if look.count(*semaphore) == 0 {
                StatementEffect::Waits
            } else {
                StatementEffect::Operates(Op::Take(*semaphore), None)
            }
        }
        Action::Signal(semaphore) => StatementEffect::Operates(Op::Signal(*semaphore), None),
        Action::Post(process, named, word, into) => {
            let word = evaluate_by_call(word, vars, event, look);
            let target = Target::One(Proc::Own(*process));
            StatementEffect::Operates(Op::Post(target, named.number(), word), *into)
        }
        Action::Broadcast(named, word, into) => {
            let word = evaluate_by_call(word, vars, event, look);
            StatementEffect::Operates(Op::Post(Target::All, named.number(), word), *into)
        }
        Action::Synch(process, named, word) => {
            let word = evaluate_by_call(word, vars, event, look);
            StatementEffect::Operates(Op::Synch(Proc::Own(*process), named.number(), word), None)
        }
        Action::Poll(process) => StatementEffect::Operates(Op::Poll(Proc::Own(*process)), None),
        Action::Start(process) => StatementEffect::Operates(Op::Start(Proc::Own(*process)), None),
        Action::Kill(process) => StatementEffect::Operates(Op::Kill(Proc::Own(*process)), None),
        Action::Set(timer, interval) => {
            let interval = evaluate_by_call(interval, vars, event, look);
            StatementEffect::Operates(Op::Set(u16::from(*timer), interval), None)
        }
        Action::Reset(timer) => StatementEffect::Operates(Op::Reset(u16::from(*timer)), None),
        Action::RestartTimer(timer) => {
            StatementEffect::Operates(Op::RestartTimer(u16::from(*timer)), None)
        }
        Action::Stop(timer) => StatementEffect::Operates(Op::Stop(u16::from(*timer)), None),
    }
}
