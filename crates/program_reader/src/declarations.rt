//! The reading of declared names.
ghost use Rattle.std.specs.Prelude.{◌≡◌, ◌≢◌, ◌≤◌, false, ◌∷◌, [], length, IfOk, OnOk};
ghost use Rattle.program_tree.specs.Faults.{is_full};
ghost use Rattle.program_reader.specs.Head.{class_of_kind, with_names, IsNew, IsListed, IsValued, FailsIn};
ghost use Rattle.program_tree.specs.InScope.{is_a, with_new};
ghost use Rattle.program_reader.specs.Machine as machine;
ghost use Rattle.program_reader.specs.Machine.{new_name};
ghost use Rattle.program_reader.specs.Steps.{read_scope, ReadsSign, FailsSign};
ghost use Rattle.program_tree.specs.Tokens as token;

use crate::cursor::{Cursor, Sign};
use crate::fault::ReadFailure;
use crate::reader::Reader;
use crate::scope::Scope;
use program_tree::error::ReadErrorKind;
use program_tree::token::Token;
use std::alloc::{AllocError, Global};

/// The kinds of declarations.
#[derive(Clone, Copy)]
pub(crate) enum Kind {
    Event,
    Semaphore,
    Process,
    Variable,
    Etimer,
    Ctimer,
    Thread,
}

/// The greatest number of names of each kind in a program or in a process. Timers of both kinds count together.
const EVENTS: usize = 117;

const SEMAPHORES: usize = 64;

const PROCESSES: usize = 64;

const VARIABLES: usize = 64;

const TIMERS: usize = 64;

const THREADS: usize = 7;

/// The largest number that a program may contain.
const LARGEST: u32 = 65535;

impl Scope {
    /// Returns `true` if no further name of this kind may be declared.
    fn is_full(&self, kind: Kind) -> bool
        ensures value { result ≡ is_full (read_scope self.now).names (class_of_kind kind) }
    {
        match kind {
            Kind::Event => self.events.len() >= EVENTS,
            Kind::Semaphore => self.semaphores.len() >= SEMAPHORES,
            Kind::Process => self.processes.len() >= PROCESSES,
            Kind::Variable => self.variables.len() >= VARIABLES,
            Kind::Etimer | Kind::Ctimer => {
                self.first_timer + self.etimers.len() + self.ctimers.len() >= TIMERS
            }
            Kind::Thread => self.threads.len() >= THREADS,
        }
    }

    /// Declares a name, which is in scope from then on.
    #[tactic(auto, using(crate::proofs::HeadLaws::not_in_second))]
    fn declare(&mut self, alloc: Global, kind: Kind, name: &str) -> Result<(), AllocError>
        requires fresh { is_a (read_scope self.old).names (class_of_kind kind) name.now ≡ false }
        requires room { is_full (read_scope self.old).names (class_of_kind kind) ≡ false }
        requires etimer { kind ≡ Kind.Etimer → self.old.ctimers ≡ [] }
        ensures etimers { kind ≢ Kind.Etimer → self.new.etimers ≡ self.old.etimers }
        ensures ctimers { kind ≢ Kind.Ctimer → self.new.ctimers ≡ self.old.ctimers }
        ensures ok { OnOk result (read_scope self.new ≡ with_names (read_scope self.old)
            (with_new (read_scope self.old).names (class_of_kind kind) name.now)) }
    {
        match kind {
            Kind::Event => self.events.add(alloc, name),
            Kind::Semaphore => self.semaphores.add(alloc, name),
            Kind::Process => self.processes.add(alloc, name),
            Kind::Variable => self.variables.add(alloc, name),
            Kind::Etimer => self.etimers.add(alloc, name),
            Kind::Ctimer => self.ctimers.add(alloc, name),
            Kind::Thread => self.threads.add(alloc, name),
        }
    }
}

impl Cursor<'_> {
    /// Reads a first value.
    #[tactic(auto, using(crate::proofs::HeadLaws::number_steps))]
    fn number(&mut self) -> Result<u16, ReadFailure>
        ensures no_longer { length self.new ≤ length self.old }
        ensures ok { IfOk result (λ n. ReadsSign machine.number (token.Number n) self.old self.new) }
        ensures err { FailsSign machine.number self.old result }
    {
        match self.peek() {
            Some(Token::Number(number)) => {
                if number > LARGEST {
                    return Err(self.fault(ReadErrorKind::NumberTooLarge));
                }
                self.advance();
                Ok(number as u16)
            }
            _ => Err(self.unexpected_token()),
        }
    }
}

impl<'a> Cursor<'a> {
    /// Reads a new name, which is in scope from then on. Event timers must be declared before callback timers.
    #[tactic(auto, using(crate::proofs::HeadLaws::new_steps))]
    pub(crate) fn new_name(
        &mut self,
        alloc: Global,
        scope: &mut Scope,
        kind: Kind,
    ) -> Result<&'a str, ReadFailure>
        requires etimers_first { kind ≡ Kind.Etimer → scope.old.ctimers ≡ [] }
        ensures no_longer { OnOk result (length self.new ≤ length self.old) }
        ensures etimers { OnOk result (kind ≢ Kind.Etimer → scope.new.etimers ≡ scope.old.etimers) }
        ensures ctimers { OnOk result (kind ≢ Kind.Ctimer → scope.new.ctimers ≡ scope.old.ctimers) }
        ensures ok { IfOk result (λ x. IsNew (class_of_kind kind) (read_scope scope.old) (read_scope scope.new) x.now
            self.old self.new) }
        ensures err { FailsIn (read_scope scope.old) (new_name (class_of_kind kind) ∷ []) self.old result }
    {
        match self.peek() {
            Some(Token::Name(name)) => {
                if scope.contains(name) {
                    return Err(self.fault(ReadErrorKind::NameTwice));
                }
                if scope.is_full(kind) {
                    return Err(self.fault(ReadErrorKind::TooMany));
                }
                self.advance();
                scope.declare(alloc, kind, name)?;
                Ok(name)
            }
            _ => Err(self.unexpected_token()),
        }
    }
}

impl Reader<'_> {
    /// Reads a new name and a semicolon.
    #[tactic(auto, using(crate::proofs::HeadLaws::new_goes, crate::proofs::HeadLaws::is_listed))]
    pub(crate) fn listed(&mut self, kind: Kind) -> Result<(), ReadFailure>
        requires etimers_first { kind ≡ Kind.Etimer → self.old.scope.ctimers ≡ [] }
        ensures no_longer { OnOk result (length self.new.cursor ≤ length self.old.cursor) }
        ensures ctimers { OnOk result (kind ≢ Kind.Ctimer → self.new.scope.ctimers ≡ self.old.scope.ctimers) }
        ensures ok { OnOk result (IsListed (class_of_kind kind) (read_scope self.old.scope) (read_scope self.new.scope)
            self.old.cursor self.new.cursor) }
        ensures err { FailsIn (read_scope self.old.scope) (new_name (class_of_kind kind) ∷ machine.semicolon ∷ [])
            self.old.cursor result }
    {
        self.cursor.new_name(self.alloc, &mut self.scope, kind)?;
        self.cursor.sign(Sign::Semicolon)
    }

    /// Reads a new name with its first value, and a semicolon.
    #[tactic(auto, using(crate::proofs::HeadLaws::new_goes, crate::proofs::HeadLaws::is_valued))]
    pub(crate) fn with_value(
        &mut self,
        kind: Kind,
        values: &mut Vec<u16>,
    ) -> Result<(), ReadFailure>
        requires not_etimer { kind ≢ Kind.Etimer }
        ensures no_longer { OnOk result (length self.new.cursor ≤ length self.old.cursor) }
        ensures etimers { OnOk result (self.new.scope.etimers ≡ self.old.scope.etimers) }
        ensures ctimers { OnOk result (kind ≢ Kind.Ctimer → self.new.scope.ctimers ≡ self.old.scope.ctimers) }
        ensures ok { OnOk result (IsValued (class_of_kind kind) (read_scope self.old.scope) (read_scope self.new.scope)
            values.old.items values.new.items self.old.cursor self.new.cursor) }
        ensures err { FailsIn (read_scope self.old.scope)
            (new_name (class_of_kind kind) ∷ machine.equals ∷ machine.number ∷ machine.semicolon ∷ []) self.old.cursor
            result }
    {
        self.cursor.new_name(self.alloc, &mut self.scope, kind)?;
        self.cursor.sign(Sign::Equals)?;
        let value = self.cursor.number()?;
        self.cursor.sign(Sign::Semicolon)?;
        values.push(value)?;
        Ok(())
    }
}
