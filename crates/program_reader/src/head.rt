//! The reading of the parts between the semaphores and the codes of a program.
ghost use Rattle.std.specs.Prelude.{List, ◌≡◌, ◌≤◌, Some, None, ◌∷◌, ◌++◌, [], length, IfOk, OnOk, IfErr};
ghost use Rattle.program_tree.specs.Grammar.{named, starts};
ghost use Rattle.program_reader.specs.Head.{FailsIn, ReadsProcesses, CanStart, IsStarting, ReadsAutostart};
ghost use Rattle.program_reader.specs.Head.{ReadsReceiver, with_starting};
ghost use Rattle.program_reader.specs.Machine as machine;
ghost use Rattle.program_reader.specs.Machine.{first, first_broken};
ghost use Rattle.program_tree.specs.InScope.{place_in_names};
ghost use Rattle.program_tree.specs.Shapes.{Name};
ghost use Rattle.program_reader.specs.Steps.{read_scope};
ghost use Rattle.program_tree.specs.Tokens as token;
ghost use Rattle.program_reader.specs.declared.fault.Fault.{Fault};
ghost use Rattle.program_tree.specs.declared.keyword.Keyword.TheVariants as word;

use crate::cursor::{Cursor, Sign};
use crate::declarations::Kind;
use crate::fault::ReadFailure;
use crate::reader::Reader;
use crate::scope::{Context, Scope};
use program_tree::class::Class;
use program_tree::error::ReadErrorKind;
use program_tree::keyword::Keyword;
use program_tree::token::Token;
use std::alloc::Global;

impl Scope {
    /// Returns the number of the process with this name, if `autostart` may list the process.
    #[tactic(auto, using(crate::proofs::StartLaws::startable_steps))]
    fn startable(&self, name: &str) -> Result<u8, ReadErrorKind>
        ensures ok { IfOk result (λ i. CanStart (read_scope self.now) name.now i) }
        ensures err { IfErr result
            (λ k. first_broken (read_scope self.now) (named name.now (starts name.now)) ≡ Some k) }
    {
        if !self.contains(name) {
            return Err(ReadErrorKind::UnknownName);
        }
        if self.starting.place_of(name).is_some() {
            return Err(ReadErrorKind::NameTwice);
        }
        match self.processes.place_of(name) {
            Some(place) => Ok(place as u8),
            None => Err(ReadErrorKind::BadTarget),
        }
    }

    /// Adds a process to the list of `autostart`.
    fn start(
        &mut self,
        alloc: Global,
        name: &str,
        number: u8,
        numbers: &mut Vec<u8>,
    ) -> Result<(), ReadFailure>
        requires not_yet_listed { place_in_names self.old.starting name.now ≡ None }
        ensures scope { OnOk result (read_scope self.new ≡ with_starting (read_scope self.old)
            (self.old.starting ++ name.now ∷ [])) }
        ensures numbers { OnOk result (numbers.new.items ≡ numbers.old.items ++ number ∷ []) }
        ensures memory { IfErr result (λ e. e ≡ ReadFailure.Memory) }
    {
        self.starting.add(alloc, name)?;
        numbers.push(number)?;
        Ok(())
    }
}

impl Cursor<'_> {
    /// Reads the name of a process that starts at boot.
    #[tactic(auto, using(crate::proofs::StartLaws::starting_steps))]
    fn starting(
        &mut self,
        alloc: Global,
        scope: &mut Scope,
        numbers: &mut Vec<u8>,
    ) -> Result<(), ReadFailure>
        ensures no_longer { OnOk result (length self.new ≤ length self.old) }
        ensures ok { OnOk result (IsStarting (read_scope scope.old) (read_scope scope.new) numbers.old.items
            numbers.new.items self.old self.new) }
        ensures err { FailsIn (read_scope scope.old) (machine.starting ∷ []) self.old result }
    {
        match self.peek() {
            Some(Token::Name(name)) => match scope.startable(name) {
                Ok(number) => {
                    self.advance();
                    scope.start(alloc, name, number, numbers)
                }
                Err(kind) => Err(self.fault(kind)),
            },
            _ => Err(self.unexpected_token()),
        }
    }
}

impl Reader<'_> {
    /// Reads the process line.
    #[tactic(auto, using(crate::proofs::LineLaws::line_steps))]
    pub(crate) fn processes(&mut self) -> Result<(), ReadFailure>
        requires at_keyword { first self.old.cursor ≡ Some (token.Keyword word.Semaphore) → ⊥ }
        ensures ok { OnOk result (ReadsProcesses (read_scope self.old.scope) (read_scope self.new.scope)
            self.old.cursor
            self.new.cursor) }
        ensures err { FailsIn (read_scope self.old.scope) (machine.from_semaphores ∷ []) self.old.cursor result }
    {
        if self.cursor.left() == 0 {
            return Err(self.cursor.fault(ReadErrorKind::NoProcess));
        }
        if !self.cursor.accept(Keyword::Process) {
            return Err(self.cursor.unexpected_token());
        }
        self.cursor
            .new_name(self.alloc, &mut self.scope, Kind::Process)?;
        'processes: while self.cursor.comma() {
            self.cursor
                .new_name(self.alloc, &mut self.scope, Kind::Process)?;
        }
        self.cursor.sign(Sign::Semicolon)
    }

    /// Reads the processes that start at boot, and returns their numbers.
    pub(crate) fn autostart(&mut self) -> Result<Vec<u8>, ReadFailure>
        ensures ok { IfOk result (λ numbers. ReadsAutostart (read_scope self.old.scope) (read_scope self.new.scope)
            numbers.items self.old.cursor self.new.cursor) }
        ensures err { (f : Fault) → result ≡ Err (ReadFailure.Fault f)
            → (x : Name) (xs : List Name) (more : machine.Pending) →
            machine.tell (read_scope self.old.scope) (machine.from_autostart x xs ∷ more) self.old.cursor
            ≡ machine.fault f.kind f.left }
    {
        let mut numbers = Vec::new(self.alloc);
        self.starting_names(&mut numbers)?;
        Ok(numbers)
    }

    /// Reads `autostart` and the names after it, if `autostart` is present, and adds the numbers of these processes.
    #[tactic(auto, using(crate::proofs::StartLaws::autostart_steps))]
    fn starting_names(&mut self, numbers: &mut Vec<u8>) -> Result<(), ReadFailure>
        requires none_yet { numbers.old.items ≡ [] }
        ensures ok { OnOk result
            (ReadsAutostart (read_scope self.old.scope) (read_scope self.new.scope) numbers.new.items
            self.old.cursor self.new.cursor) }
        ensures err { (f : Fault) → result ≡ Err (ReadFailure.Fault f)
            → (x : Name) (xs : List Name) (more : machine.Pending) →
            machine.tell (read_scope self.old.scope) (machine.from_autostart x xs ∷ more) self.old.cursor
            ≡ machine.fault f.kind f.left }
    {
        if !self.cursor.accept(Keyword::Autostart) {
            return Ok(());
        }
        self.cursor.starting(self.alloc, &mut self.scope, numbers)?;
        'names: while self.cursor.comma() {
            self.cursor.starting(self.alloc, &mut self.scope, numbers)?;
        }
        self.cursor.sign(Sign::Semicolon)
    }

    /// Reads the process that gets packets, and returns its number. Returns `None` if there is no `receiver`.
    #[tactic(auto, using(crate::proofs::StartLaws::receiver_steps))]
    pub(crate) fn receiver(&mut self) -> Result<Option<u8>, ReadFailure>
        ensures same { self.new.scope ≡ self.old.scope }
        ensures ok { IfOk result (λ receiver. ReadsReceiver (read_scope self.old.scope) receiver self.old.cursor
            self.new.cursor) }
        ensures err { (f : Fault) → result ≡ Err (ReadFailure.Fault f)
            → (x : Name) (xs : List Name) (more : machine.Pending) →
            machine.tell (read_scope self.old.scope) (machine.from_receiver x xs ∷ more) self.old.cursor
            ≡ machine.fault f.kind f.left }
    {
        if !self.cursor.accept(Keyword::Receiver) {
            return Ok(None);
        }
        let place = Context {
            level: 0,
            simple: false,
            thread: None,
        };
        let process = self.name(&place, Class::Process)?;
        self.cursor.sign(Sign::Semicolon)?;
        Ok(Some(process))
    }
}
