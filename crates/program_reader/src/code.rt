//! The code of a process.
ghost use Rattle.std.specs.Prelude.{◌≡◌, ◌<◌, ◌≤◌, ◌+◌, List, true, ◌∷◌, [], length, map, IfOk, OnOk, option_map};
ghost use Rattle.std.specs.Prelude.{slice_index_or};
ghost use Rattle.std.specs.List.{All};
ghost use Rattle.std.specs.Option.{ForSome};
ghost use Rattle.program_reader.specs.CodeParts.{ReadsOpening, ReadsContent, ReadsCode};
ghost use Rattle.program_tree.specs.Faults as faults;
ghost use Rattle.program_reader.specs.Head.{with_names, FailsIn};
ghost use Rattle.program_tree.specs.InScope.{outside};
ghost use Rattle.program_reader.specs.Machine as machine;
ghost use Rattle.program_reader.specs.Machine.{last_brace, tell, fault};
ghost use Rattle.program_tree.specs.Program.{code_of};
ghost use Rattle.program_tree.specs.Scope.{threads_fit, earlier_threads};
ghost use Rattle.program_tree.specs.Shapes.{Name};
ghost use Rattle.program_reader.specs.Kept.{HasNoOwnNames};
ghost use Rattle.program_reader.specs.Steps.{read_scope};
ghost use Rattle.program_tree.specs.Tokens as token;
ghost use Rattle.program_tree.specs.FlatBlock.{tree_in};
ghost use Rattle.program_tree.specs.Tree.{IsWithinLimits};
ghost use Rattle.program_reader.specs.declared.fault.Fault.{Fault};

use crate::cursor::{Cursor, Sign};
use crate::fault::ReadFailure;
use crate::reader::Reader;
use crate::scope::Scope;
use program_tree::flat_block::FlatBlock;
use program_tree::keyword::Keyword;
use program_tree::names::Names;
use program_tree::process_text::ProcessText;
use program_tree::token::Token;
use std::alloc::Global;
use std::mem;

impl Cursor<'_> {
    /// Reads the keyword and the name of a code, and its opening brace.
    #[tactic(auto, using(crate::proofs::CodeLaws::opening_steps))]
    fn opening(&mut self, name: &str) -> Result<(), ReadFailure>
        ensures ok { OnOk result ((s : faults.Scope) → ReadsOpening name.now s self.old self.new) }
        ensures err { (f : Fault) → result ≡ Err (ReadFailure.Fault f)
            → (s : faults.Scope) (xs : List Name) (more : machine.Pending) →
            tell s (machine.codes name.now xs ∷ more) self.old ≡ fault f.kind f.left }
    {
        if !self.accept(Keyword::Code) {
            return Err(self.unexpected_token());
        }
        match self.peek() {
            Some(Token::Name(found)) if found == name => self.advance(),
            _ => return Err(self.unexpected_token()),
        }
        self.sign(Sign::OpenBrace)
    }

    /// Reads the keyword of a code, the name of the process with this number, and the opening brace.
    fn opening_of(&mut self, scope: &Scope, process: usize) -> Result<(), ReadFailure>
        requires process_exists { process < length scope.now.processes }
        ensures ok { OnOk result ((s : faults.Scope) → ReadsOpening (slice_index_or scope.now.processes process []) s
            self.old self.new) }
        ensures err { (f : Fault) → result ≡ Err (ReadFailure.Fault f)
            → (s : faults.Scope) (xs : List Name) (more : machine.Pending) →
            tell s (machine.codes (slice_index_or scope.now.processes process []) xs ∷ more) self.old
            ≡ fault f.kind f.left }
    {
        self.opening(scope.processes.get(process))
    }

    /// Reads the last brace of a code.
    #[tactic(auto, using(crate::proofs::CodeLaws::brace_steps))]
    fn last_brace(&mut self) -> Result<(), ReadFailure>
        ensures spelled { OnOk result (self.old ≡ token.CloseBrace ∷ self.new) }
        ensures ok { OnOk result ((s : faults.Scope) (f : machine.Pending) → tell s (last_brace ∷ f) self.old
            ≡ tell (with_names s (outside s.names)) f self.new) }
        ensures err { (f : Fault) → result ≡ Err (ReadFailure.Fault f) → (s : faults.Scope) (more : machine.Pending)
            → tell s (last_brace ∷ more) self.old ≡ fault f.kind f.left }
    {
        match self.peek() {
            Some(Token::CloseBrace) => {
                self.advance();
                Ok(())
            }
            _ => Err(self.unexpected_token()),
        }
    }
}

/// The text between the braces of a code, without the names that it declares.
#[derive(Drop)]
struct Content {
    starts: Vec<u16>,
    callbacks: Vec<FlatBlock>,
    thread_blocks: Vec<FlatBlock>,
    on_poll: Option<FlatBlock>,
    on_exit: Option<FlatBlock>,
    body: FlatBlock,
}

/// The names that a code declares, and the number of timers that the program has before it.
#[derive(Drop)]
struct Own {
    variables: Names,
    first_timer: u8,
    etimers: Names,
    ctimers: Names,
    threads: Names,
    ghost few_variables: { length variables ≤ 64 },
    ghost few_timers: { first_timer + length etimers + length ctimers ≤ 64 },
    ghost few_threads: { length threads ≤ 7 },
}

impl Scope {
    /// Takes the names of a code out of scope.
    fn leave(&mut self, alloc: Global) -> Own
        ensures variables { result.variables ≡ self.old.variables }
        ensures first_timer { result.first_timer ≡ self.old.first_timer }
        ensures etimers { result.etimers ≡ self.old.etimers }
        ensures ctimers { result.ctimers ≡ self.old.ctimers }
        ensures threads { result.threads ≡ self.old.threads }
        ensures left { read_scope self.new ≡ with_names (read_scope self.old) (outside (read_scope self.old).names) }
    {
        let first_timer = self.first_timer;
        let variables = mem::replace(&mut self.variables, Names::new(alloc));
        let etimers = mem::replace(&mut self.etimers, Names::new(alloc));
        let ctimers = mem::replace(&mut self.ctimers, Names::new(alloc));
        let threads = mem::replace(&mut self.threads, Names::new(alloc));
        self.first_timer = first_timer + etimers.len() + ctimers.len();
        Own {
            variables,
            first_timer: first_timer as u8,
            etimers,
            ctimers,
            threads,
        }
    }
}

impl Reader<'_> {
    /// Reads the text between the braces of a code. The names of the code are in scope afterwards.
    #[tactic(auto, using(crate::proofs::ContentLaws::content_steps))]
    fn content(&mut self) -> Result<Content, ReadFailure>
        requires has_no_own_names { HasNoOwnNames self.old.scope }
        ensures body { IfOk result (λ c. IsWithinLimits (tree_in c.body)) }
        ensures callbacks { IfOk result (λ c. All (λ b. IsWithinLimits (tree_in b)) c.callbacks.items) }
        ensures threads { IfOk result (λ c. All (λ b. IsWithinLimits (tree_in b)) c.thread_blocks.items) }
        ensures on_poll { IfOk result (λ c. ForSome c.on_poll (λ b. IsWithinLimits (tree_in b))) }
        ensures on_exit { IfOk result (λ c. ForSome c.on_exit (λ b. IsWithinLimits (tree_in b))) }
        ensures earlier { IfOk result (λ c. threads_fit earlier_threads 0 (map tree_in c.thread_blocks.items) ≡ true) }
        ensures ok { IfOk result (λ c. ReadsContent self.new.scope.etimers self.new.scope.ctimers c.starts.items
            (map tree_in c.callbacks.items) (map tree_in c.thread_blocks.items)
            (option_map tree_in c.on_poll) (option_map tree_in c.on_exit) (tree_in c.body) (read_scope self.old.scope)
            (read_scope self.new.scope) self.old.cursor self.new.cursor) }
        ensures err { FailsIn (read_scope self.old.scope) (machine.from_variables ∷ []) self.old.cursor result }
    {
        let starts = self.variables()?;
        self.etimers()?;
        let callbacks = self.ctimers()?;
        let thread_blocks = self.threads()?;
        let on_poll = self.on_poll()?;
        let on_exit = self.on_exit()?;
        let body = self.body()?;
        Ok(Content {
            starts,
            callbacks,
            thread_blocks,
            on_poll,
            on_exit,
            body,
        })
    }

    /// Reads the code of the process with this number.
    #[tactic(auto, using(crate::proofs::MadeLaws::code_steps))]
    pub(crate) fn code(&mut self, process: usize) -> Result<ProcessText, ReadFailure>
        requires process { process < length self.old.scope.processes }
        requires own { HasNoOwnNames self.old.scope }
        ensures ok { IfOk result (λ t. ReadsCode (slice_index_or self.old.scope.processes process []) process
            (code_of t)
            (read_scope self.old.scope) (read_scope self.new.scope) self.old.cursor self.new.cursor) }
        ensures err { (f : Fault) → result ≡ Err (ReadFailure.Fault f) → (xs : List Name) (more : machine.Pending) →
            machine.tell (read_scope self.old.scope) (machine.codes (slice_index_or self.old.scope.processes process
            [])
            xs ∷ more) self.old.cursor ≡ machine.fault f.kind f.left }
    {
        self.cursor.opening_of(&self.scope, process)?;
        let content = self.content()?;
        self.cursor.last_brace()?;
        let own = self.scope.leave(self.alloc);
        Ok(ProcessText {
            number: process as u8,
            variables: own.variables,
            starts: content.starts,
            first_timer: own.first_timer,
            etimers: own.etimers,
            ctimers: own.ctimers,
            callbacks: content.callbacks,
            threads: own.threads,
            thread_blocks: content.thread_blocks,
            on_poll: content.on_poll,
            on_exit: content.on_exit,
            body: content.body,
        })
    }
}
