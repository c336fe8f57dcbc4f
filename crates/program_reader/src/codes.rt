//! The codes of a program, and the whole program.
ghost use Rattle.std.specs.Prelude.{◌≡◌, ◌<◌, ◌++◌, ◌∷◌, [], map, replicate, IfOk, OnOk};
ghost use Rattle.program_reader.specs.Codes.{HasCodes, ReadsHead, all_timers, tree_with};
ghost use Rattle.program_reader.specs.Head.{FailsIn};
ghost use Rattle.program_reader.specs.Machine as machine;
ghost use Rattle.program_tree.specs.Faults.{nothing_yet, Scope};
ghost use Rattle.program_tree.specs.Program.{code_of, tree_of};
ghost use Rattle.program_tree.specs.Made.{AreLexed, IsProgramTree};
ghost use Rattle.program_tree.specs.Reading.{IsTreeOfTokens};
ghost use Rattle.program_tree.specs.TokenMeaning.{token_of};
ghost use Rattle.program_reader.specs.Kept.{HasNoOwnNames};
ghost use Rattle.program_reader.specs.Steps.{read_scope};
ghost use Rattle.program_reader.specs.declared.fault.Fault.{Fault};

use crate::cursor::Cursor;
use crate::fault::ReadFailure;
use crate::reader::Reader;
use crate::scope::Scope as ScopeRead;
use program_tree::process_text::ProcessText;
use program_tree::program::Program;
use program_tree::timer::Timer;
use program_tree::token::Token;
use std::alloc::{AllocError, Global};

/// Adds this many timers with the same process and of the same kind.
fn add_timers(timers: &mut Vec<Timer>, count: usize, timer: Timer) -> Result<(), AllocError>
    ensures appended { OnOk result (timers.new.items ≡ timers.old.items ++ replicate count timer) }
{
    for _added in 0..count {
        timers.push(timer)?;
    }
    Ok(())
}

/// The timers of all processes, in the order of the text.
fn timers(alloc: Global, mut codes: &[ProcessText]) -> Result<Vec<Timer>, AllocError>
    ensures timers { IfOk result (λ timers. timers.items ≡ all_timers (map code_of codes.entry.now)) }
{
    let mut timers = Vec::new(alloc);
    while let [code, rest @ ..] = codes {
        let etimer = Timer {
            process: code.number,
            is_callback: false,
        };
        add_timers(&mut timers, code.etimers.len(), etimer)?;
        let ctimer = Timer {
            process: code.number,
            is_callback: true,
        };
        add_timers(&mut timers, code.ctimers.len(), ctimer)?;
        codes = rest;
    }
    Ok(timers)
}

impl Reader<'_> {
    /// Reads the codes of the processes, in the order of the processes.
    fn codes(&mut self) -> Result<Vec<ProcessText>, ReadFailure>
        requires has_no_own_names { HasNoOwnNames self.old.scope }
        ensures ok { IfOk result (λ codes. HasCodes (map code_of codes.items) [] (read_scope self.old.scope)
            (read_scope self.new.scope) self.old.cursor self.new.cursor) }
        ensures err { (f : Fault) → result ≡ Err (ReadFailure.Fault f) → (more : machine.Pending) →
            machine.tell (read_scope self.old.scope) (machine.codes_form self.old.scope.processes more) self.old.cursor
            ≡ machine.fault f.kind f.left }
    {
        let mut codes = Vec::new(self.alloc);
        'codes: while codes.len() < self.scope.processes.len() {
            let code = self.code(codes.len())?;
            codes.push(code)?;
        }
        Ok(codes)
    }
}

impl Cursor<'_> {
    /// Checks that the text ends here.
    fn end(&self) -> Result<(), ReadFailure>
        ensures ok { OnOk result (self.now ≡ []) }
        ensures err { (f : Fault) → result ≡ Err (ReadFailure.Fault f) → (s : Scope)
            → machine.tell s [] self.now ≡ machine.fault f.kind f.left }
    {
        if self.left() == 0 {
            return Ok(());
        }
        Err(self.unexpected_token())
    }
}

/// The parts before the codes of a program: the first counts of the semaphores, the processes that start at boot, and
/// the process that gets packets.
#[derive(Drop)]
struct Head {
    counts: Vec<u16>,
    autostart: Vec<u8>,
    receiver: Option<u8>,
}

impl Reader<'_> {
    /// Reads the parts before the codes.
    fn head(&mut self) -> Result<Head, ReadFailure>
        ensures ok { IfOk result (λ h. ReadsHead h.counts.items h.autostart.items h.receiver (read_scope
            self.old.scope)
            (read_scope self.new.scope) self.old.cursor self.new.cursor) }
        ensures err { FailsIn (read_scope self.old.scope) (machine.from_events ∷ []) self.old.cursor result }
    {
        self.events()?;
        let counts = self.semaphores()?;
        self.processes()?;
        let autostart = self.autostart()?;
        let receiver = self.receiver()?;
        Ok(Head {
            counts,
            autostart,
            receiver,
        })
    }
}

/// The parts of a program without the names that are in scope at its end: the parts before the codes, the codes, and
/// the timers of the codes.
#[derive(Drop)]
struct Parts {
    head: Head,
    codes: Vec<ProcessText>,
    timers: Vec<Timer>,
}

impl Reader<'_> {
    /// Reads the codes, and checks that the text ends after them.
    fn last_codes(&mut self) -> Result<Vec<ProcessText>, ReadFailure>
        requires has_no_own_names { HasNoOwnNames self.old.scope }
        ensures ok { IfOk result (λ codes. HasCodes (map code_of codes.items) [] (read_scope self.old.scope)
            (read_scope self.new.scope) self.old.cursor []) }
        ensures err { (f : Fault) → result ≡ Err (ReadFailure.Fault f) →
            machine.tell (read_scope self.old.scope) (machine.codes_form self.old.scope.processes []) self.old.cursor
            ≡ machine.fault f.kind f.left }
    {
        let codes = self.codes()?;
        self.cursor.end()?;
        Ok(codes)
    }

    /// Reads all parts of a text, beginning at its first token.
    fn parts(&mut self) -> Result<Parts, ReadFailure>
        requires fresh { read_scope self.old.scope ≡ nothing_yet }
        requires lexed { AreLexed self.old.cursor }
        ensures made { IfOk result (λ p. IsProgramTree (tree_with self.new.scope p)) }
        ensures tree { IfOk result (λ p. IsTreeOfTokens self.old.cursor (tree_with self.new.scope p)) }
        ensures err { (f : Fault) → result ≡ Err (ReadFailure.Fault f)
            → machine.tell nothing_yet (machine.from_events ∷ []) self.old.cursor ≡ machine.fault f.kind f.left }
    {
        let head = self.head()?;
        let codes = self.last_codes()?;
        let timers = timers(self.alloc, &codes)?;
        Ok(Parts {
            head,
            codes,
            timers,
        })
    }

    /// The program with these parts, and with the names that are in scope after them.
    fn into_program(self, parts: Parts) -> Program
        requires is_made { IsProgramTree (tree_with self.scope parts) }
        ensures tree { tree_of result ≡ tree_with self.entry.scope parts }
    {
        Program::new(
            self.scope.events,
            self.scope.semaphores,
            parts.head.counts,
            self.scope.processes,
            parts.head.autostart,
            parts.head.receiver,
            parts.codes,
            parts.timers,
        )
    }
}

/// The program that the tokens form, or the first error of the tokens.
pub(crate) fn program<'a>(alloc: Global, tokens: &'a [Token<'a>]) -> Result<Program, ReadFailure>
    requires are_lexed { AreLexed (map token_of tokens.now) }
    ensures ok { IfOk result (λ p. IsTreeOfTokens (map token_of tokens.now) (tree_of p)) }
    ensures err { (f : Fault) → result ≡ Err (ReadFailure.Fault f) →
        machine.tell nothing_yet (machine.from_events ∷ []) (map token_of tokens.now) ≡ machine.fault f.kind f.left }
{
    let mut reader = Reader {
        alloc,
        cursor: Cursor::new(tokens),
        scope: ScopeRead::new(alloc),
    };
    let parts = reader.parts()?;
    Ok(reader.into_program(parts))
}
