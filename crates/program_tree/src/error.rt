//! The errors of a text that isn't a program.
ghost use Rattle.std.specs.Prelude.{◌≡◌};
ghost use Rattle.program_tree.specs.declared.error.ReadErrorKind.TheVariants.{Memory};

use std::alloc::{AllocError, AllocFailed};

/// The kinds of errors of a text, with the numbers that reports print.
#[derive(Clone, Copy, Debug, PartialEq, Eq)]
pub enum ReadErrorKind {
    /// A piece of text that isn't a token.
    BadToken = 1,
    /// A token that can't follow the tokens before it in any program, whatever the names and numbers. At the end of a
    /// text, this error means that no program ends there, and that no program has `process` there.
    Unexpected = 2,
    /// A name that isn't in scope: it isn't declared yet, or only in the `code` of an earlier process.
    UnknownName = 3,
    /// The declaration of a name that is already in scope, or a name that `autostart` already lists.
    NameTwice = 4,
    /// A number above 65,535.
    NumberTooLarge = 5,
    /// A statement that can wait, begin a block again or leave it, in `onpoll`, `onexit` or the block of a callback
    /// timer.
    WaitInSimpleBlock = 6,
    /// A brace, `!` or `(` that opens the 33rd level.
    TooDeep = 7,
    /// The 65th process, semaphore or timer of a program, the 118th event, the 65th variable or the 8th thread of a
    /// process, or the first token of the 4,097th statement.
    TooMany = 8,
    /// A text that ends at a place at which `process` is allowed.
    NoProcess = 9,
    /// A name of another class than the expected class, such as a process's name for a variable; or a `spawn` that
    /// names the thread in whose block it is.
    BadTarget = 10,
    /// Out of memory: an allocation failed. The line of the error is 0.
    Memory = 11,
}

impl ReadErrorKind {
    ghost use Rattle.program_tree.specs.Kinds.{kind_number};

    /// The number of the kind, as reports print it.
    pub fn number(self) -> u8
        ensures number { result ≡ kind_number self }
    {
        self as u8
    }
}

/// The reason why a text isn't a program, and the line of the token that breaks the rule, or of the end of the text.
/// The first line is 1; if an allocation failed, the line is 0.
#[derive(Clone, Copy, Debug, PartialEq, Eq)]
pub struct ReadError {
    pub kind: ReadErrorKind,
    pub line: usize,
}

impl From<AllocError> for ReadError {
    ghost from_gives = { λ _ e. e ≡ record { kind = Memory; line = 0 } };

    fn from(_error: AllocError) -> Self {
        ReadError {
            kind: ReadErrorKind::Memory,
            line: 0,
        }
    }
}

impl<T: Drop> From<AllocFailed<T>> for ReadError {
    ghost from_gives = { λ _ e. e ≡ record { kind = Memory; line = 0 } };

    fn from(_error: AllocFailed<T>) -> Self {
        ReadError {
            kind: ReadErrorKind::Memory,
            line: 0,
        }
    }
}
