//! The parts of claims: each is read and written in one place.
ghost use Rattle.std.specs.Prelude.{◌≡◌, ℕ, List, Option, map, string_bytes, IfOk};
ghost use Rattle.claim_text.specs.Lists.{list_text};

use crate::error::Unread;
use crate::reader::Reader;
use program_tree::Names;
use std::alloc::{AllocError, Global};

/// What a part takes from around it: the names of the processes, and the mote of the case, if it has one.
#[derive(Clone, Copy)]
pub struct Scope<'a> {
    pub alloc: Global,
    pub names: &'a Names,
    pub own: Option<u16>,
}

/// What a function returns that reads a part: `Unexpected` if the line doesn't go on with it, and `Memory` if an
/// allocation fails. After an error, the rest of the reader is what wasn't read.
pub type Read<T> = Result<T, Unread>;

/// The text of a part; an error if an allocation fails.
pub type Written = Result<String, AllocError>;

/// A part of a claim. What is read may have another text.
pub trait Part: Sized + Drop {
    ghost text: { List (List ℕ) → Option ℕ → Self → List ℕ };

    fn read(reader: &mut Reader<'_>) -> Read<Self>;

    fn write(&self, scope: Scope<'_>) -> Written
        ensures written { IfOk result (λ t. string_bytes t ≡ text scope.entry.names.now scope.entry.own self.now) };
}

/// The words of a list: for no parts, in front of the first one, and between two.
#[derive(Clone, Copy)]
pub struct Words {
    pub none: &'static str,
    pub before: &'static str,
    pub between: &'static str,
}

/// Writes a list of parts.
pub fn write_list<T: Part>(scope: Scope<'_>, words: Words, parts: &[T]) -> Written
    ensures written { IfOk result (λ t. string_bytes t ≡ list_text words.none.now words.before.now
        words.between.now (map (T.text scope.entry.names.now scope.entry.own) parts.now)) }
{
    let mut text = String::new(scope.alloc);
    let [first, more @ ..] = parts else {
        text.push_str(words.none)?;
        return Ok(text);
    };
    text.push_str(words.before)?;
    text.push_str(first.write(scope)?.as_str())?;
    for part in more {
        text.push_str(words.between)?;
        text.push_str(part.write(scope)?.as_str())?;
    }
    Ok(text)
}
