//! Reads a whole input as a text.
ghost use Rattle.std.specs.Prelude.{◌≡◌, ◌≤◌, IfOk, IfSome, string_len, vec_len};
ghost use Rattle.simulation.specs.Reads.{ReadsBytes, ReadsText};
ghost use Rattle.net_scenario.specs.Limits.{longest_text};
ghost use Rattle.simulation.specs.declared.input.InputError.TheVariants.{Memory};

use net_scenario::LONGEST_TEXT;
use std::alloc::{AllocError, Global};
use std::io::Read;

/// The largest number of bytes that one call of the reader returns.
const CHUNK: usize = 4096;

/// The reason why an input was refused.
#[derive(Clone, Copy, Debug, PartialEq, Eq)]
pub enum InputError {
    /// The reader failed. An interrupted call counts as a failure.
    Read,
    /// More than `LONGEST_TEXT` bytes arrived.
    TooLong,
    /// The bytes aren't UTF-8.
    NotText,
    /// An allocation failed.
    Memory,
}

impl From<AllocError> for InputError {
    ghost from_gives = { λ _ e. e ≡ Memory };

    fn from(_error: AllocError) -> Self {
        InputError::Memory
    }
}

/// Reads all bytes of a reader, if there are at most `LONGEST_TEXT` of them. It stops at the first call that passes
/// this limit, so it returns even if the reader has no end.
fn read_all<R: Read>(alloc: Global, reader: &mut R) -> Result<Vec<u8>, InputError>
    ensures matches { IfSome (R.remaining reader.old) (λ input. ReadsBytes input result) }
    ensures bounded { IfOk result (λ bytes. vec_len bytes ≤ longest_text) }
{
    let mut bytes = Vec::new(alloc);
    let mut chunk = [0u8; CHUNK];
    while bytes.len() <= LONGEST_TEXT {
        match reader.read(&mut chunk) {
            Ok(0) => return Ok(bytes),
            Ok(n) => bytes.extend_from_slice(&chunk[..n])?,
            Err(_) => return Err(InputError::Read),
        }
    }
    Err(InputError::TooLong)
}

/// Reads the text of a reader, which may have at most `LONGEST_TEXT` bytes of UTF-8.
///
/// # Errors
/// In this order: `Read` if a call of the reader failed before the limit was passed, `TooLong` if more than
/// `LONGEST_TEXT` bytes arrived, `NotText` if the bytes aren't UTF-8. The error can also be `Memory`, if an allocation
/// failed; tests show that it has no other cause.
pub fn read_text<R: Read>(alloc: Global, reader: &mut R) -> Result<String, InputError>
    // If the reader's contents are known, the result is that of reading these bytes.
    ensures matches { IfSome (R.remaining reader.old) (λ input. ReadsText input result) }
    ensures bounded { IfOk result (λ text. string_len text ≤ longest_text) }
{
    let bytes = read_all(alloc, reader)?;
    match String::from_utf8(bytes) {
        Ok(text) => Ok(text),
        Err(_) => Err(InputError::NotText),
    }
}
