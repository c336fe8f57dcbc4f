//! Texts that arrive in pieces, and readers that fail.

use super::Source;
use simulation::{InputError, read_text};
use std::alloc::Global;
use std::test::Fail;

/// Tests whether these bytes are read unchanged, at most `most` bytes per call, from a reader that fails after `calls`
/// calls.
fn reads(alloc: Global, bytes: &[u8], most: usize, calls: usize) -> Result<bool, InputError> {
    let mut reader = Source {
        rest: bytes,
        most,
        calls,
    };
    let text = read_text(alloc, &mut reader)?;
    Ok(text.as_bytes() == bytes)
}

/// Tests whether the error of a failing reader is reported. Each call of the reader returns one byte, except one call,
/// which fails after 0 to 19 other calls. The next call would succeed.
fn tells_failures(alloc: Global) -> bool {
    for calls in 0..20usize {
        if reads(alloc, &[b' '; 20], 1, calls) != Err(InputError::Read) {
            return false;
        }
    }
    true
}

/// One, two, three and 16 whole chunks, each also with one byte less and one byte more; and the two greatest lengths
/// of a text.
static LENGTHS: [usize; 14] = [
    4_095, 4_096, 4_097, 8_191, 8_192, 8_193, 12_287, 12_288, 12_289, 65_535, 65_536, 65_537,
    1_048_575, 1_048_576,
];

/// Tests whether a text of each of these lengths is read. The reader returns as many bytes as are asked for, or at
/// most 1,000 or 4,096 per call.
fn reads_chunks(alloc: Global, bytes: &[u8]) -> bool {
    for length in LENGTHS.as_slice() {
        let Some(front) = bytes.get(..*length) else {
            return false;
        };
        for most in [usize::MAX, 1_000, 4_096] {
            if reads(alloc, front, most, usize::MAX) != Ok(true) {
                return false;
            }
        }
    }
    true
}

/// Repeats the digits and letters: any two of them that are 4,096 bytes apart in the text are different.
#[test]
fn texts_in_pieces(rt: HostRuntime) -> Result<(), Fail> {
    let mut bytes = Vec::new(rt.alloc());
    for _ in 0..17_000 {
        bytes.extend_from_slice(b"0123456789ABCDEFGHIJKLMNOPQRSTUVWXYZabcdefghijklmnopqrstuvwxyz")?;
    }
    assert!(rt; tells_failures(rt.alloc()) && reads_chunks(rt.alloc(), &bytes));
    Ok(())
}
