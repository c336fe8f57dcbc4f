//! Blocks of many lengths.

use mote_program::read;
use std::alloc::{AllocError, Global};
use std::test::Fail;

/// Numbers of statements: round numbers, and numbers next to a power of two.
static LENGTHS: [usize; 17] = [
    0, 1, 2, 10, 100, 127, 128, 500, 512, 998, 999, 1_000, 1_001, 1_023, 1_024, 1_025, 2_000,
];

/// Tests whether the reader accepts a body of this many statements.
fn is_read(alloc: Global, length: usize) -> Result<bool, AllocError> {
    let mut text = String::from_str(alloc, "process a; code a { body { ")?;
    for _ in 0..length {
        text.push_str("yield; ")?;
    }
    text.push_str("} }")?;
    Ok(read(alloc, text.as_str()).is_ok())
}

/// Tests whether the reader accepts a body of each of these lengths.
fn all_are_read(alloc: Global) -> Result<bool, AllocError> {
    for length in LENGTHS.as_slice() {
        if !is_read(alloc, *length)? {
            return Ok(false);
        }
    }
    Ok(true)
}

#[test]
fn blocks_of_many_lengths(rt: HostRuntime) -> Result<(), Fail> {
    assert!(rt; all_are_read(rt.alloc())?);
    Ok(())
}
