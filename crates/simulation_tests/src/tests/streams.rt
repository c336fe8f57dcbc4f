//! Readers and writers that fail.

use super::{PRINTING, Trial, Way, tells};
use std::random::RandomSource;
use std::rt::Files;
use std::sync::Wait;
use std::test::Fail;
use std::thread::Threads;

/// Twelve calls of the reader return the bytes, and one more call reports the end. The writer takes all 89 bytes of
/// the report.
const ENOUGH: Trial<'static> = Trial {
    reads: 13,
    writes: 89,
    ..PRINTING
};

/// Fails unless the error is reported if the writer fails, or takes nothing, after so many calls.
fn tells_the_writer<T>(rt: &T, writes: usize) -> Result<(), Fail>
where
    T: AllocGlobal + Files + Threads + Wait + RandomSource + Sync,
{
    let mut want = String::new(rt.alloc());
    write!(want, "Err(Print(Write)) Some({writes}) 0|")?;
    for fails in [true, false] {
        let trial = Trial {
            writes,
            fails,
            ..ENOUGH
        };
        tells(rt, trial, Way::Serial, want.as_str())?;
    }
    Ok(())
}

/// The last call of the reader that may fail is the one that reports the end. The last call of the writer that may
/// fail is the one for the report's last byte.
#[test]
fn failing_reader_and_writer(rt: HostRuntime) -> Result<(), Fail> {
    for reads in 0..13usize {
        let trial = Trial { reads, ..ENOUGH };
        tells(&rt, trial, Way::Serial, "Err(Read) Some(0) 0|")?;
    }
    for writes in 0..89usize {
        tells_the_writer(&rt, writes)?;
    }
    tells(&rt, ENOUGH, Way::Serial, "Ok(()) Some(89) 0 0 0|")
}
