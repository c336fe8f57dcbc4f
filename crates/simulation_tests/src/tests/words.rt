//! The arguments of the command line, and the options that they mean.

use super::{SENDING, Trial, Way, write_trial};
use simulation::asked_by;
use std::alloc::{AllocError, Global};
use std::random::RandomSource;
use std::rt::Files;
use std::sync::Wait;
use std::test::Fail;
use std::thread::Threads;
use test_helpers::same_text;

/// Writes down the options that these arguments mean: the file, the number of workers, the partition, and the kind of
/// synchronisation.
fn write_asked(alloc: Global, text: &mut String, words: &[&str]) -> Result<(), AllocError> {
    let Some(asked) = asked_by(alloc, words).ok() else {
        return text.push_str("a fault|");
    };
    let options = asked.options;
    write!(
        text,
        "{:?} {:?} {:?} {:?}|",
        asked.file, options.workers, options.cut, options.sync
    )
}

/// Command lines whose options are written down.
static ASKED: [&[&str]; 10] = [
    &["motesim"],
    &["motesim", "--workers", "2"],
    &["motesim", "--cut", "block"],
    &["motesim", "--cut=stripe"],
    &["motesim", "a.toml"],
    &["motesim", "--workers=16", "a.toml", "--cut", "stripe"],
    &["motesim", "--sync", "joins"],
    &["motesim", "--sync=marks"],
    &["motesim", "--sync", "marks", "--workers", "4", "a.toml"],
    &["motesim", "--sync", "x"],
];

/// A trial whose streams read and write all bytes in one call.
const WIDE: Trial<'static> = Trial {
    gives: usize::MAX,
    takes: usize::MAX,
    ..SENDING
};

/// Writes down the number of workers that these arguments ask for, and the result of a run with these arguments.
fn write_run<T>(rt: &T, text: &mut String, words: &[&str]) -> Result<(), AllocError>
where
    T: AllocGlobal + Files + Threads + Wait + RandomSource + Sync,
{
    let Some(asked) = asked_by(rt.alloc(), words).ok() else {
        return text.push_str("a fault|");
    };
    write!(text, "{:?} ", asked.options.workers)?;
    write_trial(rt, text, WIDE, Way::Asked(&asked))
}

/// Command lines that are run: first without workers, then with fork-join, then with null messages.
static RUNS: [&[&str]; 9] = [
    &["motesim"],
    &["motesim", "--cut", "stripe"],
    &["motesim", "--sync", "marks"],
    &["motesim", "--workers", "1"],
    &["motesim", "--workers=3", "--cut", "stripe"],
    &["motesim", "--cut=block", "--workers", "16", "--sync=joins"],
    &["motesim", "--workers", "04"],
    &["motesim", "--workers=3", "--sync", "marks"],
    &[
        "motesim",
        "--sync=marks",
        "--cut",
        "stripe",
        "--workers",
        "16",
    ],
];

/// With fork-join each worker is started in each of two windows, and with null messages once. Among 16 workers, the
/// motes in blocks belong to workers 0, 5 and 10, and in stripes to workers 0, 1 and 2. Among three or four workers,
/// they belong to workers 0, 1 and 2 in both cases.
#[test]
fn what_the_words_ask_for(rt: HostRuntime) -> Result<(), Fail> {
    let mut text = String::new(rt.alloc());
    for words in ASKED.as_slice() {
        write_asked(rt.alloc(), &mut text, words)?;
    }
    for words in RUNS.as_slice() {
        write_run(&rt, &mut text, words)?;
    }
    same_text(
        text.as_str(),
        "\
            None None Block Joins|None Some(2) Block Joins|None None Block Joins|None None Stripe Joins|\
            Some(\"a.toml\") None Block Joins|Some(\"a.toml\") Some(16) Stripe Joins|None None Block Joins|\
            None None Block Marks|Some(\"a.toml\") Some(4) Block Marks|a fault|\
            None Ok(()) Some(405) 0 0 0|None Ok(()) Some(405) 0 0 0|None Ok(()) Some(405) 0 0 0|\
            Some(1) Ok(()) Some(405) 2 1 3|Some(3) Ok(()) Some(405) 6 4 0|Some(16) Ok(()) Some(405) 32 1 3|\
            Some(4) Ok(()) Some(405) 8 4 0|Some(3) Ok(()) Some(405) 3 4 0|Some(16) Ok(()) Some(405) 16 4 0|",
    )
}
