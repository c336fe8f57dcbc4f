//! Texts of the results of parts, and their comparison.

use radio_packet::{RadioCopy, Sent};
use std::alloc::AllocError;
use std::test::Fail;
use trace_lines::Line;

/// Requires that two texts are equal.
///
/// # Errors
/// `Fail`, which shows both texts, if they differ.
pub fn same_text(actual: &str, want: &str) -> Result<(), Fail> {
    if actual == want {
        return Ok(());
    }
    Err(Fail::new(format_args!("{actual} instead of {want}")))
}

/// Writes down each copy: the moment of its arrival, its receiver, its sender, its number and its value.
///
/// # Errors
/// `AllocError` if an allocation for the text fails.
pub fn write_copies(text: &mut String, copies: &[RadioCopy]) -> Result<(), AllocError> {
    for copy in copies {
        write!(
            text,
            "{} {} {} {} {}|",
            copy.at, copy.to, copy.sender, copy.number, copy.value
        )?;
    }
    Ok(())
}

/// Writes down each line: its moment and its event.
///
/// # Errors
/// `AllocError` if an allocation for the text fails.
pub fn write_lines(text: &mut String, lines: &[Line]) -> Result<(), AllocError> {
    for line in lines {
        write!(text, "{} {:?}|", line.at, line.what)?;
    }
    Ok(())
}

/// Writes down each packet that was sent: its moment, its sender, its number and its value.
///
/// # Errors
/// `AllocError` if an allocation for the text fails.
pub fn write_sends(text: &mut String, sends: &[Sent]) -> Result<(), AllocError> {
    for sent in sends {
        write!(
            text,
            "sent {} {} {} {}|",
            sent.at, sent.sender, sent.number, sent.value
        )?;
    }
    Ok(())
}
