//! Lists of numbers in the values of options.
ghost use Rattle.std.specs.Prelude.{◌≡◌, ◌==◌, option_map, IfOk};
ghost use Rattle.std.specs.List.{slice_split};
ghost use Rattle.simulation.specs.Words.{texts_of};
ghost use Rattle.claim_check.specs.Asked.{lacks_list, numbers_of, rise_from};
ghost use Rattle.claim_check.specs.Words.{ReadsList, ReadsNumbers};

use std::alloc::{AllocError, Global};

/// Returns the parts of a text, with commas between them.
fn parts_of(alloc: Global, text: &str) -> Result<Vec<&str>, AllocError>
    ensures parts { IfOk result (λ parts. texts_of parts.items ≡ slice_split (λ byte. byte == 44) text.now) }
{
    text.split(',').collect(alloc)
}

/// Returns the numbers in some texts; or none if one of the texts isn't a number.
fn numbers_in(alloc: Global, texts: &[&str]) -> Result<Vec<u32>, AllocError>
    ensures numbers { IfOk result (λ numbers. ReadsNumbers (texts_of texts.now) numbers.items) }
{
    let mut numbers = Vec::new(alloc);
    for text in texts {
        match text.parse::<u32>() {
            Ok(number) => numbers.push(number)?,
            Err(_) => return Ok(Vec::new(alloc)),
        }
    }
    Ok(numbers)
}

/// Returns the numbers in the value of an option, if it has one; they are none if the value isn't a list of numbers.
///
/// # Errors
/// If an allocation failed.
pub fn list_of(alloc: Global, value: Option<&str>) -> Result<Option<Vec<u32>>, AllocError>
    ensures reads { IfOk result (ReadsList (option_map (λ text. text.now) value.entry)) }
{
    let Some(text) = value else {
        return Ok(None);
    };
    let parts = parts_of(alloc, text)?;
    Ok(Some(numbers_in(alloc, parts.as_slice())?))
}

/// Returns `true` if each number is larger than the one before it, and none is smaller than `least`.
fn rise_from(least: u32, numbers: &[u32]) -> bool
    ensures value { result ≡ rise_from least numbers.now }
{
    let mut next = u64::from(least);
    for number in numbers {
        let number = u64::from(*number);
        if number < next {
            return false;
        }
        next = number + 1;
    }
    true
}

/// Returns `true` if an option has a list without numbers, or of numbers that don't rise from the least one on.
pub fn lacks_list(least: u32, list: &Option<Vec<u32>>) -> bool
    ensures value { result ≡ lacks_list least list.now }
{
    match list {
        Some(numbers) => numbers.is_empty() || !rise_from(least, numbers.as_slice()),
        None => false,
    }
}

/// Returns the numbers of an option.
pub fn numbers_of(list: &Option<Vec<u32>>) -> &[u32]
    ensures value { result.now ≡ numbers_of list.now }
{
    match list {
        Some(numbers) => numbers.as_slice(),
        None => &[],
    }
}
