//! Writes where a claim is broken.
ghost use Rattle.std.specs.Prelude.{◌≡◌, option_map, slice_get, string_bytes, IfOk};
ghost use Rattle.claim_text.specs.BreakText.{place_text, beyond_text, with_text, subject_of, test_at, missing_test};
ghost use Rattle.claim_text.specs.BreakText.{missing_at, spare_case, spare_at, break_text};

use crate::claim::write_tests;
use crate::part::{Part, Scope, Words, Written, write_list};
use crate::subject::mote_of;
use claims::{Break, BrokenTest, Case, Claim, Found, Test};
use program_tree::Names;
use std::alloc::{AllocError, Global};

const MISSING: Words = Words {
    none: "",
    before: "; missing: ",
    between: ", ",
};

const SUPERFLUOUS: Words = Words {
    none: "",
    before: "; superfluous: ",
    between: ", ",
};

/// Writes the place of a line, if there is one: its number in the trace of its mote, from 1, and its moment.
fn write_place(scope: Scope<'_>, line: Option<Found>) -> Written
    ensures written { IfOk result (λ t. string_bytes t ≡ with_text line) }
{
    let Some(line) = line else {
        return Ok(String::new(scope.alloc));
    };
    let place = line.place as u128 + 1;
    let mote = line.mote;
    let at = line.line.at;
    format!(in scope.alloc; "; line {place} of mote {mote}, at {at}")
}

fn write_beyond(scope: Scope<'_>, line: Option<Found>) -> Written
    ensures written { IfOk result (λ t. string_bytes t ≡ beyond_text line) }
{
    if line.is_none() {
        return Ok(String::new(scope.alloc));
    }
    let place = write_place(scope, line)?;
    format!(in scope.alloc; "{place}, is one too many")
}

fn write_subject(scope: Scope<'_>) -> Written
    ensures written { IfOk result (λ t. string_bytes t ≡ subject_of scope.entry.own) }
{
    match scope.own {
        None => String::from_str(scope.alloc, "the net: "),
        Some(own) => format!(in scope.alloc; "mote {own}: "),
    }
}

fn write_test_at(scope: Scope<'_>, test: Option<&Test>) -> Written
    ensures written { IfOk result (λ t. string_bytes t
        ≡ test_at scope.entry.names.now scope.entry.own (option_map (λ t. t.now) test.entry)) }
{
    match test {
        None => String::from_str(scope.alloc, "no such test"),
        Some(test) => test.write(scope),
    }
}

fn write_missing_test(scope: Scope<'_>, test: Option<&Test>, broken: &BrokenTest) -> Written
    ensures written { IfOk result (λ t. string_bytes t ≡ missing_test scope.entry.names.now scope.entry.own
        (option_map (λ t. t.now) test.entry) broken.now) }
{
    let subject = write_subject(scope)?;
    let test = write_test_at(scope, test)?;
    let beyond = write_beyond(scope, broken.line)?;
    let missing = write_list(scope, MISSING, broken.difference.missing.as_slice())?;
    let superfluous = write_list(scope, SUPERFLUOUS, broken.difference.superfluous.as_slice())?;
    format!(in scope.alloc; "not for {subject}{test}{beyond}{missing}{superfluous}")
}

fn test_of(case: &Case, place: usize) -> Option<&Test>
    ensures value { option_map (λ t. t.now) result ≡ slice_get case.now.tests.items place }
{
    case.tests.get(place)
}

fn write_missing(alloc: Global, names: &Names, case: Option<&Case>, broken: &BrokenTest) -> Written
    ensures written { IfOk result (λ t. string_bytes t
        ≡ missing_at names.now (option_map (λ k. k.now) case.entry) broken.now) }
{
    let Some(case) = case else {
        return String::from_str(alloc, "no such case");
    };
    let own = mote_of(case);
    let test = test_of(case, broken.test);
    write_missing_test(Scope { alloc, names, own }, test, broken)
}

fn write_spare_case(scope: Scope<'_>, case: &Case, line: Option<Found>) -> Written
    ensures written { IfOk result (λ t. string_bytes t
        ≡ spare_case scope.entry.names.now scope.entry.own case.now line) }
{
    let subject = write_subject(scope)?;
    let tests = write_tests(scope, case.tests.as_slice())?;
    let place = write_place(scope, line)?;
    format!(in scope.alloc; "also for {subject}{tests}{place}")
}

fn write_spare(alloc: Global, names: &Names, case: Option<&Case>, line: Option<Found>) -> Written
    ensures written { IfOk result (λ t. string_bytes t
        ≡ spare_at names.now (option_map (λ k. k.now) case.entry) line) }
{
    let Some(case) = case else {
        return String::from_str(alloc, "no such case");
    };
    let own = mote_of(case);
    write_spare_case(Scope { alloc, names, own }, case, line)
}

fn case_of(claim: &Claim, place: usize) -> Option<&Case>
    ensures value { option_map (λ k. k.now) result ≡ slice_get claim.now.cases.items place }
{
    claim.cases.get(place)
}

/// Returns the text of a break of a claim, without a line feed: the case with its mote, the test, a line that shows the
/// break, if there is one, and the missing and the superfluous values.
///
/// # Errors
/// `AllocError` if an allocation fails.
pub fn write_break(
    alloc: Global,
    names: &Names,
    claim: &Claim,
    broken: &Break,
) -> Result<String, AllocError>
    ensures text { IfOk result (λ t. string_bytes t ≡ break_text names.now claim.now broken.now) }
{
    match broken {
        Break::Missing(missing) => {
            write_missing(alloc, names, case_of(claim, missing.case), &missing.broken)
        }
        Break::Spare(spare) => write_spare(alloc, names, case_of(claim, spare.case), spare.line),
        Break::Fewer => String::from_str(alloc, "it wants more cases than it has"),
    }
}
