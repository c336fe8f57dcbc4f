//! Options and files that don't go together.
ghost use Rattle.std.specs.Prelude.{◌≡◌, ◌||◌, is_some};
ghost use Rattle.claim_check.specs.Asked.{are_files_in_conflict, are_in_conflict, is_in_conflict, is_mixed};
ghost use Rattle.claim_check.specs.Asked.{is_mixed_with_file, lacks_claims, lacks_lists, lacks_survey};

use crate::command_line::{Asked, Options};
use crate::numbers::lacks_list;
use crate::plan::is_survey;

/// Returns `true` if a survey has options of one run.
fn is_mixed(options: &Options) -> bool
    ensures value { result ≡ is_mixed options.now }
{
    is_survey(options) && (options.report || !options.faults.is_empty())
}

/// Returns `true` if options of a survey are given, but no survey is asked for.
fn lacks_survey(options: &Options) -> bool
    ensures value { result ≡ lacks_survey options.now }
{
    !is_survey(options) && (options.at_most.is_some() || options.runs.is_some())
}

/// Returns this reason if it is one, and otherwise the other one, if there is one.
fn first_of(
    is_reason: bool,
    reason: &'static str,
    other: Option<&'static str>,
) -> Option<&'static str>
    ensures value { is_some result ≡ (is_reason || is_some other.entry) }
{
    if is_reason { Some(reason) } else { other }
}

/// Returns the reason why an option has no list of numbers, if it has none.
fn conflict_of_lists(options: &Options) -> Option<&'static str>
    ensures value { is_some result ≡ lacks_lists options.now }
{
    let starts = first_of(
        lacks_list(1, &options.starts),
        "'--starts <N,..>' takes numbers from 1 on that rise, with commas between them",
        None,
    );
    let restarts = first_of(
        lacks_list(1, &options.restarts),
        "'--restarts <N,..>' takes numbers from 1 on that rise, with commas between them",
        starts,
    );
    let off = first_of(
        lacks_list(0, &options.off),
        "'--off <N,..>' takes numbers that rise, with commas between them",
        restarts,
    );
    first_of(
        lacks_list(1, &options.late),
        "'--late <N,..>' takes numbers from 1 on that rise, with commas between them",
        off,
    )
}

/// Returns the reason why the options don't go together, if they don't.
pub fn conflict_in(options: &Options) -> Option<&'static str>
    ensures value { is_some result ≡ is_in_conflict options.now }
{
    let limits = first_of(
        lacks_survey(options),
        "'--at-most <K>' and '--runs <N>' need a survey, such as '--links' or '--lost'",
        conflict_of_lists(options),
    );
    first_of(
        is_mixed(options),
        "a survey has neither '--report' nor '--fault <TEXT>'",
        limits,
    )
}

/// Returns `true` if claims are needed and not given, or given and not needed.
fn lacks_claims(asked: &Asked<'_>) -> bool
    ensures value { result ≡ lacks_claims asked.now }
{
    if asked.options.report {
        asked.claims.is_some()
    } else {
        asked.claims.is_none()
    }
}

/// Returns `true` if a survey has a file of faults.
fn is_mixed_with_file(asked: &Asked<'_>) -> bool
    ensures value { result ≡ is_mixed_with_file asked.now }
{
    is_survey(&asked.options) && asked.faults.is_some()
}

/// Returns the reason why the files don't go with the options, if they don't.
fn conflict_of_files(asked: &Asked<'_>) -> Option<&'static str>
    ensures value { is_some result ≡ are_files_in_conflict asked.now }
{
    let file = first_of(
        is_mixed_with_file(asked),
        "a survey has no '--faults <FILE>'",
        None,
    );
    first_of(
        lacks_claims(asked),
        "motecheck takes <SCENARIO> and <CLAIMS>, or '--report' and <SCENARIO>",
        file,
    )
}

/// Returns the reason why the arguments don't go together, if they don't.
pub fn conflict_of(asked: &Asked<'_>) -> Option<&'static str>
    ensures value { is_some result ≡ are_in_conflict asked.now }
{
    match conflict_in(&asked.options) {
        Some(why) => Some(why),
        None => conflict_of_files(asked),
    }
}
