//! The arguments of the command line, as `clap` reads them.
ghost use Rattle.std.specs.Prelude.{◌≡◌, [], false, option_map, string_bytes, unwrap_or, IfOk, IfErr};
ghost use Rattle.std.specs.List.{flat_map};
ghost use Rattle.clap.specs.Words.{app_of, first_of, found_of, kind_of, one_of, rows_of, rule_of};
ghost use Rattle.simulation.specs.Words.{texts_of, workers_rule};
ghost use Rattle.claim_check.specs.Words.{AskedIn, AsksFor, AsksOptions, FaultOf, OptionsIn, ReadsFlag, ReadsList};
ghost use Rattle.claim_check.specs.Words.{fault_rule, file_rule, flag_rule, kinds_app, line_of, motecheck_app};
ghost use Rattle.claim_check.specs.Words.{number_rule, options_app, run_app, value_rule};

use crate::numbers::list_of;
use clap::builder::ValueParser;
use clap::{Arg, ArgAction, ArgMatches, Command, Error};
use std::alloc::{AllocError, Global};
use window_workers::MOST_WORKERS;

/// What is asked for, but the files.
#[derive(Drop)]
pub struct Options {
    /// The texts of faults of the run, one a line.
    pub faults: String,
    /// Whether the report is asked for.
    pub report: bool,
    /// The number of workers; without a number, one thread runs all motes, or makes all runs of a survey.
    pub workers: Option<u16>,
    /// Whether a survey is asked for, with broken links.
    pub links: bool,
    /// Whether a survey is asked for, with silent motes.
    pub silent: bool,
    /// Whether a survey is asked for, with lost copies.
    pub lost: bool,
    /// By how many moments copies are late in a survey. This list and the others are empty if they can't be read.
    pub late: Option<Vec<u32>>,
    /// From which moments on motes are off in a survey.
    pub off: Option<Vec<u32>>,
    /// At which moments motes restart in a survey.
    pub restarts: Option<Vec<u32>>,
    /// At which moments motes start late in a survey.
    pub starts: Option<Vec<u32>>,
    /// The most faults in a set of a survey; without a number, 1.
    pub at_most: Option<u8>,
    /// The most runs of a survey; without a number, there is no limit.
    pub runs: Option<u64>,
}

/// What a command line asks for.
#[derive(Drop)]
pub struct Asked<'a> {
    /// The options.
    pub options: Options,
    /// The scenario's file.
    pub scenario: &'a str,
    /// The file of the claims.
    pub claims: Option<&'a str>,
    /// A file of faults.
    pub faults: Option<&'a str>,
}

/// Returns the texts of values, each with a line feed behind it.
fn lines_of(alloc: Global, values: &[&str]) -> Result<String, AllocError>
    ensures value { IfOk result (λ text. string_bytes text ≡ flat_map line_of (texts_of values.now)) }
{
    let mut text = String::new(alloc);
    for value in values {
        text.push_str(value)?;
        text.push_str("\n")?;
    }
    Ok(text)
}

/// Returns the texts of an option's values, if it has any, each with a line feed behind it.
fn lines_of_all(alloc: Global, values: Option<&[&str]>) -> Result<String, AllocError>
    ensures value { IfOk result
        (λ text. string_bytes text ≡ flat_map line_of (unwrap_or (option_map (λ all. texts_of all.now) values.entry) [])) }
{
    match values {
        Some(values) => lines_of(alloc, values),
        None => Ok(String::new(alloc)),
    }
}

/// Returns the text of a value. `clap` has found one for each argument that is required.
fn text_of<'a>(found: Option<&'a str>) -> &'a str
    ensures value { result.now ≡ unwrap_or (option_map (λ s. s.now) found.entry) [] }
{
    match found {
        Some(text) => text,
        None => "",
    }
}

/// Returns `true` if a flag was given.
fn flag_of(matches: &ArgMatches<'_>, name: &str) -> bool
    ensures reads { ReadsFlag (one_of name.now (rows_of (found_of matches.now))) result }
{
    matches.get_flag(name)
}

/// Returns the numbers in the value of an option, if it has one.
fn list_in(
    alloc: Global,
    matches: &ArgMatches<'_>,
    name: &str,
) -> Result<Option<Vec<u32>>, AllocError>
    ensures reads { IfOk result (ReadsList (first_of name.now (rows_of (found_of matches.now)))) }
{
    list_of(alloc, matches.get_str(name))
}

/// Reads the options from the values of the arguments.
///
/// # Errors
/// If an allocation failed.
fn options_of(alloc: Global, matches: &ArgMatches<'_>) -> Result<Options, AllocError>
    ensures options_in { IfOk result (OptionsIn (rows_of (found_of matches.now))) }
{
    let faults = lines_of_all(alloc, matches.get_strs("fault"))?;
    let late = list_in(alloc, matches, "late")?;
    let off = list_in(alloc, matches, "off")?;
    let restarts = list_in(alloc, matches, "restarts")?;
    let starts = list_in(alloc, matches, "starts")?;
    let workers = matches.get_one::<u16>("workers");
    Ok(Options {
        faults,
        report: flag_of(matches, "report"),
        workers,
        links: flag_of(matches, "links"),
        silent: flag_of(matches, "silent"),
        lost: flag_of(matches, "lost"),
        late,
        off,
        restarts,
        starts,
        at_most: matches.get_one::<u8>("at-most"),
        runs: matches.get_one::<u64>("runs"),
    })
}

/// Reads what is asked for from the values of the arguments.
///
/// # Errors
/// If an allocation failed.
fn asked_of<'a>(alloc: Global, matches: &ArgMatches<'a>) -> Result<Asked<'a>, AllocError>
    ensures asked_in { IfOk result (AskedIn (rows_of (found_of matches.now))) }
{
    let options = options_of(alloc, matches)?;
    Ok(Asked {
        options,
        scenario: text_of(matches.get_str("SCENARIO")),
        claims: matches.get_str("CLAIMS"),
        faults: matches.get_str("faults"),
    })
}

/// Returns an option without a value.
fn flag<'a>(alloc: Global, name: &'a str, help: &'a str) -> Arg<'a>
    ensures rule { rule_of result ≡ flag_rule name.entry.now }
    ensures not_global { result.global ≡ false }
{
    Arg::new(alloc, name)
        .long(name)
        .action(ArgAction::SetTrue)
        .help(help)
}

/// Returns an option with a value, which help calls `value`.
fn value<'a>(alloc: Global, name: &'a str, value: &'a str, help: &'a str) -> Arg<'a>
    ensures rule { rule_of result ≡ value_rule name.entry.now }
    ensures not_global { result.global ≡ false }
{
    Arg::new(alloc, name)
        .long(name)
        .value_name(value)
        .help(help)
}

/// Returns an option with a number.
fn number<'a>(
    alloc: Global,
    name: &'a str,
    letter: &'a str,
    parser: ValueParser<'a>,
    help: &'a str,
) -> Arg<'a>
    ensures rule { rule_of result ≡ number_rule name.entry.now parser.entry }
    ensures not_global { result.global ≡ false }
{
    value(alloc, name, letter, help).value_parser(parser)
}

/// Returns an argument that names a file.
fn file<'a>(alloc: Global, name: &'a str, is_required: bool, help: &'a str) -> Arg<'a>
    ensures rule { rule_of result ≡ file_rule name.entry.now is_required }
    ensures not_global { result.global ≡ false }
{
    Arg::new(alloc, name).required(is_required).help(help)
}

fn fault_arg<'a>(alloc: Global) -> Arg<'a>
    ensures rule { rule_of result ≡ fault_rule }
    ensures not_global { result.global ≡ false }
{
    value(
        alloc,
        "fault",
        "TEXT",
        "A fault of the run, such as 'link 1 to 2 is broken'; may be given several times",
    )
    .action(ArgAction::Append)
}

fn workers_arg<'a>(alloc: Global) -> Arg<'a>
    ensures rule { rule_of result ≡ workers_rule }
    ensures not_global { result.global ≡ false }
{
    number(
        alloc,
        "workers",
        "N",
        clap::value_parser!(u16).range(1..=i64::from(MOST_WORKERS)),
        "Makes a run without faults, or the runs of a survey, on 1 to 16 workers, each with a thread of its own; \
         without this option, one thread does it all",
    )
}

/// Makes a command with the options of one run. It makes each argument after it has added the previous one, so no
/// argument waits in a variable while an addition can fail.
fn run_options<'a>(alloc: Global) -> Result<Command<'a>, AllocError>
    ensures has_options { IfOk result (λ c. app_of c ≡ run_app) }
{
    Command::new(alloc, "motecheck")
        .version("2.1")
        .about(
            "Runs a scenario, and says for each claim about its report whether it holds: one line for each claim, \
             which begins with `holds` or `broken`, and one for each fault that names no copy of the run, which begins \
             with `unused`. With --links, --silent, --lost, --late, --off, --restarts or --starts it surveys sets of \
             faults, of one or several kinds, lists those that break a claim, and says which sets are covered. The \
             status is 0 if all claims hold, with all of these sets, 1 if one is broken or sets were left out, and 2 if \
             there is no result",
        )
        .arg(fault_arg(alloc))?
        .arg(flag(
            alloc,
            "report",
            "Writes the report of the run, as motesim does; it takes no CLAIMS",
        ))?
        .arg(workers_arg(alloc))
}

/// Adds the kinds of faults that a survey may try.
fn kinds_options<'a>(alloc: Global) -> Result<Command<'a>, AllocError>
    ensures has_options { IfOk result (λ c. app_of c ≡ kinds_app) }
{
    run_options(alloc)?
        .arg(flag(
            alloc,
            "links",
            "Surveys broken links: decides the claims for each set of faults, and lists the minimal sets that break one",
        ))?
        .arg(flag(
            alloc,
            "silent",
            "Surveys silent motes, which hear others and are not heard",
        ))?
        .arg(flag(
            alloc,
            "lost",
            "Surveys lost copies: of each packet, the copy on the way to each mote that hears it",
        ))?
        .arg(value(
            alloc,
            "late",
            "N,..",
            "Surveys copies that are N moments late. The numbers of a list rise, and have commas between them",
        ))?
        .arg(value(
            alloc,
            "off",
            "N,..",
            "Surveys motes that are off from moment N on",
        ))?
        .arg(value(
            alloc,
            "restarts",
            "N,..",
            "Surveys motes that boot again at moment N",
        ))?
        .arg(value(
            alloc,
            "starts",
            "N,..",
            "Surveys motes that are off until moment N",
        ))
}

/// Makes a command with all options, but the files.
fn options_command<'a>(alloc: Global) -> Result<Command<'a>, AllocError>
    ensures has_options { IfOk result (λ c. app_of c ≡ options_app) }
{
    kinds_options(alloc)?
        .arg(number(
            alloc,
            "at-most",
            "K",
            clap::value_parser!(u8),
            "The most faults in a set of a survey; without this option, 1",
        ))?
        .arg(number(
            alloc,
            "runs",
            "N",
            clap::value_parser!(u64),
            "The most runs of a survey; without this option, there is no limit",
        ))
}

/// Makes the program's only command.
fn command<'a>(alloc: Global) -> Result<Command<'a>, AllocError>
    ensures is_motecheck { IfOk result (λ c. app_of c ≡ motecheck_app) }
{
    options_command(alloc)?
        .arg(value(
            alloc,
            "faults",
            "FILE",
            "More faults of the run, one in each line of a file",
        ))?
        .arg(file(alloc, "SCENARIO", true, "The scenario"))?
        .arg(file(alloc, "CLAIMS", false, "The claims, one in each line"))
}

/// Reads the arguments of a command line; the first is the program's name.
///
/// # Errors
/// An error. Its kind is `DisplayHelp` or `DisplayVersion` if the arguments ask for that, and `OutOfMemory` if an
/// allocation failed. Otherwise, its kind is the kind of the error in the arguments.
pub fn asked_by<'a>(alloc: Global, words: &'a [&'a str]) -> Result<Asked<'a>, Error>
    ensures asks { IfOk result (AsksFor (texts_of words.entry.now)) }
    ensures refuses { IfErr result (λ e. FaultOf motecheck_app (texts_of words.entry.now) (kind_of e)) }
{
    let matches = command(alloc)?.try_get_matches_from(words)?;
    Ok(asked_of(alloc, &matches)?)
}

/// Reads the options of a command line that names no files; the first argument is the program's name.
///
/// # Errors
/// Those of `asked_by`.
pub fn options_by<'a>(alloc: Global, words: &'a [&'a str]) -> Result<Options, Error>
    ensures asks { IfOk result (AsksOptions (texts_of words.entry.now)) }
    ensures refuses { IfErr result (λ e. FaultOf options_app (texts_of words.entry.now) (kind_of e)) }
{
    let matches = options_command(alloc)?.try_get_matches_from(words)?;
    Ok(options_of(alloc, &matches)?)
}
