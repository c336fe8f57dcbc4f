//! The arguments of the command line, as `clap` reads them.
ghost use Rattle.std.specs.Prelude.{◌≡◌, codes, Some, None, option_map, false, map, ◌∷◌, [], IfOk, IfErr};
ghost use Rattle.clap.specs.Words.{app_of, found_of, kind_of, new_rule, rows_of, rule_of};
ghost use Rattle.simulation.specs.Words.{AskedIn, AsksFor, Choices, FaultOf, IsMotesim, choice_rule, cut_of, sync_of};
ghost use Rattle.simulation.specs.Words.{texts_of, workers_rule};

use crate::options::{CutKind, Options};
use clap::{Arg, ArgMatches, Command, Error};
use std::alloc::{AllocError, Global};
use window_workers::{MOST_WORKERS, SyncKind};

/// The file and the options that a command line asks for.
#[derive(Clone, Copy, Debug, PartialEq, Eq)]
pub struct Asked<'a> {
    /// The scenario's file; without one, standard input is read.
    pub file: Option<&'a str>,
    pub options: Options,
}

/// The names of the partitions, the values of `--cut`.
static CUTS: [&str; 2] = ["block", "stripe"];

/// Returns the partition with this name.
fn cut_named(name: &str) -> CutKind
    ensures value { result ≡ cut_of (Some name.now) }
{
    match name {
        "stripe" => CutKind::Stripe,
        _ => CutKind::Block,
    }
}

/// The names of the kinds of synchronisation, the values of `--sync`.
static SYNCS: [&str; 2] = ["joins", "marks"];

/// Returns the kind of synchronisation with this name.
fn sync_named(name: &str) -> SyncKind
    ensures value { result ≡ sync_of (Some name.now) }
{
    match name {
        "marks" => SyncKind::Marks,
        _ => SyncKind::Joins,
    }
}

/// Returns the options with this number of workers, and the partition and the kind of synchronisation with these
/// names. If a name is missing, the option has its default.
fn options_for(workers: Option<u16>, cut: Option<&str>, sync: Option<&str>) -> Options
    ensures workers { result.workers ≡ workers }
    ensures cut { result.cut ≡ cut_of (option_map (λ s. s.now) cut.entry) }
    ensures sync { result.sync ≡ sync_of (option_map (λ s. s.now) sync.entry) }
{
    let usual = Options::default();
    let cut = match cut {
        Some(name) => cut_named(name),
        None => usual.cut,
    };
    let sync = match sync {
        Some(name) => sync_named(name),
        None => usual.sync,
    };
    Options { workers, cut, sync }
}

/// Reads the file and the options from the values of the arguments.
fn asked_of<'a>(matches: &ArgMatches<'a>) -> Asked<'a>
    ensures asked_in { AskedIn (rows_of (found_of matches.now)) result }
{
    let workers = matches.get_one::<u16>("workers");
    let options = options_for(workers, matches.get_str("cut"), matches.get_str("sync"));
    let file = matches.get_str("FILE");
    Asked { file, options }
}

fn workers_arg<'a>(alloc: Global) -> Arg<'a>
    ensures rule { rule_of result ≡ workers_rule }
    ensures not_global { result.global ≡ false }
{
    Arg::new(alloc, "workers")
        .long("workers")
        .value_name("N")
        .value_parser(clap::value_parser!(u16).range(1..=i64::from(MOST_WORKERS)))
        .help(
            "Runs the motes on 1 to 16 workers, each with a thread of its own; without this option, \
             one thread runs all motes",
        )
}

fn cut_arg<'a>(alloc: Global) -> Arg<'a>
    ensures rule { (names : Choices) × (rule_of result ≡ choice_rule (codes "cut") (codes "block") names)
        × (texts_of names.now ≡ codes "block" ∷ codes "stripe" ∷ []) }
    ensures not_global { result.global ≡ false }
{
    Arg::new(alloc, "cut")
        .long("cut")
        .value_name("CUT")
        .value_parser(CUTS.as_slice())
        .default_value("block")
        .help(
            "Divides the motes among the workers: with block each worker gets motes with consecutive numbers, \
             with stripe the motes go to the workers in turn, one at a time",
        )
}

fn sync_arg<'a>(alloc: Global) -> Arg<'a>
    ensures rule { (names : Choices) × (rule_of result ≡ choice_rule (codes "sync") (codes "joins") names)
        × (texts_of names.now ≡ codes "joins" ∷ codes "marks" ∷ []) }
    ensures not_global { result.global ≡ false }
{
    Arg::new(alloc, "sync")
        .long("sync")
        .value_name("SYNC")
        .value_parser(SYNCS.as_slice())
        .default_value("joins")
        .help(
            "Selects how the workers wait for one another: with joins each worker gets a new thread for each window, \
             and all threads are joined at its end; with marks each worker keeps one thread for the whole run, \
             and waits for marks of the others",
        )
}

fn file_arg<'a>(alloc: Global) -> Arg<'a>
    ensures rule { rule_of result ≡ new_rule (codes "FILE") }
    ensures not_global { result.global ≡ false }
{
    Arg::new(alloc, "FILE").help("The scenario; without it, standard input is read")
}

/// Makes the program's only command. It makes each argument after it has added the previous one, so no argument waits
/// in a variable while an addition can fail.
fn command<'a>(alloc: Global) -> Result<Command<'a>, AllocError>
    ensures is_motesim { IfOk result (λ c. IsMotesim (app_of c)) }
{
    Command::new(alloc, "motesim")
        .about(
            "Simulates a network of Contiki motes, and writes the traces of the motes and the log of the radio medium",
        )
        .arg(workers_arg(alloc))?
        .arg(cut_arg(alloc))?
        .arg(sync_arg(alloc))?
        .arg(file_arg(alloc))
}

/// Reads the arguments of a command line; the first is the program's name. Without workers, the partition and the kind
/// of synchronisation have no effect.
///
/// # Errors
/// An error. Its kind is `DisplayHelp` if the arguments ask for help, and `OutOfMemory` if an allocation failed.
/// Otherwise, its kind is the kind of the error in the arguments.
pub fn asked_by<'a>(alloc: Global, words: &'a [&'a str]) -> Result<Asked<'a>, Error>
    ensures asks { IfOk result (AsksFor (texts_of words.entry.now)) }
    ensures refuses { IfErr result (λ e. FaultOf (texts_of words.entry.now) (kind_of e)) }
{
    let matches = command(alloc)?.try_get_matches_from(words)?;
    Ok(asked_of(&matches))
}
