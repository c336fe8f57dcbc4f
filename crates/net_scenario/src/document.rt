//! The check of a whole document, table by table.
ghost use Rattle.std.specs.Prelude.{◌≡◌, map};
ghost use Rattle.toml.specs.View.{items_view, table_view};
ghost use Rattle.net_scenario.specs.Rules.{keys_fault, known_in};
ghost use Rattle.net_scenario.specs.Checks.{rule_of, AnswersFault};
ghost use Rattle.net_scenario.specs.Document.{version_of, tables_in, first_some, program_fault, document_fault};

use crate::error::TableFault;
use crate::names::check_names;
use crate::queues::{check_lengths, check_queue_names};
use crate::rules::{Key, check_keys, loss_keys, medium_keys, mote_keys, top_keys, value_at};
use crate::values::{items_at, table_at, table_if_any, text_at};
use crate::version::Version;
use toml::{Table, Value};

/// The version of a document: the second if its number is 2.
pub fn version_of(top: &Table) -> Version
    ensures value { result ≡ version_of (table_view top.now) }
{
    match value_at(top, "version") {
        Some(Value::Integer(2)) => Version::Second,
        _ => Version::First,
    }
}

/// Checks each table among the items, and reports the first fault.
#[tactic(auto, using(crate::proofs::Each::after_item))]
fn check_each(version: Version, items: &[Value], keys: &[Key]) -> Result<(), TableFault>
    ensures checks { AnswersFault result (first_some (keys_fault (known_in version (map rule_of keys.now)))
        (tables_in (items_view items.now))) }
{
    for item in items {
        if let Some(table) = item.as_table() {
            check_keys(version, table, keys)?;
        }
    }
    Ok(())
}

/// Checks that a mote's program is among the programs.
fn check_program(programs: &Table, mote: &Table) -> Result<(), TableFault>
    ensures checks { AnswersFault result (program_fault (table_view programs.now) (table_view mote.now)) }
{
    match value_at(programs, text_at(mote, "program")) {
        Some(_) => Ok(()),
        None => Err(TableFault::UnknownProgram),
    }
}

/// Checks each mote, and reports the first mote whose program isn't among the programs.
#[tactic(auto, using(crate::proofs::Each::after_item))]
fn check_programs(programs: &Table, motes: &[Value]) -> Result<(), TableFault>
    ensures checks { AnswersFault result
        (first_some (program_fault (table_view programs.now)) (tables_in (items_view motes.now))) }
{
    for item in motes {
        if let Some(mote) = item.as_table() {
            check_program(programs, mote)?;
        }
    }
    Ok(())
}

/// Checks a document: first its tables, one after another, and then the names of programs in `queue` and the motes.
///
/// # Errors
/// The first fault of the tables.
#[tactic(auto, using(crate::proofs::Each::document_fault_of))]
pub fn check_document(top: &Table) -> Result<(), TableFault>
    ensures checks { AnswersFault result (document_fault (table_view top.now)) }
{
    let version = version_of(top);
    check_keys(version, top, &top_keys())?;
    check_keys(version, table_at(top, "medium"), &medium_keys())?;
    check_each(version, items_at(top, "loss"), &loss_keys())?;
    let programs = table_at(top, "programs");
    check_names(programs)?;
    let queue = table_if_any(top, "queue");
    check_lengths(queue)?;
    let motes = items_at(top, "mote");
    check_each(version, motes, &mote_keys())?;
    check_queue_names(programs, queue)?;
    check_programs(programs, motes)?;
    Ok(())
}
