//! The lengths of the motes' event queues, by the names of their programs.
ghost use Rattle.std.specs.Prelude.{◌≡◌, ◌≤◌, not, None, is_none, string_bytes};
ghost use Rattle.std.specs.List.{list_any};
ghost use Rattle.std.specs.Map.{keys_of, values_of};
ghost use Rattle.toml.specs.Data.{get_member};
ghost use Rattle.toml.specs.View.{view, table_view};
ghost use Rattle.net_scenario.specs.Document.{members_of, queue_fault};
ghost use Rattle.mote_net.specs.Limits.{shortest_queue, longest_queue};
ghost use Rattle.net_scenario.specs.Names.{queue_length, lengths_fault};
ghost use Rattle.net_scenario.specs.Net.{queue_of};
ghost use Rattle.net_scenario.specs.Checks.{AnswersFault};
ghost use Rattle.net_scenario.specs.Rules.{has_kind, is_in_range};

use crate::error::TableFault;
use crate::limits::{LONGEST_QUEUE, SHORTEST_QUEUE, USUAL_QUEUE};
use crate::rules::{KeyKind, fits_kind, fits_range, value_at};
use crate::values::natural_at;
use toml::Table;

/// The kind of value that is the length of a queue, with its limits.
fn queue_length() -> KeyKind
    ensures value { result ≡ queue_length }
{
    KeyKind::Number(SHORTEST_QUEUE, LONGEST_QUEUE)
}

fn any_other_kind(table: &Table) -> bool
    ensures value { result ≡ list_any (λ v. not (has_kind queue_length (view v))) (values_of table.now.entries) }
{
    table
        .values()
        .any(|value| !fits_kind(value, queue_length()))
}

fn any_out_of_range(table: &Table) -> bool
    ensures value { result ≡ list_any (λ v. not (is_in_range queue_length (view v))) (values_of table.now.entries) }
{
    table
        .values()
        .any(|value| !fits_range(value, queue_length()))
}

/// Checks the table of lengths, if there is one.
///
/// # Errors
/// The first fault of the lengths.
#[tactic(auto, using(crate::proofs::Tables::lengths_fault_of, crate::proofs::Tables::lengths_fault_of_none))]
pub fn check_lengths(queue: Option<&Table>) -> Result<(), TableFault>
    ensures checks { AnswersFault result (lengths_fault (members_of queue.entry)) }
{
    if let Some(table) = queue {
        if any_other_kind(table) {
            return Err(TableFault::WrongKind);
        }
        if any_out_of_range(table) {
            return Err(TableFault::OutOfRange);
        }
    }
    Ok(())
}

fn any_without_program(programs: &Table, table: &Table) -> bool
    ensures value { result ≡ list_any (λ k. is_none (get_member (string_bytes k) (table_view programs.now)))
        (keys_of table.now.entries) }
{
    table
        .keys()
        .any(|name| value_at(programs, name.as_str()).is_none())
}

/// Checks that each length is for one of the programs.
///
/// # Errors
/// The fault of a queue for a program that the scenario doesn't have.
#[tactic(auto, using(crate::proofs::Tables::queue_fault_of))]
pub fn check_queue_names(programs: &Table, queue: Option<&Table>) -> Result<(), TableFault>
    ensures checks { AnswersFault result (queue_fault (table_view programs.now) (members_of queue.entry)) }
{
    if let Some(table) = queue
        && any_without_program(programs, table)
    {
        return Err(TableFault::UnknownProgram);
    }
    Ok(())
}

/// The length at the name of a program.
fn length_at(table: &Table, program: &str) -> u16
    requires no_fault { lengths_fault (table_view table.now) ≡ None }
    ensures value { result ≡ queue_of (table_view table.now) program.now }
    ensures shortest { shortest_queue ≤ result }
    ensures longest { result ≤ longest_queue }
{
    match value_at(table, program) {
        Some(_) => natural_at(table, program) as u16,
        None => USUAL_QUEUE,
    }
}

/// The number of events for which the queue has room in motes with this program.
pub fn queue_of(queue: Option<&Table>, program: &str) -> u16
    requires no_fault { lengths_fault (members_of queue) ≡ None }
    ensures value { result ≡ queue_of (members_of queue.entry) program.now }
    ensures shortest { shortest_queue ≤ result }
    ensures longest { result ≤ longest_queue }
{
    match queue {
        Some(table) => length_at(table, program),
        None => USUAL_QUEUE,
    }
}
