//! The motes of a document without a fault.
ghost use Rattle.std.specs.Prelude.{◌≡◌, length, map, None, IfOk, IsTrue};
ghost use Rattle.std.specs.List.{list_all, position_from};
ghost use Rattle.std.specs.Str.{bytes_eq};
ghost use Rattle.toml.specs.View.{items_view, table_view};
ghost use Rattle.net_scenario.specs.Document.{first_some, members_of, tables_in};
ghost use Rattle.net_scenario.specs.Names.{lengths_fault};
ghost use Rattle.mote_net.specs.Meaning.{named_tree};
ghost use Rattle.net_scenario.specs.Reads.{AreSortedByName};
ghost use Rattle.mote_net.specs.Motes.{is_mote_of};
ghost use Rattle.mote_net.specs.Meaning.{setup_of};
ghost use Rattle.net_scenario.specs.Net.{mote_of_table, unread_fault};

use crate::queues::queue_of;
use crate::values::text_at;
use mote_net::{MoteSetup, NamedProgram};
use std::alloc::{AllocError, Global};
use toml::{Table, Value};

/// The index of the program with this name, among programs in byte order of their names.
fn index_of(programs: &[NamedProgram], name: &str) -> Option<usize>
    requires are_in_order { AreSortedByName programs.now }
    ensures position { result ≡ position_from (λ p. bytes_eq p.name name.now) 0 programs.now }
{
    match programs.binary_search_by(|program| program.name.as_str().cmp(name)) {
        Ok(index) => Some(index),
        Err(_) => None,
    }
}

/// The mote that a table describes. Its program is among the programs that were read.
fn mote_of_table(programs: &[NamedProgram], queue: Option<&Table>, table: &Table) -> MoteSetup
    requires in_order { AreSortedByName programs.now }
    requires queue { lengths_fault (members_of queue) ≡ None }
    requires read { unread_fault (map named_tree programs.now) (table_view table.now) ≡ None }
    ensures value { setup_of programs.now result
        ≡ mote_of_table (members_of queue.entry) (map named_tree programs.now) (table_view table.now) }
    ensures fits { IsTrue (is_mote_of (length programs.now) result) }
{
    let name = text_at(table, "program");
    MoteSetup {
        program: index_of(programs, name).unwrap(),
        queue: queue_of(queue, name),
    }
}

/// The motes that the tables among the items describe, in order.
///
/// # Errors
/// If an allocation failed.
pub fn motes_of(
    alloc: Global,
    programs: &[NamedProgram],
    queue: Option<&Table>,
    items: &[Value],
) -> Result<Vec<MoteSetup>, AllocError>
    requires in_order { AreSortedByName programs.now }
    requires queue { lengths_fault (members_of queue) ≡ None }
    requires read { first_some (unread_fault (map named_tree programs.now)) (tables_in (items_view items.now)) ≡ None }
    ensures value { IfOk result (λ v. map (setup_of programs.now) v.items
        ≡ map (mote_of_table (members_of queue.entry) (map named_tree programs.now))
        (tables_in (items_view items.now))) }
    ensures fits { IfOk result (λ v. IsTrue (list_all (is_mote_of (length programs.now)) v.items)) }
{
    let mut motes = Vec::new(alloc);
    for item in items {
        if let Some(table) = item.as_table() {
            motes.push(mote_of_table(programs, queue, table))?;
        }
    }
    Ok(motes)
}
