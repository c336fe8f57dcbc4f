//! Reading the net of a scenario's text.
ghost use Rattle.std.specs.Prelude.{◌≡◌, None};
ghost use Rattle.toml.specs.View.{table_view};
ghost use Rattle.net_scenario.specs.Document.{document_fault};
ghost use Rattle.net_scenario.specs.Net.{radio_in};
ghost use Rattle.net_scenario.specs.Reads.{Parses, MakesRadio, MakesNet, Answers};

use crate::document::check_document;
use crate::error::ScenarioError;
use crate::limits::LONGEST_TEXT;
use crate::motes::motes_of;
use crate::places::{losses_of, places_of};
use crate::programs::read_programs;
use crate::values::{boolean_at, items_at, natural_at, table_at, table_if_any};
use mote_net::Net;
use radio_medium::Medium;
use std::alloc::Global;
use toml::Table;

/// The table of a TOML text.
fn parse_toml(alloc: Global, text: &str) -> Result<Table, ScenarioError>
    ensures parses { Parses text.now result }
{
    match toml::table_from_str(alloc, text) {
        Ok(table) => Ok(table),
        Err(e) if e.is_memory() => Err(ScenarioError::Memory),
        Err(_) => Err(ScenarioError::Toml),
    }
}

/// The medium of a document: the numbers of its table, the places of the motes and the losses.
fn medium_of(alloc: Global, top: &Table) -> Result<Medium, ScenarioError>
    requires no_fault { document_fault (table_view top.now) ≡ None }
    ensures makes_radio { MakesRadio (radio_in (table_view top.now)) result }
{
    let places = places_of(alloc, items_at(top, "mote"))?;
    let losses = losses_of(alloc, items_at(top, "loss"))?;
    let table = table_at(top, "medium");
    let range = natural_at(table, "range");
    let base = natural_at(table, "base");
    let per = natural_at(table, "per");
    let medium = Medium::new(alloc, &places, range, base, per, &losses)?;
    Ok(medium)
}

/// The net of a document without a fault, if its programs can be read and a medium can have its numbers and losses.
fn net_from(alloc: Global, top: &Table) -> Result<Net, ScenarioError>
    requires no_fault { document_fault (table_view top.now) ≡ None }
    ensures makes_net { MakesNet (table_view top.now) result }
{
    let programs = read_programs(alloc, table_at(top, "programs"))?;
    let medium = medium_of(alloc, top)?;
    let queue = table_if_any(top, "queue");
    let motes = motes_of(alloc, &programs, queue, items_at(top, "mote"))?;
    let end = natural_at(top, "end");
    let collide = boolean_at(table_at(top, "medium"), "collide");
    Ok(Net::new(end, collide, medium, programs, motes))
}

/// Reads the net that a scenario's text describes.
///
/// # Errors
/// The first fault of the text. Faults are looked for in this order: the text's length; its TOML; its tables, in
/// order; the programs that `queue` and the motes name; the texts of all programs, in byte order of their names; the
/// numbers and losses of the medium. If an allocation failed, `Memory` may be returned instead of any of these; tests
/// show that it has no other cause.
pub fn read_scenario(alloc: Global, text: &str) -> Result<Net, ScenarioError>
    ensures answers { Answers text.now result }
{
    if text.len() > LONGEST_TEXT {
        return Err(ScenarioError::OutOfRange);
    }
    let top = parse_toml(alloc, text)?;
    check_document(&top)?;
    net_from(alloc, &top)
}
