//! The places of the motes, and the losses between them.
ghost use Rattle.std.specs.Prelude.{◌≡◌, map, None, IfOk};
ghost use Rattle.toml.specs.View.{items_view, table_view};
ghost use Rattle.net_scenario.specs.Rules.{keys_fault, loss_rules, mote_rules};
ghost use Rattle.net_scenario.specs.Document.{first_some, tables_in};
ghost use Rattle.net_scenario.specs.Net.{place_in, loss_of};

use crate::values::{integer_at, natural_at};
use radio_medium::{Loss, Place};
use std::alloc::{AllocError, Global};
use toml::{Table, Value};

/// The place of a mote, from its table.
fn place_in(table: &Table) -> Place
    requires no_fault { keys_fault mote_rules (table_view table.now) ≡ None }
    ensures value { result ≡ place_in (table_view table.now) }
{
    Place {
        x: integer_at(table, "x"),
        y: integer_at(table, "y"),
    }
}

/// The places of the motes among the items, in order.
///
/// # Errors
/// If an allocation failed.
pub fn places_of(alloc: Global, items: &[Value]) -> Result<Vec<Place>, AllocError>
    requires no_fault { first_some (keys_fault mote_rules) (tables_in (items_view items.now)) ≡ None }
    ensures places { IfOk result (λ v. v.items ≡ map place_in (tables_in (items_view items.now))) }
{
    let mut places = Vec::new(alloc);
    for item in items {
        if let Some(table) = item.as_table() {
            places.push(place_in(table))?;
        }
    }
    Ok(places)
}

/// A loss, from its table.
fn loss_of(table: &Table) -> Loss
    requires no_fault { keys_fault loss_rules (table_view table.now) ≡ None }
    ensures value { result ≡ loss_of (table_view table.now) }
{
    Loss {
        sender: natural_at(table, "from"),
        to: natural_at(table, "to"),
        every: natural_at(table, "every"),
    }
}

/// The losses among the items, in order.
///
/// # Errors
/// If an allocation failed.
pub fn losses_of(alloc: Global, items: &[Value]) -> Result<Vec<Loss>, AllocError>
    requires no_fault { first_some (keys_fault loss_rules) (tables_in (items_view items.now)) ≡ None }
    ensures losses { IfOk result (λ v. v.items ≡ map loss_of (tables_in (items_view items.now))) }
{
    let mut losses = Vec::new(alloc);
    for item in items {
        if let Some(table) = item.as_table() {
            losses.push(loss_of(table))?;
        }
    }
    Ok(losses)
}
