//! The keys of each table, and the check of a table by its keys.
ghost use Rattle.std.specs.Prelude.{◌≡◌, ◌&&◌, not, true, false, map, option_map, is_some, string_bytes};
ghost use Rattle.std.specs.List.{list_any, list_all};
ghost use Rattle.std.specs.Map.{keys_of};
ghost use Rattle.std.specs.Str.{bytes_eq};
ghost use Rattle.toml.specs.Data.{get_member, as_table};
ghost use Rattle.toml.specs.View.{view, table_view};
ghost use Rattle.net_scenario.specs.Checks.{rule_of};
ghost use Rattle.net_scenario.specs.Rules.{has_come, known_in, has_kind, is_in_range, misses};
ghost use Rattle.net_scenario.specs.Rules.{holds_other_kind, holds_out_of_range, keys_fault, top_rules};
ghost use Rattle.net_scenario.specs.Checks.{AnswersFault};
ghost use Rattle.net_scenario.specs.Rules.{medium_rules, loss_rules, mote_rules};

use crate::error::TableFault;
use crate::limits::{
    FARTHEST, LARGEST_BASE_OR_PER, LARGEST_IN_LOSS, LATEST_END, MOST_LOSSES, MOST_MOTES,
    WIDEST_RANGE,
};
use crate::version::Version::{self, First, Second};
use toml::{Table, Value};

/// The kind of values that a key may have.
#[derive(Clone, Copy)]
pub enum KeyKind {
    /// A whole number from the first number to the second.
    Number(i64, i64),
    Boolean,
    Text,
    Table,
    /// An array of tables. The number of tables is from the first number to the second.
    Tables(usize, usize),
}

/// One key of a table, and the version that introduced it.
#[derive(Clone, Copy)]
pub struct Key {
    pub since: Version,
    pub name: &'static str,
    pub kind: KeyKind,
    pub is_needed: bool,
}

const fn needed(since: Version, name: &'static str, kind: KeyKind) -> Key
    ensures rule { rule_of result ≡ record { since = since; name = name.now; kind = kind; is_needed = true } }
{
    Key {
        since,
        name,
        kind,
        is_needed: true,
    }
}

const fn optional(since: Version, name: &'static str, kind: KeyKind) -> Key
    ensures rule { rule_of result ≡ record { since = since; name = name.now; kind = kind; is_needed = false } }
{
    Key {
        since,
        name,
        kind,
        is_needed: false,
    }
}

/// The keys of a document. The counts of motes and losses are checked here, before the tables themselves.
pub fn top_keys() -> [Key; 7]
    ensures rules { map rule_of result ≡ top_rules }
{
    [
        needed(First, "version", KeyKind::Number(1, 2)),
        needed(First, "end", KeyKind::Number(0, LATEST_END)),
        needed(First, "medium", KeyKind::Table),
        needed(First, "programs", KeyKind::Table),
        needed(First, "mote", KeyKind::Tables(1, MOST_MOTES)),
        optional(First, "loss", KeyKind::Tables(0, MOST_LOSSES)),
        optional(Second, "queue", KeyKind::Table),
    ]
}

/// The keys of `medium`.
pub fn medium_keys() -> [Key; 4]
    ensures rules { map rule_of result ≡ medium_rules }
{
    [
        needed(First, "range", KeyKind::Number(0, WIDEST_RANGE)),
        needed(First, "base", KeyKind::Number(0, LARGEST_BASE_OR_PER)),
        needed(First, "per", KeyKind::Number(0, LARGEST_BASE_OR_PER)),
        needed(Second, "collide", KeyKind::Boolean),
    ]
}

/// The keys of each `loss`.
pub fn loss_keys() -> [Key; 3]
    ensures rules { map rule_of result ≡ loss_rules }
{
    [
        needed(First, "from", KeyKind::Number(0, LARGEST_IN_LOSS)),
        needed(First, "to", KeyKind::Number(0, LARGEST_IN_LOSS)),
        needed(First, "every", KeyKind::Number(0, LARGEST_IN_LOSS)),
    ]
}

/// The keys of each `mote`.
pub fn mote_keys() -> [Key; 3]
    ensures rules { map rule_of result ≡ mote_rules }
{
    [
        needed(First, "x", KeyKind::Number(-FARTHEST, FARTHEST)),
        needed(First, "y", KeyKind::Number(-FARTHEST, FARTHEST)),
        needed(First, "program", KeyKind::Text),
    ]
}

/// The value at a key.
pub fn value_at<'a>(table: &'a Table, name: &str) -> Option<&'a Value>
    ensures value { option_map (λ v. view v.now) result ≡ get_member name.now (table_view table.now) }
{
    table.get(name)
}

fn are_tables(items: &[Value]) -> bool
    ensures value { result ≡ list_all (λ v. is_some (as_table (view v))) items.now }
{
    items.iter().all(|item| item.is_table())
}

/// Returns `true` if a value is of this kind, whether or not it is within its range.
#[tactic(auto, using(crate::proofs::Tables::are_tables_view))]
pub fn fits_kind(value: &Value, kind: KeyKind) -> bool
    ensures value { result ≡ has_kind kind (view value.now) }
{
    match kind {
        KeyKind::Number(_, _) => value.is_integer(),
        KeyKind::Boolean => value.is_bool(),
        KeyKind::Text => value.is_str(),
        KeyKind::Table => value.is_table(),
        KeyKind::Tables(_, _) => match value.as_array() {
            Some(items) => are_tables(items),
            None => false,
        },
    }
}

/// Returns `true` if a value of this kind is within its range.
#[tactic(auto, using(crate::proofs::Tables::items_len_view))]
pub fn fits_range(value: &Value, kind: KeyKind) -> bool
    ensures value { result ≡ is_in_range kind (view value.now) }
{
    match kind {
        KeyKind::Number(low, high) => match value.as_integer() {
            Some(number) => low <= number && number <= high,
            None => true,
        },
        KeyKind::Tables(low, high) => match value.as_array() {
            Some(items) => low <= items.len() && items.len() <= high,
            None => true,
        },
        KeyKind::Boolean | KeyKind::Text | KeyKind::Table => true,
    }
}

fn is_missing(table: &Table, key: Key) -> bool
    ensures value { result ≡ misses (table_view table.now) (rule_of key) }
{
    key.is_needed && value_at(table, key.name).is_none()
}

fn is_key(version: Version, keys: &[Key], name: &str) -> bool
    ensures value { result ≡ list_any (λ k. has_come k.since version && bytes_eq k.name.now name.now) keys.now }
{
    keys.iter()
        .any(|key| version.has(key.since) && key.name == name)
}

fn is_other_kind(table: &Table, key: Key) -> bool
    ensures value { result ≡ holds_other_kind (table_view table.now) (rule_of key) }
{
    match value_at(table, key.name) {
        Some(value) => !fits_kind(value, key.kind),
        None => false,
    }
}

fn is_out_of_range(table: &Table, key: Key) -> bool
    ensures value { result ≡ holds_out_of_range (table_view table.now) (rule_of key) }
{
    match value_at(table, key.name) {
        Some(value) => !fits_range(value, key.kind),
        None => false,
    }
}

fn has_unknown(version: Version, table: &Table, keys: &[Key]) -> bool
    ensures value { result ≡ list_any (λ n. not
        (list_any (λ k. has_come k.since version && bytes_eq k.name.now (string_bytes n)) keys.now))
        (keys_of table.now.entries) }
{
    table
        .keys()
        .any(|name| !is_key(version, keys, name.as_str()))
}

fn any_missing(version: Version, table: &Table, keys: &[Key]) -> bool
    ensures value { result ≡ list_any
        (λ k. has_come k.since version && misses (table_view table.now) (rule_of k)) keys.now }
{
    keys.iter()
        .any(|key| version.has(key.since) && is_missing(table, *key))
}

fn any_other_kind(version: Version, table: &Table, keys: &[Key]) -> bool
    ensures value { result ≡ list_any (λ k. has_come k.since version
        && holds_other_kind (table_view table.now) (rule_of k)) keys.now }
{
    keys.iter()
        .any(|key| version.has(key.since) && is_other_kind(table, *key))
}

fn any_out_of_range(version: Version, table: &Table, keys: &[Key]) -> bool
    ensures value { result ≡ list_any (λ k. has_come k.since version
        && holds_out_of_range (table_view table.now) (rule_of k)) keys.now }
{
    keys.iter().any(|key| version.has(key.since) && is_out_of_range(table, *key))
}

/// Checks a table against the keys that a version knows.
///
/// # Errors
/// The first fault of the table against these keys.
#[tactic(auto, using(crate::proofs::Tables::keys_fault_of))]
pub fn check_keys(version: Version, table: &Table, keys: &[Key]) -> Result<(), TableFault>
    ensures checks { AnswersFault result (keys_fault (known_in version (map rule_of keys.now)) (table_view table.now)) }
{
    if any_missing(version, table, keys) {
        return Err(TableFault::MissingKey);
    }
    if has_unknown(version, table, keys) {
        return Err(TableFault::UnknownKey);
    }
    if any_other_kind(version, table, keys) {
        return Err(TableFault::WrongKind);
    }
    if any_out_of_range(version, table, keys) {
        return Err(TableFault::OutOfRange);
    }
    Ok(())
}
