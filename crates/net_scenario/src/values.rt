//! The values of tables that keep their rules.
ghost use Rattle.std.specs.Prelude.{◌≡◌, [], Some, pos, negsuc, unwrap_or};
ghost use Rattle.toml.specs.Data.{as_str};
ghost use Rattle.toml.specs.View.{view, items_view, table_view};
ghost use Rattle.net_scenario.specs.Document.{integer_at, boolean_at, text_at, table_at, members_of, items_at};
ghost use Rattle.net_scenario.specs.Document.{HoldsNumber, HoldsTable};

use crate::rules::value_at;
use toml::{Table, Value};

/// The number at a key.
pub fn natural_at(table: &Table, name: &str) -> u32
    requires holds_number { HoldsNumber (pos 0) (pos 4294967295) name.now (table_view table.now) }
    ensures value { integer_at name.now (table_view table.now) ≡ Some (pos result) }
{
    match value_at(table, name) {
        Some(Value::Integer(number)) => *number as u32,
        _ => unreachable!(),
    }
}

/// The signed number at a key.
pub fn integer_at(table: &Table, name: &str) -> i32
    requires holds_number { HoldsNumber (negsuc 2147483647) (pos 2147483647) name.now (table_view table.now) }
    ensures value { integer_at name.now (table_view table.now) ≡ Some result }
{
    match value_at(table, name) {
        Some(Value::Integer(number)) => *number as i32,
        _ => unreachable!(),
    }
}

/// The flag at a key; `false` if there is none.
pub fn boolean_at(table: &Table, name: &str) -> bool
    ensures value { result ≡ boolean_at name.now (table_view table.now) }
{
    match value_at(table, name) {
        Some(Value::Boolean(flag)) => *flag,
        _ => false,
    }
}

/// The text of a value; empty if the value isn't a text.
pub fn text_of(value: &Value) -> &str
    ensures value { result.now ≡ unwrap_or (as_str (view value.now)) [] }
{
    match value {
        Value::String(text) => text.as_str(),
        _ => "",
    }
}

/// The text at a key; empty if there is none.
pub fn text_at<'a>(table: &'a Table, name: &str) -> &'a str
    ensures value { result.now ≡ text_at name.now (table_view table.now) }
{
    match value_at(table, name) {
        Some(value) => text_of(value),
        None => "",
    }
}

/// The table at a key.
pub fn table_at<'a>(table: &'a Table, name: &str) -> &'a Table
    requires holds_table { HoldsTable name.now (table_view table.now) }
    ensures table { table_view result.now ≡ table_at name.now (table_view table.now) }
{
    match value_at(table, name) {
        Some(value) => match value.as_table() {
            Some(inner) => inner,
            None => unreachable!(),
        },
        None => unreachable!(),
    }
}

/// The table at a key, if there is one.
pub fn table_if_any<'a>(table: &'a Table, name: &str) -> Option<&'a Table>
    ensures members { members_of result ≡ table_at name.now (table_view table.now) }
{
    match value_at(table, name) {
        Some(value) => value.as_table(),
        None => None,
    }
}

/// The items of the array at a key; none if there is no array.
pub fn items_at<'a>(table: &'a Table, name: &str) -> &'a [Value]
    ensures items { items_view result.now ≡ items_at name.now (table_view table.now) }
{
    match value_at(table, name) {
        Some(Value::Array(items)) => items,
        _ => &[],
    }
}
