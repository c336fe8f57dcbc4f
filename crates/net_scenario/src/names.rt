//! The table of programs: each key is a name, and each value a text.
ghost use Rattle.std.specs.Prelude.{◌≡◌, not, is_some, string_bytes};
ghost use Rattle.std.specs.List.{list_any, list_all};
ghost use Rattle.std.specs.Map.{keys_of, values_of};
ghost use Rattle.toml.specs.Data.{as_str};
ghost use Rattle.toml.specs.View.{view, table_view};
ghost use Rattle.net_scenario.specs.Checks.{AnswersFault};
ghost use Rattle.net_scenario.specs.Names.{is_name_byte, is_program_name, names_fault};

use crate::error::TableFault;
use crate::limits::{LONGEST_NAME, MOST_PROGRAMS};
use toml::Table;

fn is_name_byte(byte: u8) -> bool
    ensures value { result ≡ is_name_byte byte }
{
    match byte {
        b'A'..=b'Z' | b'a'..=b'z' | b'0'..=b'9' | b'_' | b'-' => true,
        _ => false,
    }
}

fn has_name_bytes(name: &str) -> bool
    ensures value { result ≡ list_all is_name_byte name.now }
{
    name.bytes().all(|byte| is_name_byte(byte))
}

fn is_program_name(name: &str) -> bool
    ensures value { result ≡ is_program_name name.now }
{
    !name.is_empty() && name.len() <= LONGEST_NAME && has_name_bytes(name)
}

fn any_misnamed(table: &Table) -> bool
    ensures value { result ≡ list_any (λ k. not (is_program_name (string_bytes k))) (keys_of table.now.entries) }
{
    table.keys().any(|name| !is_program_name(name.as_str()))
}

fn any_no_text(table: &Table) -> bool
    ensures value { result ≡ list_any (λ v. not (is_some (as_str (view v)))) (values_of table.now.entries) }
{
    table.values().any(|value| !value.is_str())
}

/// Checks the table of programs.
///
/// # Errors
/// The first fault of the names.
#[tactic(auto, using(crate::proofs::Tables::names_fault_of))]
pub fn check_names(table: &Table) -> Result<(), TableFault>
    ensures checks { AnswersFault result (names_fault (table_view table.now)) }
{
    if any_misnamed(table) {
        return Err(TableFault::UnknownKey);
    }
    if any_no_text(table) {
        return Err(TableFault::WrongKind);
    }
    if table.len() > MOST_PROGRAMS {
        return Err(TableFault::OutOfRange);
    }
    Ok(())
}
