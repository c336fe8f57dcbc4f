//! The programs of a scenario, in byte order of their names.
ghost use Rattle.std.specs.Prelude.{◌≡◌, IfOk};
ghost use Rattle.toml.specs.View.{table_view};
ghost use Rattle.net_scenario.specs.Programs.{program_texts};
ghost use Rattle.net_scenario.specs.Reads.{AreSortedByName, ReadsProgram, ReadsPrograms};

use crate::error::ScenarioError;
use crate::values::text_of;
use mote_net::{NamedProgram, ProgramName};
use program_reader::read;
use program_tree::ReadErrorKind;
use std::alloc::Global;
use toml::Table;

/// Reads the program of a text, or returns the error that is reported.
fn read_program(alloc: Global, name: &str, text: &str) -> Result<NamedProgram, ScenarioError>
    ensures reads_program { ReadsProgram (record { name = name.now; text = text.now }) result }
{
    let name = ProgramName::from_str(alloc, name)?;
    match read(alloc, text) {
        Ok(program) => Ok(NamedProgram { name, program }),
        Err(error) => match error.kind {
            ReadErrorKind::Memory => Err(ScenarioError::Memory),
            _ => Err(ScenarioError::Program(name, error)),
        },
    }
}

/// Reads the programs of a table, also those that no mote runs, or reports the first program that can't be read.
///
/// # Errors
/// `Program` with the first program that can't be read and its error; `Memory` if an allocation failed.
pub fn read_programs(alloc: Global, table: &Table) -> Result<Vec<NamedProgram>, ScenarioError>
    ensures read { ReadsPrograms (program_texts (table_view table.now)) result }
    ensures in_order { IfOk result (λ programs. AreSortedByName programs.items) }
{
    let mut programs = Vec::new(alloc);
    for (name, value) in table.iter() {
        programs.push(read_program(alloc, name.as_str(), text_of(value))?)?;
    }
    Ok(programs)
}
