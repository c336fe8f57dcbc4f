//! The programs of a net.
use crate::program_name::ProgramName;
use program_tree::Program;

/// A program, and the name that motes use for it.
#[derive(Drop)]
pub struct NamedProgram {
    pub name: ProgramName,
    pub program: Program,
}
