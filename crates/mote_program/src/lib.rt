//! The canonical text of a program. The crate `program_reader` has the reader of programs, and `program_tree` has their
//! trees.
#![tactic(auto)]

mod printer;
mod spelling;
mod unparse;
mod unparse_code;

pub use printer::print_program;
pub use program_reader::{laws, read};
pub use program_tree::{
    Action, Block, BroadcastEvent, DeclaredEvent, Event, Expr, FlatBlock, Names, Operator,
    PostedEvent, Proc, ProcessText, Program, ReadError, ReadErrorKind, Stmt, SystemEvent, Target,
    TestedEvent, Timer, error, event, event_name, flat_block, names, process_text, program, timer,
    tree,
};
