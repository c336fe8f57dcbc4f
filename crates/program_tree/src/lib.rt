//! The programs of motes: the trees of their texts, the names that programs and the kernel share, and the words of the
//! notation.
#![tactic(auto)]

pub mod class;
pub mod error;
pub mod event;
pub mod event_name;
pub mod flat_block;
mod flattening;
pub mod formula;
pub mod instruction;
pub mod keyword;
pub mod names;
pub mod process_text;
pub mod program;
pub mod timer;
pub mod token;
pub mod tree;

pub use class::Class;
pub use error::{ReadError, ReadErrorKind};
pub use event::{Event, Proc, SystemEvent, Target};
pub use event_name::{BroadcastEvent, DeclaredEvent, PostedEvent, TestedEvent};
pub use flat_block::FlatBlock;
pub use formula::{Formula, Term};
pub use instruction::Instruction;
pub use keyword::Keyword;
pub use names::Names;
pub use process_text::ProcessText;
pub use program::Program;
pub use timer::Timer;
pub use token::Token;
pub use tree::{Action, Block, Expr, Operator, Stmt};
