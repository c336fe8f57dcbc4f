//! Scenarios: the net of motes that a TOML text describes, or the first fault of the text. The format belongs to this
//! project.
//!
//! The top has the keys `version` (the number 1 or 2) and `end` (the last moment at which turns are taken), the tables
//! `medium` and `programs`, the array of tables `mote` and, if there are losses, the array of tables `loss`. `medium`
//! has the numbers `range`, `base` and `per`. A `loss` has the numbers `from`, `to` and `every`. A `mote` has its
//! place, `x` and `y`, and the name of its `program`. `programs` has the texts of programs; its keys are their names.
//! Motes are numbered from 0 in the order of the text. In version 2 `medium` also has the flag `collide`, and the top
//! may have a table `queue`: for the name of a program, it has the number of events that the queue holds in motes with
//! this program.
//!
//! The first fault is reported. The first possible faults are a text that is too long and a text that isn't TOML. Then
//! the tables are checked in the order top, `medium`, each `loss`, `programs`, `queue`, each `mote`. The faults of one
//! table are looked for in this order, each in all keys: a missing key, an unknown key, a value of another kind, and a
//! number or a count outside its limits. The next fault is a program of a queue or a mote that doesn't exist; then the
//! first program, in byte order of the names, whose text isn't a program; and then the medium's numbers and losses.
#![tactic(auto)]

mod document;
mod error;
pub mod laws;
mod limits;
mod motes;
mod names;
mod places;
mod programs;
mod queues;
mod read;
mod rules;
mod values;
mod version;

pub use error::ScenarioError;
pub use limits::LONGEST_TEXT;
pub use mote_net::{Net, ProgramName};
pub use read::read_scenario;
