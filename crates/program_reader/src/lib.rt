//! The reading of texts as programs, and the laws of the notation: each text has one tree or one reported error.
#![tactic(auto)]

mod code;
mod codes;
mod cursor;
mod declarations;
mod expressions;
mod fault;
mod head;
pub mod laws;
mod lexer;
mod lists;
mod named_blocks;
mod plain;
mod reader;
mod reading;
mod scope;
mod statements;
mod value_word;
mod words;

pub use reading::read;
