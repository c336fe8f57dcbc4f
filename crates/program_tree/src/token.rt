//! The tokens of a text.

use crate::keyword::Keyword;
use crate::tree::Operator;

/// A token.
#[derive(Clone, Copy)]
pub enum Token<'a> {
    Keyword(Keyword),
    Semicolon,
    Comma,
    Equals,
    Bang,
    Open,
    Close,
    OpenBrace,
    CloseBrace,
    Op(Operator),
    Name(&'a str),
    /// A number. All numbers above 65,535 count as 65,536.
    Number(u32),
    Bad,
}
