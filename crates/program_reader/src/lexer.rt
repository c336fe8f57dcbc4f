//! The lexer, which turns a text into tokens with their lines.
ghost use Rattle.std.specs.Prelude.{◌≡◌, ◌<◌, ◌≤◌, ◌++◌, map, length, not, nat_eq, find, option_map, option_to_list};
ghost use Rattle.std.specs.Prelude.{IfOk, OnOk};
ghost use Rattle.std.specs.List.{prefix_len, starts_with};
ghost use Rattle.program_tree.specs.TokenMeaning.{token_of};
ghost use Rattle.program_tree.specs.Words.{is_word_byte};
ghost use Rattle.program_tree.specs.Text.{IsLexed, is_feed, is_blank};
ghost use Rattle.program_reader.specs.Front.{BeginsWithToken, BeginsOther, token_entry};

use crate::words::{self, Entry};
use program_tree::token::Token;
use program_tree::tree::Operator;
use std::alloc::{AllocError, Global};

/// The tokens of a text, and their lines, from 1 on. There is one more line than tokens: the line of the text's end.
#[derive(Drop)]
pub(crate) struct Lexed<'a> {
    pub(crate) tokens: Vec<Token<'a>>,
    pub(crate) lines: Vec<usize>,
}

/// The first piece of a text: its length, and its token if it is neither blank nor a comment.
#[derive(Clone, Copy)]
struct Front<'a> {
    token: Option<Token<'a>>,
    len: usize,
}

/// The signs, longer signs first.
static SIGNS: [Entry<'static>; 21] = [
    (b"==", Token::Op(Operator::Equal)),
    (b"!=", Token::Op(Operator::Unequal)),
    (b"<=", Token::Op(Operator::AtMost)),
    (b">=", Token::Op(Operator::AtLeast)),
    (b"&&", Token::Op(Operator::And)),
    (b"||", Token::Op(Operator::Or)),
    (b"{", Token::OpenBrace),
    (b"}", Token::CloseBrace),
    (b"(", Token::Open),
    (b")", Token::Close),
    (b";", Token::Semicolon),
    (b",", Token::Comma),
    (b"=", Token::Equals),
    (b"!", Token::Bang),
    (b"+", Token::Op(Operator::Add)),
    (b"-", Token::Op(Operator::Subtract)),
    (b"*", Token::Op(Operator::Multiply)),
    (b"/", Token::Op(Operator::Divide)),
    (b"%", Token::Op(Operator::Remainder)),
    (b"<", Token::Op(Operator::Less)),
    (b">", Token::Op(Operator::Greater)),
];

fn is_blank(byte: u8) -> bool
    ensures value { result ≡ is_blank byte }
{
    byte == b' ' || byte == b'\t' || byte == b'\r' || byte == b'\n'
}

fn word_len(rest: &[u8]) -> usize
    ensures len { result ≡ prefix_len is_word_byte rest.now }
    ensures within { result ≤ length rest.now }
{
    rest.iter()
        .position(|byte| !words::is_word_byte(*byte))
        .unwrap_or(rest.len())
}

/// The number of bytes up to the end of the line.
fn line_len(rest: &[u8]) -> usize
    ensures len { result ≡ prefix_len (λ b. not (is_feed b)) rest.now }
    ensures within { result ≤ length rest.now }
{
    rest.iter()
        .position(|byte| *byte == b'\n')
        .unwrap_or(rest.len())
}

/// The first of these signs with which a text begins.
fn first_sign(signs: &'static [Entry<'static>], rest: &[u8]) -> Option<Entry<'static>>
    ensures value { option_map token_entry result ≡ find (λ s. starts_with nat_eq rest.now s.0)
        (map token_entry signs.now) }
{
    signs.iter().find(|sign| rest.starts_with(sign.0)).copied()
}

/// The sign or the bad byte with which a text begins.
fn sign_or_bad<'a>(rest: &[u8]) -> Front<'a>
    requires begins_other { BeginsOther rest.now }
    ensures piece { BeginsWithToken rest.now (option_map token_of result.token) result.len }
    ensures moves { 0 < result.len }
    ensures within { result.len ≤ length rest.now }
{
    match first_sign(&SIGNS, rest) {
        Some((sign, token)) => Front {
            token: Some(token),
            len: sign.len(),
        },
        None => Front {
            token: Some(Token::Bad),
            len: 1,
        },
    }
}

/// The piece with which a text begins.
fn first_piece<'a>(rest: &'a [u8]) -> Front<'a>
    requires not_empty { 0 < length rest.now }
    ensures piece { BeginsWithToken rest.now (option_map token_of result.token) result.len }
    ensures moves { 0 < result.len }
    ensures within { result.len ≤ length rest.now }
{
    if is_blank(rest[0]) {
        Front {
            token: None,
            len: 1,
        }
    } else if words::is_word_byte(rest[0]) {
        let len = word_len(rest);
        Front {
            token: Some(words::word_token(&rest[..len])),
            len,
        }
    } else if rest.starts_with(b"//") {
        Front {
            token: None,
            len: 2 + line_len(&rest[2..]),
        }
    } else {
        sign_or_bad(rest)
    }
}

impl<'a> Lexed<'a> {
    /// Adds a token with its line, if there is a token.
    fn add(&mut self, token: Option<Token<'a>>, line: usize) -> Result<(), AllocError>
        ensures tokens { OnOk result (self.new.tokens.items ≡ self.old.tokens.items ++ option_to_list token.entry) }
        ensures lines { OnOk result (self.new.lines.items ≡ self.old.lines.items
            ++ option_to_list (option_map (λ t. line) token.entry)) }
    {
        if let Some(token) = token {
            self.tokens.push(token)?;
            self.lines.push(line)?;
        }
        Ok(())
    }
}

/// Splits a text into its tokens.
pub(crate) fn lex<'a>(alloc: Global, text: &'a str) -> Result<Lexed<'a>, AllocError>
    ensures is_lexed { IfOk result (λ t. IsLexed text.now (map token_of t.tokens.items) t.lines.items) }
{
    let mut lexed = Lexed {
        tokens: Vec::new(alloc),
        lines: Vec::new(alloc),
    };
    let mut rest = text.as_bytes();
    let mut line = 1;
    while let [first, ..] = rest {
        let front = first_piece(rest);
        lexed.add(front.token, line)?;
        if *first == b'\n' {
            line += 1;
        }
        rest = &rest[front.len..];
    }
    lexed.lines.push(line)?;
    Ok(lexed)
}
