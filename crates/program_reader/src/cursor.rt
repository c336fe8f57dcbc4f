//! The tokens that are yet to be read.
ghost use Rattle.std.specs.Prelude.{◌≡◌, ◌∷◌, ◌≤◌, false, Some, drop, length, map, option_map, OnOk};
ghost use Rattle.std.specs.Bool.{OnTrue};
ghost use Rattle.program_tree.specs.Tokens as token;
ghost use Rattle.program_tree.specs.TokenMeaning.{token_of};
ghost use Rattle.program_reader.specs.Machine.{first, unfit_at};
ghost use Rattle.program_reader.specs.Steps.{ReadsSign, FailsSign, symbol_of, token_of_sign};

use crate::fault::{Fault, ReadFailure};
use program_tree::error::ReadErrorKind;
use program_tree::keyword::Keyword;
use program_tree::token::Token;
use std::marker::Model;

/// A sign that the grammar requires at a certain place.
#[derive(Clone, Copy)]
pub(crate) enum Sign {
    Semicolon,
    Equals,
    Open,
    Close,
    OpenBrace,
}

/// A place among the tokens of a text. In contracts, it is the list of the tokens from there on.
#[derive(Drop)]
pub(crate) struct Cursor<'a> {
    rest: &'a [Token<'a>],
}

impl<'a> Model for Cursor<'a> {
    ghost use Rattle.std.specs.Prelude.{List, map};
    ghost use Rattle.program_tree.specs.Tokens.{Token};
    ghost use Rattle.program_tree.specs.TokenMeaning.{token_of};

    ghost Value = { List Token };

    ghost view = { λ c. map token_of c.rest.now };
}

impl<'a> Cursor<'a> {
    pub(crate) fn new(tokens: &'a [Token<'a>]) -> Self
        ensures tokens { result ≡ map token_of tokens.now }
    {
        Cursor { rest: tokens }
    }

    /// The number of tokens that are left.
    pub(crate) fn left(&self) -> usize
        ensures count { result ≡ length self.now }
    {
        self.rest.len()
    }

    /// The next token, if there is one.
    pub(crate) fn peek(&self) -> Option<Token<'a>>
        ensures first_token { option_map token_of result ≡ first self.now }
    {
        self.rest.first().copied()
    }

    pub(crate) fn advance(&mut self)
        ensures after { self.new ≡ drop 1 self.old }
    {
        let rest = self.rest;
        if !rest.is_empty() {
            self.rest = &rest[1..];
        }
    }

    /// The error of this kind at the next token.
    pub(crate) fn fault(&self, kind: ReadErrorKind) -> ReadFailure
        ensures refusal { result ≡ ReadFailure.Fault (record { kind = kind; left = length self.now }) }
    {
        ReadFailure::Fault(Fault {
            kind,
            left: self.left(),
        })
    }

    /// The error of a next token that isn't allowed here, or of a text that isn't allowed to end here.
    pub(crate) fn unexpected_token(&self) -> ReadFailure
        ensures refusal { result
            ≡ ReadFailure.Fault (record { kind = unfit_at (first self.now); left = length self.now }) }
    {
        match self.peek() {
            Some(Token::Bad) => self.fault(ReadErrorKind::BadToken),
            _ => self.fault(ReadErrorKind::Unexpected),
        }
    }

    /// Reads a sign.
    pub(crate) fn sign(&mut self, expected: Sign) -> Result<(), ReadFailure>
        ensures no_longer { length self.new ≤ length self.old }
        ensures ok { OnOk result (ReadsSign (symbol_of expected) (token_of_sign expected) self.old self.new) }
        ensures err { FailsSign (symbol_of expected) self.old result }
    {
        match (expected, self.peek()) {
            (Sign::Semicolon, Some(Token::Semicolon))
            | (Sign::Equals, Some(Token::Equals))
            | (Sign::Open, Some(Token::Open))
            | (Sign::Close, Some(Token::Close))
            | (Sign::OpenBrace, Some(Token::OpenBrace)) => {
                self.advance();
                Ok(())
            }
            _ => Err(self.unexpected_token()),
        }
    }

    /// Reads the next token if it is this keyword. Returns `true` if it was read.
    pub(crate) fn accept(&mut self, keyword: Keyword) -> bool
        ensures no_longer { length self.new ≤ length self.old }
        ensures read { OnTrue result (self.old ≡ token.Keyword keyword ∷ self.new) }
        ensures other { result ≡ false → first self.old ≡ Some (token.Keyword keyword) → ⊥ }
        ensures same { result ≡ false → self.new ≡ self.old }
    {
        match self.peek() {
            Some(Token::Keyword(found)) if found == keyword => {
                self.advance();
                true
            }
            _ => false,
        }
    }

    /// Reads the next token if it is a comma. Returns `true` if it was read.
    #[tactic(auto, using(crate::proofs::NameSteps::token_then))]
    pub(crate) fn comma(&mut self) -> bool
        ensures no_longer { length self.new ≤ length self.old }
        ensures read { OnTrue result (self.old ≡ token.Comma ∷ self.new) }
        ensures other { result ≡ false → first self.old ≡ Some token.Comma → ⊥ }
        ensures same { result ≡ false → self.new ≡ self.old }
    {
        match self.peek() {
            Some(Token::Comma) => {
                self.advance();
                true
            }
            _ => false,
        }
    }
}
