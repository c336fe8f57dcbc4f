//! The canonical text of tokens, and of a program.
ghost use Rattle.std.specs.Prelude.{◌≡◌, ◌++◌, ◌+◌, ◌<◌, ◌^◌, map, IfOk, OnOk, string_bytes};
ghost use Rattle.program_tree.specs.Canonical.{braces_behind, tells, ends_line, is_close, line_depth, indentation};
ghost use Rattle.program_tree.specs.Canonical.{gap, canonical_text};
ghost use Rattle.program_tree.specs.Program.{tree_of};
ghost use Rattle.program_tree.specs.Reading.{IsTreeOf};
ghost use Rattle.program_tree.specs.ShapeOf.{text_of_tree};
ghost use Rattle.program_tree.specs.TokenMeaning.{token_of};

use crate::spelling::spell;
use crate::unparse_code::unparse;
use program_tree::keyword::Keyword;
use program_tree::program::Program;
use program_tree::token::Token;
use std::alloc::{AllocError, Global};

/// The number of open braces after a token, given the number before it.
fn braces_behind(braces: usize, token: &Token) -> usize
    requires bounded { braces + 1 < 2 ^ 64 }
    ensures value { result ≡ braces_behind braces (token_of token.now) }
{
    match token {
        Token::OpenBrace => braces + 1,
        Token::CloseBrace => braces.saturating_sub(1),
        _ => braces,
    }
}

/// Returns `true` if the keyword has a `(` after it without a space.
fn tells(keyword: Keyword) -> bool
    ensures value { result ≡ tells keyword }
{
    matches!(
        keyword,
        Keyword::Is
            | Keyword::Fired
            | Keyword::Expired
            | Keyword::Gone
            | Keyword::Running
            | Keyword::Count
    )
}

/// Returns `true` if a token ends its line. `rest` is the tokens after it.
fn ends_line(token: &Token, rest: &[Token]) -> bool
    ensures value { result ≡ ends_line (token_of token.now) (map token_of rest.now) }
{
    match token {
        Token::Semicolon | Token::OpenBrace => true,
        Token::CloseBrace => !matches!(rest, [Token::Keyword(Keyword::Else), ..]),
        _ => false,
    }
}

/// Returns `true` if there is no space between a token and the next one.
fn is_close(token: &Token, rest: &[Token]) -> bool
    ensures value { result ≡ is_close (token_of token.now) (map token_of rest.now) }
{
    match (token, rest) {
        (Token::Open | Token::Bang, _) => true,
        (_, [Token::Semicolon | Token::Comma | Token::Close, ..]) => true,
        (Token::Keyword(keyword), [Token::Open, ..]) => tells(*keyword),
        _ => false,
    }
}

/// The depth of a line that begins with these tokens. A closing brace has the depth of the line that opened it.
fn line_depth(braces: usize, rest: &[Token]) -> usize
    ensures value { result ≡ line_depth braces (map token_of rest.now) }
{
    match rest {
        [Token::CloseBrace, ..] => braces.saturating_sub(1),
        _ => braces,
    }
}

/// Adds two spaces for each open brace.
fn indent(text: &mut String, mut depth: usize) -> Result<(), AllocError>
    ensures appended { OnOk result (string_bytes text.new ≡ string_bytes text.old ++ indentation depth) }
{
    while depth > 0 {
        text.push_str("  ")?;
        depth -= 1;
    }
    Ok(())
}

/// Adds the white space after a token, if this many braces are open.
fn part(text: &mut String, braces: usize, token: &Token, rest: &[Token]) -> Result<(), AllocError>
    ensures appended { OnOk result (string_bytes text.new ≡ string_bytes text.old ++ gap braces (token_of token.now)
        (map token_of rest.now)) }
{
    if ends_line(token, rest) {
        text.push_str("\n")?;
        indent(text, line_depth(braces, rest))
    } else if is_close(token, rest) {
        Ok(())
    } else {
        text.push_str(" ")
    }
}

/// The canonical text of tokens.
pub(crate) fn print(alloc: Global, mut tokens: &[Token]) -> Result<String, AllocError>
    ensures text { IfOk result (λ t. string_bytes t ≡ canonical_text (map token_of tokens.entry.now)) }
{
    let mut text = String::new(alloc);
    let mut braces = 0;
    while let [token, rest @ ..] = tokens {
        spell(alloc, &mut text, token)?;
        braces = braces_behind(braces, token);
        part(&mut text, braces, token, rest)?;
        tokens = rest;
    }
    Ok(text)
}

/// Returns the canonical text of a program. The tree of this text is the program's tree.
///
/// Tokens are separated by one space. There is no space before `;`, `,` or `)`, none after `(` or `!`, and none
/// between `is`, `fired`, `expired`, `gone`, `running` or `count` and its `(`. Each `;`, `{` and `}` ends a line,
/// except that `} else {` is on one line. A line is indented by two spaces for each open brace. Empty blocks are kept.
/// The text ends with LF.
///
/// # Errors
///
/// `AllocError` if an allocation fails.
pub fn print_program(alloc: Global, program: &Program) -> Result<String, AllocError>
    ensures text { IfOk result (λ t. string_bytes t ≡ text_of_tree (tree_of program.now)) }
    ensures reads { IfOk result (λ t. IsTreeOf (string_bytes t) (tree_of program.now)) }
{
    let tokens = unparse(alloc, program)?;
    print(alloc, &tokens)
}
