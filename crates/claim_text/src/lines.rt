//! Reads a text of claims, line by line.
ghost use Rattle.std.specs.Prelude.{◌≡◌, ◌≤◌, [], ◌∷◌, ◌++◌, true, filter, map, length, IsTrue, ◌↔◌, IfErr, IfOk, OnOk};
ghost use Rattle.claim_text.specs.ClaimText.{text_of};
ghost use Rattle.claim_text.specs.ClaimLines.{lines_of, is_claim_line, claim_lines, IsAt, Refuses};

use crate::claim::write_claim;
use crate::error::{ClaimsError, Unread};
use crate::part::Scope;
use crate::reader::Reader;
use claims::Claim;
use program_tree::Names;
use std::alloc::{AllocError, Global};

fn lines_of(alloc: Global, text: &[u8]) -> Result<Vec<&[u8]>, AllocError>
    ensures lines { IfOk result (λ lines. map (λ line. line.now) lines.items ≡ lines_of text.now) }
{
    text.split(|byte| *byte == b'\n').collect(alloc)
}

fn is_claim_line(line: &[u8]) -> bool
    ensures value { result ≡ is_claim_line line.now }
{
    match line {
        [] => false,
        [first, ..] => *first != b'#',
    }
}

/// The number of bytes at which two texts begin alike.
fn common(a: &[u8], b: &[u8]) -> usize
    ensures within { result ≤ length b.now }
{
    a.iter().zip(b).take_while(|(a, b)| a == b).count()
}

/// Returns whether a line is this text.
fn is_text(text: &str, line: &[u8]) -> bool
    ensures same { IsTrue result ↔ text.now ≡ line.now }
{
    text.as_bytes() == line
}

/// The error at a line with this number, behind so many bytes that fit.
fn not_a_claim(line: &[u8], number: usize, before: usize) -> ClaimsError
    requires should_be { is_claim_line line.now ≡ true }
    requires before { before ≤ length line.now }
    ensures at { IsAt number line.now result }
{
    ClaimsError::NotAClaim {
        line: number,
        column: before.saturating_add(1),
    }
}

fn read_line(alloc: Global, names: &Names, line: &[u8], number: usize) -> Result<Claim, ClaimsError>
    requires should_be { is_claim_line line.now ≡ true }
    ensures text { IfOk result (λ c. text_of names.now c ≡ line.now) }
    ensures at { IfErr result (IsAt number line.now) }
{
    let own = None;
    let scope = Scope { alloc, names, own };
    let mut reader = Reader { scope, rest: line };
    let claim = match reader.claim() {
        Ok(claim) => claim,
        Err(Unread::Memory) => return Err(ClaimsError::Memory),
        Err(Unread::Unexpected) => {
            return Err(not_a_claim(line, number, line.len().saturating_sub(reader.rest.len())));
        }
    };
    let text = write_claim(alloc, names, &claim)?;
    if is_text(text.as_str(), line) {
        Ok(claim)
    } else {
        Err(not_a_claim(line, number, common(text.as_bytes(), line)))
    }
}

fn add_line(
    alloc: Global,
    names: &Names,
    claims: &mut Vec<Claim>,
    line: &[u8],
    number: usize,
) -> Result<(), ClaimsError>
    ensures added { OnOk result (map (text_of names.now) claims.new.items
        ≡ map (text_of names.now) claims.old.items ++ filter is_claim_line (line.now ∷ [])) }
    ensures at { IfErr result (IsAt number line.now) }
{
    if is_claim_line(line) {
        let claim = read_line(alloc, names, line, number)?;
        claims.push(claim)?;
    }
    Ok(())
}

/// Reads claims, one a line. Empty lines, and lines that begin with `#`, are skipped. The texts of the claims are the
/// other lines.
///
/// # Errors
/// `NotAClaim` at a line that isn't read as a claim, behind lines that are the texts of claims; `Memory` if an allocation
/// fails. A line ends with a line feed alone: a carriage return belongs to its line, which then isn't the text of a claim.
pub fn read_claims(alloc: Global, names: &Names, text: &[u8]) -> Result<Vec<Claim>, ClaimsError>
    ensures texts { IfOk result (λ cs. map (text_of names.now) cs.items ≡ claim_lines text.now) }
    ensures refused { IfErr result (Refuses names.now text.now) }
{
    let mut claims = Vec::new(alloc);
    let lines = lines_of(alloc, text)?;
    for (index, line) in lines.iter().enumerate() {
        let number = index + 1;
        add_line(alloc, names, &mut claims, line, number)?;
    }
    Ok(claims)
}
