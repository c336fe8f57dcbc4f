//! Cases and claims.
ghost use Rattle.std.specs.Prelude.{◌≡◌, map, string_bytes, IfOk};
ghost use Rattle.claim_text.specs.ClaimText.{entry_of, quantity_text, these_text, cases_text, text_of};
ghost use Rattle.claim_text.specs.TestText.{tests_text};
ghost use Rattle.claim_text.specs.EntryView.{view_of};

use crate::group::{Entry, Frame, groups_in, write_entries};
use crate::numbers::{exactly, is_all};
use crate::part::{Part, Read, Scope, Words, Written, write_list};
use crate::reader::Reader;
use crate::subject::mote_of;
use claims::{Case, Claim, Limits, Test};
use program_tree::Names;
use std::alloc::{AllocError, Global};

const TESTS: Words = Words {
    none: "always",
    before: "",
    between: " and ",
};

const CASES: Frame = Frame {
    between: "; ",
    together: "",
};

impl Reader<'_> {
    fn case(&mut self, own: Option<u16>) -> Read<Case> {
        self.scope.own = own;
        let tests = self.list(TESTS)?;
        Ok(Case { tests })
    }

    /// Reads a group of cases: the tests are read again for each of its motes.
    fn group(&mut self, cases: &mut Vec<Case>) -> Read<()> {
        if self.take("the net: ") {
            cases.push(self.case(None)?)?;
            return Ok(());
        }
        let motes = self.motes()?;
        self.expect(": ")?;
        let tests = self.rest;
        for mote in &motes {
            self.rest = tests;
            cases.push(self.case(Some(*mote))?)?;
        }
        Ok(())
    }

    fn cases(&mut self) -> Read<Vec<Case>> {
        let mut cases = Vec::new(self.scope.alloc);
        let _ = self.take("these: ");
        if self.take("no cases") {
            return Ok(cases);
        }
        for _ in 0..self.rest.len() {
            self.group(&mut cases)?;
            if !self.take(CASES.between) {
                break;
            }
        }
        Ok(cases)
    }

    /// Reads a claim, which may have another text.
    pub fn claim(&mut self) -> Read<Claim> {
        let is_limited = self.rest.starts_with(b"exactly ") || self.rest.starts_with(b"at ");
        if !is_limited {
            let _ = self.take("each of ");
            let cases = self.cases()?;
            let limits = exactly(cases.len() as u64);
            return Ok(Claim { limits, cases });
        }
        let limits = Limits::read(self)?;
        self.expect(" of ")?;
        let cases = self.cases()?;
        Ok(Claim { limits, cases })
    }
}

/// Writes tests.
pub fn write_tests(scope: Scope<'_>, tests: &[Test]) -> Written
    ensures written { IfOk result (λ t. string_bytes t
        ≡ tests_text scope.entry.names.now scope.entry.own tests.now) }
{
    write_list(scope, TESTS, tests)
}

fn entry_of(alloc: Global, names: &Names, case: &Case) -> Result<Entry, AllocError>
    ensures value { IfOk result (λ e. view_of e ≡ entry_of names.now case.now) }
{
    let own = mote_of(case);
    let tests = write_tests(Scope { alloc, names, own }, case.tests.as_slice())?;
    let body = format!(in alloc; ": {tests}")?;
    Ok(Entry { mote: own, body })
}

fn entries_of(alloc: Global, names: &Names, cases: &[Case]) -> Result<Vec<Entry>, AllocError>
    ensures value { IfOk result (λ es. map view_of es.items ≡ map (entry_of names.now) cases.now) }
{
    let mut entries = Vec::new(alloc);
    for case in cases {
        let entry = entry_of(alloc, names, case)?;
        entries.push(entry)?;
    }
    Ok(entries)
}

fn write_quantity(scope: Scope<'_>, limits: Limits, number: u64) -> Written
    ensures written { IfOk result (λ t. string_bytes t ≡ quantity_text limits number) }
{
    if !is_all(limits, number) {
        let limits = limits.write(scope)?;
        return format!(in scope.alloc; "{limits} of ");
    }
    String::from_str(scope.alloc, if number == 1 { "" } else { "each of " })
}

fn these(entries: &[Entry]) -> &'static str
    ensures value { result.now ≡ these_text (map view_of entries.now) }
{
    if groups_in(entries) == 1 {
        ""
    } else {
        "these: "
    }
}

fn write_cases(scope: Scope<'_>, entries: &[Entry]) -> Written
    ensures written { IfOk result (λ t. string_bytes t ≡ cases_text (map view_of entries.now)) }
{
    match entries {
        [] => String::from_str(scope.alloc, "no cases"),
        [_, ..] => write_entries(scope, CASES, entries),
    }
}

/// Returns the text of a claim, without a line feed. `names` is the names of the processes; a process without a name
/// is written as its number.
///
/// # Errors
/// `AllocError` if an allocation fails.
pub fn write_claim(alloc: Global, names: &Names, claim: &Claim) -> Result<String, AllocError>
    ensures text { IfOk result (λ t. string_bytes t ≡ text_of names.now claim.now) }
{
    let own = None;
    let scope = Scope { alloc, names, own };
    let entries = entries_of(alloc, names, claim.cases.as_slice())?;
    let quantity = write_quantity(scope, claim.limits, claim.cases.len() as u64)?;
    let these = these(entries.as_slice());
    let cases = write_cases(scope, entries.as_slice())?;
    format!(in alloc; "{quantity}{these}{cases}")
}
