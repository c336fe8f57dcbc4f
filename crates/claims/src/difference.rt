//! The values that are missing, and those that are superfluous.
ghost use Rattle.std.specs.Prelude.{◌≡◌, [], filter, IfOk};
ghost use Rattle.std.specs.List.{list_any};
ghost use Rattle.mote_net.specs.Report.{report_of};
ghost use Rattle.claims.specs.Traces.{lines_of};
ghost use Rattle.claims.specs.Values.{is_earlier, is_last};
ghost use Rattle.claims.specs.Differences.{values_of, last_values, times, beyond, once, is_too_few, is_too_many};
ghost use Rattle.claims.specs.Differences.{missing_by, superfluous_by, missing_values, superfluous_values};

use crate::{Comparison, Deed, Found, Limits, Test, Way};
use mote_net::Report;
use std::alloc::{AllocError, Global};

/// The values that are missing, and those that are superfluous.
#[derive(Drop)]
pub struct Difference {
    pub missing: Vec<u64>,
    pub superfluous: Vec<u64>,
}

fn values_of(alloc: Global, lines: &[Found]) -> Result<Vec<u64>, AllocError>
    ensures value { IfOk result (λ vs. vs.items ≡ values_of lines.now) }
{
    let mut values = Vec::new(alloc);
    for line in lines {
        if let Some(value) = line.value() {
            values.push(value)?;
        }
    }
    Ok(values)
}

fn has_later(lines: &[Found], line: &Found) -> bool
    ensures value { result ≡ list_any (is_earlier line.now) lines.now }
{
    lines.iter().any(|other| line.is_earlier(other))
}

fn is_last(lines: &[Found], line: &Found) -> bool
    ensures value { result ≡ is_last lines.now line.now }
{
    !has_later(lines, line)
}

fn last_lines(alloc: Global, lines: &[Found]) -> Result<Vec<Found>, AllocError>
    ensures value { IfOk result (λ ls. ls.items ≡ filter (is_last lines.now) lines.now) }
{
    lines
        .iter()
        .copied()
        .filter(|line| is_last(lines, line))
        .collect(alloc)
}

fn last_values(alloc: Global, lines: &[Found]) -> Result<Vec<u64>, AllocError>
    ensures value { IfOk result (λ vs. vs.items ≡ last_values lines.now) }
{
    let last = last_lines(alloc, lines)?;
    values_of(alloc, last.as_slice())
}

/// How often a list has a number.
fn times(number: u64, numbers: &[u64]) -> usize
    ensures value { result ≡ times number numbers.now }
{
    numbers.iter().filter(|other| **other == number).count()
}

/// The numbers of a list without those of another one, each as often as that one has it.
fn beyond(alloc: Global, mut numbers: &[u64], others: &[u64]) -> Result<Vec<u64>, AllocError>
    ensures value { IfOk result (λ ns. ns.items ≡ beyond numbers.entry.now others.now) }
{
    let mut found = Vec::new(alloc);
    while let [number, rest @ ..] = numbers {
        if times(*number, others) <= times(*number, rest) {
            found.push(*number)?;
        }
        numbers = rest;
    }
    Ok(found)
}

/// The numbers of a list, each once.
fn once(alloc: Global, mut numbers: &[u64]) -> Result<Vec<u64>, AllocError>
    ensures value { IfOk result (λ ns. ns.items ≡ once numbers.entry.now) }
{
    let mut found = Vec::new(alloc);
    while let [number, rest @ ..] = numbers {
        if times(*number, rest) == 0 {
            found.push(*number)?;
        }
        numbers = rest;
    }
    Ok(found)
}

fn is_too_few(limits: Limits, number: u64, others: &[u64]) -> bool
    ensures value { result ≡ is_too_few limits others.now number }
{
    (times(number, others) as u64) < limits.least
}

fn is_too_many(limits: Limits, number: u64, others: &[u64]) -> bool
    ensures value { result ≡ is_too_many limits others.now number }
{
    match limits.most {
        None => false,
        Some(most) => most < times(number, others) as u64,
    }
}

fn too_few(
    alloc: Global,
    limits: Limits,
    numbers: &[u64],
    others: &[u64],
) -> Result<Vec<u64>, AllocError>
    ensures value { IfOk result (λ ns. ns.items ≡ filter (is_too_few limits others.now) numbers.now) }
{
    numbers
        .iter()
        .copied()
        .filter(|number| is_too_few(limits, *number, others))
        .collect(alloc)
}

fn too_many(
    alloc: Global,
    limits: Limits,
    numbers: &[u64],
    others: &[u64],
) -> Result<Vec<u64>, AllocError>
    ensures value { IfOk result (λ ns. ns.items ≡ filter (is_too_many limits others.now) numbers.now) }
{
    numbers
        .iter()
        .copied()
        .filter(|number| is_too_many(limits, *number, others))
        .collect(alloc)
}

impl Difference {
    fn none(alloc: Global) -> Difference
        ensures missing { result.missing.items ≡ [] }
        ensures superfluous { result.superfluous.items ≡ [] }
    {
        Difference {
            missing: Vec::new(alloc),
            superfluous: Vec::new(alloc),
        }
    }

    /// What some numbers lack of others, and what they have beyond them.
    fn between(alloc: Global, own: &[u64], others: &[u64]) -> Result<Difference, AllocError>
        ensures missing { IfOk result (λ d. d.missing.items ≡ beyond others.now own.now) }
        ensures superfluous { IfOk result (λ d. d.superfluous.items ≡ beyond own.now others.now) }
    {
        Ok(Difference {
            missing: beyond(alloc, others, own)?,
            superfluous: beyond(alloc, own, others)?,
        })
    }

    fn outside(
        alloc: Global,
        limits: Limits,
        own: &[u64],
        others: &[u64],
    ) -> Result<Difference, AllocError>
        ensures missing { IfOk result (λ d. d.missing.items ≡ once (filter (is_too_few limits others.now) own.now)) }
        ensures superfluous { IfOk result (λ d. d.superfluous.items ≡ once (filter (is_too_many limits others.now) own.now)) }
    {
        let few = too_few(alloc, limits, own, others)?;
        let many = too_many(alloc, limits, own, others)?;
        Ok(Difference {
            missing: once(alloc, few.as_slice())?,
            superfluous: once(alloc, many.as_slice())?,
        })
    }

    fn by(
        alloc: Global,
        way: Way,
        own: &[Found],
        others: &[Found],
    ) -> Result<Difference, AllocError>
        ensures missing { IfOk result (λ d. d.missing.items ≡ missing_by way own.now others.now) }
        ensures superfluous { IfOk result (λ d. d.superfluous.items ≡ superfluous_by way own.now others.now) }
    {
        match way {
            Way::Last => {
                let own = last_values(alloc, own)?;
                let others = last_values(alloc, others)?;
                Difference::between(alloc, own.as_slice(), others.as_slice())
            }
            Way::InTime | Way::AnyOrder => {
                let own = values_of(alloc, own)?;
                let others = values_of(alloc, others)?;
                Difference::between(alloc, own.as_slice(), others.as_slice())
            }
            Way::Each(limits) => {
                let own = values_of(alloc, own)?;
                let others = values_of(alloc, others)?;
                Difference::outside(alloc, limits, own.as_slice(), others.as_slice())
            }
        }
    }

    fn of_lists(
        alloc: Global,
        deed: &Deed,
        values: &[u64],
        report: &Report,
    ) -> Result<Difference, AllocError>
        ensures missing { IfOk result (λ d. d.missing.items
            ≡ beyond values.now (values_of (lines_of (report_of report.now) deed.now))) }
        ensures superfluous { IfOk result (λ d. d.superfluous.items
            ≡ beyond (values_of (lines_of (report_of report.now) deed.now)) values.now) }
    {
        let lines = deed.lines(alloc, report)?;
        let found = values_of(alloc, lines.as_slice())?;
        Difference::between(alloc, found.as_slice(), values)
    }

    fn of_deeds(
        alloc: Global,
        comparison: &Comparison,
        report: &Report,
    ) -> Result<Difference, AllocError>
        ensures missing { IfOk result (λ d. d.missing.items ≡ missing_by comparison.now.way
            (lines_of (report_of report.now) comparison.now.deed) (lines_of (report_of report.now) comparison.now.other)) }
        ensures superfluous { IfOk result (λ d. d.superfluous.items ≡ superfluous_by comparison.now.way
            (lines_of (report_of report.now) comparison.now.deed) (lines_of (report_of report.now) comparison.now.other)) }
    {
        let own = comparison.deed.lines(alloc, report)?;
        let others = comparison.other.lines(alloc, report)?;
        Difference::by(alloc, comparison.way, own.as_slice(), others.as_slice())
    }

    /// The values that the lines of a test lack, and those that they have beyond it.
    pub(crate) fn of(alloc: Global, test: &Test, report: &Report) -> Result<Difference, AllocError>
        ensures missing { IfOk result (λ d. d.missing.items ≡ missing_values test.now (report_of report.now)) }
        ensures superfluous { IfOk result (λ d. d.superfluous.items
            ≡ superfluous_values test.now (report_of report.now)) }
    {
        match test {
            Test::AnyOrder(deed, values) => {
                Difference::of_lists(alloc, deed, values.as_slice(), report)
            }
            Test::Compared(comparison) => Difference::of_deeds(alloc, comparison, report),
            Test::Count(_, _) | Test::Ratio(_) | Test::Values(_, _) | Test::Last(_, _) => {
                Ok(Difference::none(alloc))
            }
        }
    }
}
