//! Numbers, sets of numbers, periods and limits.
ghost use Rattle.std.specs.Prelude.{◌≡◌, decimal, string_bytes, IfOk};
ghost use Rattle.claim_text.specs.Numbers.{noun, span_text, set_text, any_of, item_text, part_text, period_text};
ghost use Rattle.claim_text.specs.Numbers.{is_all, limits_text, shown_number};

use crate::part::{Part, Read, Scope, Words, Written, write_list};
use crate::reader::Reader;
use claims::{Limits, Set, Span};

const SPANS: Words = Words {
    none: "none",
    before: "",
    between: " or ",
};

impl Part for u64 {
    ghost text = { λ names own n. decimal n };

    fn read(reader: &mut Reader<'_>) -> Read<u64> {
        reader.number()
    }

    fn write(&self, scope: Scope<'_>) -> Written {
        let number = *self;
        format!(in scope.alloc; "{number}")
    }
}

impl Part for Span {
    ghost text = { λ names own s. span_text s };

    fn read(reader: &mut Reader<'_>) -> Read<Span> {
        let from = reader.number()?;
        let to = if reader.take(" to ") {
            reader.number()?
        } else {
            from
        };
        Ok(Span { from, to })
    }

    fn write(&self, scope: Scope<'_>) -> Written {
        let Span { from, to } = *self;
        if from == to {
            format!(in scope.alloc; "{from}")
        } else {
            format!(in scope.alloc; "{from} to {to}")
        }
    }
}

fn any_of(spans: &[Span]) -> &'static str
    ensures value { result.now ≡ any_of spans.now }
{
    match spans {
        [] => "",
        [span] if span.from == span.to => "",
        _ => "any of ",
    }
}

/// A set in a list of sets has `any of` in front of more than one number.
impl Part for Set {
    ghost text = { λ names own s. item_text s.spans.items };

    fn read(reader: &mut Reader<'_>) -> Read<Set> {
        let _ = reader.take("any of ");
        reader.set()
    }

    fn write(&self, scope: Scope<'_>) -> Written {
        let any_of = any_of(self.spans.as_slice());
        let set = write_set(scope, self)?;
        format!(in scope.alloc; "{any_of}{set}")
    }
}

/// Limits that admit one number.
pub fn exactly(number: u64) -> Limits {
    Limits {
        least: number,
        most: Some(number),
    }
}

impl Part for Limits {
    ghost text = { λ names own l. limits_text l };

    fn read(reader: &mut Reader<'_>) -> Read<Limits> {
        if reader.take("exactly ") {
            return Ok(exactly(reader.number()?));
        }
        let least = if reader.take("at least ") {
            reader.number()?
        } else {
            0
        };
        if !reader.take("at most ") && !reader.take(" and at most ") {
            return Ok(Limits { least, most: None });
        }
        let most = Some(reader.number()?);
        Ok(Limits { least, most })
    }

    fn write(&self, scope: Scope<'_>) -> Written {
        let least = self.least;
        match self.most {
            None => format!(in scope.alloc; "at least {least}"),
            Some(most) if least == most => format!(in scope.alloc; "exactly {most}"),
            Some(most) if least == 0 => format!(in scope.alloc; "at most {most}"),
            Some(most) => format!(in scope.alloc; "at least {least} and at most {most}"),
        }
    }
}

impl Reader<'_> {
    /// Reads a set of numbers.
    pub fn set(&mut self) -> Read<Set> {
        let spans = self.list(SPANS)?;
        Ok(Set { spans })
    }

    /// Reads a set of numbers behind its label, if the rest begins with the label.
    pub fn part(&mut self, label: &str) -> Read<Option<Set>> {
        if self.take(label) {
            Ok(Some(self.set()?))
        } else {
            Ok(None)
        }
    }

    /// Reads a period. Nothing stands for all moments.
    pub fn period(&mut self) -> Read<Span> {
        if self.take(" at ") {
            let at = self.number()?;
            return Ok(Span { from: at, to: at });
        }
        let from = if self.take(" from ") {
            self.number()?
        } else {
            0
        };
        let to = if self.take(" to ") {
            self.number()?
        } else {
            let _ = self.take(" on");
            u64::MAX
        };
        Ok(Span { from, to })
    }
}

/// Writes a set of numbers.
pub fn write_set(scope: Scope<'_>, set: &Set) -> Written
    ensures written { IfOk result (λ t. string_bytes t ≡ set_text set.now.spans.items) }
{
    write_list(scope, SPANS, set.spans.as_slice())
}

/// Writes a set of numbers behind its label, if there is a set.
pub fn write_part(scope: Scope<'_>, label: &str, set: &Option<Set>) -> Written
    ensures written { IfOk result (λ t. string_bytes t ≡ part_text label.now set.now) }
{
    let Some(set) = set else {
        return Ok(String::new(scope.alloc));
    };
    let set = write_set(scope, set)?;
    format!(in scope.alloc; "{label}{set}")
}

/// Writes a period. Nothing stands for all moments.
pub fn write_period(scope: Scope<'_>, when: Span) -> Written
    ensures written { IfOk result (λ t. string_bytes t ≡ period_text when) }
{
    let Span { from, to } = when;
    if from == to {
        format!(in scope.alloc; " at {from}")
    } else if to < u64::MAX {
        format!(in scope.alloc; " from {from} to {to}")
    } else if from == 0 {
        Ok(String::new(scope.alloc))
    } else {
        format!(in scope.alloc; " from {from} on")
    }
}

/// Returns the singular of a noun if the number is 1, and the plural otherwise.
pub fn noun(number: u64, one: &'static str, many: &'static str) -> &'static str
    ensures value { result.now ≡ noun number one.now many.now }
{
    if number == 1 { one } else { many }
}

/// Returns whether the limits want exactly this number.
pub fn is_all(limits: Limits, number: u64) -> bool
    ensures value { result ≡ is_all limits number }
{
    match limits.most {
        None => false,
        Some(most) => limits.least == number && most == number,
    }
}

/// The last number in the text of limits. It decides whether the noun behind it is in the singular.
pub fn shown_number(limits: Limits) -> u64
    ensures value { result ≡ shown_number limits }
{
    limits.most.unwrap_or(limits.least)
}
