//! What claims count.
ghost use Rattle.std.specs.Prelude.{◌≡◌, string_bytes, IfOk};
ghost use Rattle.claim_text.specs.CountText.{mote_or_motes, motes_text, lines_text, fate_text, count_text};

use crate::error::Unread;
use crate::numbers::{noun, write_period, write_set};
use crate::order::{is_plain, write_order};
use crate::part::{Part, Read, Scope, Written};
use crate::reader::Reader;
use claims::{Copies, CopyFate, Count, Deed, Lines, Packets, Set, Span};

impl Reader<'_> {
    fn to_motes(&mut self, word: &str) -> Read<Option<Set>> {
        if !self.take(word) {
            return Ok(None);
        }
        self.take_either(" motes ", " mote ")?;
        Ok(Some(self.set()?))
    }

    fn lines(&mut self) -> Read<Count> {
        let deed = Deed::read(self)?;
        let order = self.order(false)?;
        Ok(Count::Lines(Lines { deed, order }))
    }

    fn packets(&mut self) -> Read<Count> {
        let sender = self.to_motes(" by")?;
        let when = self.period()?;
        Ok(Count::Packets(Packets { sender, when }))
    }

    fn copies(&mut self) -> Read<Count> {
        let to = self.to_motes(" to")?;
        let fate = if self.take_either(" lost by the medium or due by ", " sent")? {
            CopyFate::Due(self.number()?)
        } else {
            let when = self.period()?;
            self.expect(" and lost by the medium")?;
            CopyFate::Lost(when)
        };
        Ok(Count::Copies(Copies { to, fate }))
    }

    /// Reads what is counted.
    pub fn count(&mut self) -> Read<Count> {
        if self.take("line in the report") || self.take("lines in the report") {
            Ok(Count::Rows)
        } else if self.take("copy left at the end") || self.take("copies left at the end") {
            Ok(Count::Left)
        } else if self.take("line ") || self.take("lines ") {
            self.lines()
        } else if self.take("packet sent") || self.take("packets sent") {
            self.packets()
        } else if self.take("copy") || self.take("copies") {
            self.copies()
        } else {
            Err(Unread::Unexpected)
        }
    }
}

fn mote_or_motes(spans: &[Span]) -> &'static str
    ensures value { result.now ≡ mote_or_motes spans.now }
{
    match spans {
        [span] if span.from == span.to => "mote",
        _ => "motes",
    }
}

/// Writes a set of motes behind a word, if there is a set.
fn write_motes(scope: Scope<'_>, word: &str, set: &Option<Set>) -> Written
    ensures written { IfOk result (λ t. string_bytes t ≡ motes_text word.now set.now) }
{
    let Some(set) = set else {
        return Ok(String::new(scope.alloc));
    };
    let motes = mote_or_motes(set.spans.as_slice());
    let set = write_set(scope, set)?;
    format!(in scope.alloc; " {word} {motes} {set}")
}

fn write_lines(scope: Scope<'_>, lines: &Lines, number: u64) -> Written
    ensures written { IfOk result (λ t. string_bytes t
        ≡ lines_text scope.entry.names.now scope.entry.own lines.now number) }
{
    let noun = noun(number, "line", "lines");
    let deed = lines.deed.write(scope)?;
    let order = match &lines.order {
        None => String::new(scope.alloc),
        Some(order) => write_order(scope, order, is_plain(order))?,
    };
    format!(in scope.alloc; "{noun} {deed}{order}")
}

fn write_fate(scope: Scope<'_>, fate: CopyFate) -> Written
    ensures written { IfOk result (λ t. string_bytes t ≡ fate_text fate) }
{
    match fate {
        CopyFate::Lost(when) => {
            let when = write_period(scope, when)?;
            format!(in scope.alloc; " sent{when} and lost by the medium")
        }
        CopyFate::Due(end) => format!(in scope.alloc; " lost by the medium or due by {end}"),
    }
}

/// Writes what is counted. The noun is in the singular if the number in front of it is 1.
pub fn write_count(scope: Scope<'_>, count: &Count, number: u64) -> Written
    ensures written { IfOk result (λ t. string_bytes t
        ≡ count_text scope.entry.names.now scope.entry.own count.now number) }
{
    let copies = noun(number, "copy", "copies");
    match count {
        Count::Lines(lines) => write_lines(scope, lines, number),
        Count::Packets(packets) => {
            let noun = noun(number, "packet", "packets");
            let by = write_motes(scope, "by", &packets.sender)?;
            let when = write_period(scope, packets.when)?;
            format!(in scope.alloc; "{noun} sent{by}{when}")
        }
        Count::Copies(counted) => {
            let to = write_motes(scope, "to", &counted.to)?;
            let fate = write_fate(scope, counted.fate)?;
            format!(in scope.alloc; "{copies}{to}{fate}")
        }
        Count::Left => format!(in scope.alloc; "{copies} left at the end"),
        Count::Rows => {
            let noun = noun(number, "line", "lines");
            format!(in scope.alloc; "{noun} in the report")
        }
    }
}
