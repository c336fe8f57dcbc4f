//! Tests.
ghost use Rattle.std.specs.Prelude.{◌≡◌, string_bytes, IfOk};
ghost use Rattle.claim_text.specs.TestText.{is_each, counted_text, times_text, ratio_text, compared_text, test_text};

use crate::counted::write_count;
use crate::error::Unread;
use crate::numbers::{exactly, is_all, noun, shown_number, write_set};
use crate::order::{is_plain, write_order};
use crate::part::{Part, Read, Scope, Words, Written, write_list};
use crate::reader::Reader;
use claims::{Comparison, Count, Deed, Limits, Lines, Order, Ratio, Test, Way};

const VALUES: Words = Words {
    none: "no values",
    before: "the values ",
    between: ", ",
};

impl Reader<'_> {
    fn each(&mut self) -> Read<Test> {
        let deed = Deed::read(self)?;
        self.expect(" is")?;
        let order = self.order(true)?;
        Ok(Test::Count(Count::Lines(Lines { deed, order }), exactly(0)))
    }

    fn times(&mut self) -> Read<u32> {
        let factor = self.number_up_to(u64::from(u32::MAX))? as u32;
        self.expect(" times the number of ")?;
        Ok(factor)
    }

    fn ratio(&mut self) -> Read<Ratio> {
        let low_times = self.times()?;
        let low = self.count()?;
        let is_strict = self.take_either(" is less than ", " is at most ")?;
        let high_times = self.times()?;
        let high = self.count()?;
        Ok(Ratio {
            low,
            low_times,
            high,
            high_times,
            is_strict,
        })
    }

    fn compared(&mut self, deed: Deed, way: Way) -> Read<Test> {
        let other = Deed::read(self)?;
        Ok(Test::Compared(Comparison { deed, way, other }))
    }

    fn listed(&mut self) -> Read<Test> {
        let deed = Deed::read(self)?;
        self.expect(" have in ")?;
        let in_time = self.take_either("order of time exactly ", "any order exactly ")?;
        if self.take("the values of the lines ") {
            let way = if in_time { Way::InTime } else { Way::AnyOrder };
            self.compared(deed, way)
        } else if in_time {
            Ok(Test::Values(deed, self.list(VALUES)?))
        } else {
            Ok(Test::AnyOrder(deed, self.list(VALUES)?))
        }
    }

    fn last(&mut self) -> Read<Test> {
        let deed = Deed::read(self)?;
        self.expect(" has the value ")?;
        if self.take("of the last line ") {
            self.compared(deed, Way::Last)
        } else {
            Ok(Test::Last(deed, self.set()?))
        }
    }

    fn each_value(&mut self) -> Read<Test> {
        let deed = Deed::read(self)?;
        self.expect(" is the value of ")?;
        let limits = Limits::read(self)?;
        self.take_either(" lines ", " line ")?;
        self.compared(deed, Way::Each(limits))
    }

    fn counted(&mut self) -> Read<Test> {
        let limits = Limits::read(self)?;
        self.expect(" ")?;
        Ok(Test::Count(self.count()?, limits))
    }
}

/// Returns whether a test says that each line has an order: no line has the order turned round.
fn is_each(order: &Order, limits: Limits) -> bool
    ensures value { result ≡ is_each order.now limits }
{
    is_all(limits, 0) && !is_plain(order)
}

fn write_counted(scope: Scope<'_>, count: &Count, limits: Limits) -> Written
    ensures written { IfOk result (λ t. string_bytes t
        ≡ counted_text scope.entry.names.now scope.entry.own count.now limits) }
{
    if let Count::Lines(
        Lines {
            deed,
            order: Some(order),
        },
    ) = count
    {
        if is_each(order, limits) {
            let deed = deed.write(scope)?;
            let order = write_order(scope, order, true)?;
            return format!(in scope.alloc; "every line {deed} is{order}");
        }
    }
    let number = limits.write(scope)?;
    let count = write_count(scope, count, shown_number(limits))?;
    format!(in scope.alloc; "{number} {count}")
}

fn write_times(scope: Scope<'_>, times: u32, count: &Count) -> Written
    ensures written { IfOk result (λ t. string_bytes t
        ≡ times_text scope.entry.names.now scope.entry.own times count.now) }
{
    let count = write_count(scope, count, 0)?;
    format!(in scope.alloc; "{times} times the number of {count}")
}

fn write_ratio(scope: Scope<'_>, ratio: &Ratio) -> Written
    ensures written { IfOk result (λ t. string_bytes t
        ≡ ratio_text scope.entry.names.now scope.entry.own ratio.now) }
{
    let low = write_times(scope, ratio.low_times, &ratio.low)?;
    let high = write_times(scope, ratio.high_times, &ratio.high)?;
    let relation = if ratio.is_strict {
        "less than"
    } else {
        "at most"
    };
    format!(in scope.alloc; "{low} is {relation} {high}")
}

fn write_compared(scope: Scope<'_>, comparison: &Comparison) -> Written
    ensures written { IfOk result (λ t. string_bytes t
        ≡ compared_text scope.entry.names.now scope.entry.own comparison.now) }
{
    let deed = comparison.deed.write(scope)?;
    let other = comparison.other.write(scope)?;
    match comparison.way {
        Way::Last => {
            format!(in scope.alloc; "the last line {deed} has the value of the last line {other}")
        }
        Way::InTime => {
            let way = "have in order of time exactly the values of";
            format!(in scope.alloc; "the lines {deed} {way} the lines {other}")
        }
        Way::AnyOrder => {
            let way = "have in any order exactly the values of";
            format!(in scope.alloc; "the lines {deed} {way} the lines {other}")
        }
        Way::Each(limits) => {
            let number = limits.write(scope)?;
            let noun = noun(shown_number(limits), "line", "lines");
            format!(in scope.alloc;
                "each value of the lines {deed} is the value of {number} {noun} {other}"
            )
        }
    }
}

impl Part for Test {
    ghost text = { test_text };

    fn read(reader: &mut Reader<'_>) -> Read<Test> {
        if reader.take("every line ") {
            reader.each()
        } else if reader.take("the lines ") {
            reader.listed()
        } else if reader.take("the last line ") {
            reader.last()
        } else if reader.take("each value of the lines ") {
            reader.each_value()
        } else if matches!(reader.rest, [byte, ..] if byte.is_ascii_digit()) {
            Ok(Test::Ratio(reader.ratio()?))
        } else {
            reader.counted()
        }
    }

    fn write(&self, scope: Scope<'_>) -> Written {
        match self {
            Test::Count(count, limits) => write_counted(scope, count, *limits),
            Test::Ratio(ratio) => write_ratio(scope, ratio),
            Test::Values(deed, sets) => {
                let deed = deed.write(scope)?;
                let values = write_list(scope, VALUES, sets.as_slice())?;
                format!(in scope.alloc; "the lines {deed} have in order of time exactly {values}")
            }
            Test::AnyOrder(deed, values) => {
                let deed = deed.write(scope)?;
                let values = write_list(scope, VALUES, values.as_slice())?;
                format!(in scope.alloc; "the lines {deed} have in any order exactly {values}")
            }
            Test::Last(deed, set) => {
                let deed = deed.write(scope)?;
                let set = write_set(scope, set)?;
                format!(in scope.alloc; "the last line {deed} has the value {set}")
            }
            Test::Compared(comparison) => write_compared(scope, comparison),
        }
    }
}
