//! The mote of a case.
ghost use Rattle.std.specs.Prelude.{◌≡◌};
ghost use Rattle.claim_text.specs.Subject.{only_mote, mote_of_count, mote_of_test, mote_of_tests};

use claims::{Case, Count, Deed, Test};

fn only_mote(deed: &Deed) -> Option<u16>
    ensures value { result ≡ only_mote deed.now.watches.items }
{
    match deed.watches.as_slice() {
        [watch] => Some(watch.mote),
        _ => None,
    }
}

fn mote_of_count(count: &Count) -> Option<u16>
    ensures value { result ≡ mote_of_count count.now }
{
    match count {
        Count::Lines(lines) => only_mote(&lines.deed),
        Count::Packets(_) | Count::Copies(_) | Count::Left | Count::Rows => None,
    }
}

fn mote_of_test(test: &Test) -> Option<u16>
    ensures value { result ≡ mote_of_test test.now }
{
    match test {
        Test::Count(count, _) => mote_of_count(count),
        Test::Ratio(ratio) => match mote_of_count(&ratio.high) {
            Some(mote) => Some(mote),
            None => mote_of_count(&ratio.low),
        },
        Test::Values(deed, _) | Test::AnyOrder(deed, _) | Test::Last(deed, _) => only_mote(deed),
        Test::Compared(comparison) => only_mote(&comparison.deed),
    }
}

/// The mote of a case: the only mote whose lines its first test is about, if there is one.
pub fn mote_of(case: &Case) -> Option<u16>
    ensures value { result ≡ mote_of_tests case.now.tests.items }
{
    match case.tests.as_slice() {
        [] => None,
        [test, ..] => mote_of_test(test),
    }
}
