//! Comparisons of two counts.
ghost use Rattle.std.specs.Prelude.{◌≡◌, ◌+◌, ◌*◌, ◌<◌, nat_le};
ghost use Rattle.mote_net.specs.Report.{report_of};
ghost use Rattle.claims.specs.Ratios.{is_in_ratio};

use crate::count::Count;
use mote_net::Report;

/// One number times a factor is at most another number times a factor; or below it, if the ratio is strict.
#[derive(Drop)]
pub struct Ratio {
    pub low: Count,
    pub low_times: u32,
    pub high: Count,
    pub high_times: u32,
    pub is_strict: bool,
}

/// A product, as `high * 2^64 + low`.
#[derive(Clone, Copy)]
struct Product {
    high: u128,
    low: u64,
}

fn times(number: u128, factor: u32) -> Product
    ensures product { result.high * 18446744073709551616 + result.low ≡ number * factor }
{
    let low = (number % 18446744073709551616) * factor as u128;
    let high = (number / 18446744073709551616) * factor as u128 + low / 18446744073709551616;
    Product {
        high,
        low: (low % 18446744073709551616) as u64,
    }
}

fn is_at_most(low: u128, low_times: u32, high: u128, high_times: u32) -> bool
    ensures value { result ≡ nat_le (low * low_times) (high * high_times) }
{
    let a = times(low, low_times);
    let b = times(high, high_times);
    a.high < b.high || a.high == b.high && a.low <= b.low
}

impl Ratio {
    /// Returns whether the two numbers in a report have the ratio.
    pub fn holds(&self, report: &Report) -> bool
        ensures value { result ≡ is_in_ratio self.now (report_of report.now) }
    {
        let low = self.low.number(report);
        let high = self.high.number(report);
        if self.is_strict {
            !is_at_most(high, self.high_times, low, self.low_times)
        } else {
            is_at_most(low, self.low_times, high, self.high_times)
        }
    }
}
