//! Motes that are off, and boot again.

ghost use Rattle.std.specs.Prelude.{◌≡◌};
ghost use Rattle.radio_faults.specs.Off.{boot_by, boots, if_later, is_at, is_before, is_off, keeps_off, next_boot, sooner};

use crate::fault::Fault;

/// Returns `true` if there is no such moment, or if it is later than `moment`.
fn is_before(moment: u64, other: Option<u64>) -> bool
    ensures value { result ≡ is_before moment other }
{
    match other {
        Some(other) => moment < other,
        None => true,
    }
}

/// Returns `true` if there is such a moment, and it is `moment`.
fn is_at(moment: u64, other: Option<u64>) -> bool
    ensures value { result ≡ is_at moment other }
{
    match other {
        Some(other) => other == moment,
        None => false,
    }
}

/// The other moment, if it is later than `moment`.
fn if_later(moment: u64, other: Option<u64>) -> Option<u64>
    ensures value { result ≡ if_later moment other }
{
    match other {
        Some(other) => {
            if moment < other {
                return Some(other);
            }
            None
        }
        None => None,
    }
}

/// The sooner of two moments that may be none.
pub fn sooner(one: Option<u64>, other: Option<u64>) -> Option<u64>
    ensures value { result ≡ sooner one other }
{
    match (one, other) {
        (one, None) => one,
        (None, Some(other)) => Some(other),
        (Some(one), Some(other)) => Some(one.min(other)),
    }
}

/// Returns `true` if a mote is off at a moment because of this fault.
fn keeps_off(fault: Fault, number: u16, moment: u64) -> bool
    ensures value { result ≡ keeps_off fault number moment }
{
    match fault {
        Fault::Off { mote, from, until } => {
            mote == number && from <= moment && is_before(moment, until)
        }
        _ => false,
    }
}

/// Returns `true` if a mote is off at a moment.
pub fn is_off(faults: &[Fault], number: u16, moment: u64) -> bool
    ensures value { result ≡ is_off faults.now number moment }
{
    faults.iter().any(|fault| keeps_off(*fault, number, moment))
}

/// The moment at which a mote boots again because of this fault.
fn boot_by(fault: Fault, number: u16) -> Option<u64>
    ensures value { result ≡ boot_by fault number }
{
    match fault {
        Fault::Off {
            mote,
            from: _,
            until,
        } if mote == number => until,
        _ => None,
    }
}

/// Returns `true` if a mote boots again at a moment, unless it is off then.
pub fn boots(faults: &[Fault], number: u16, moment: u64) -> bool
    ensures value { result ≡ boots faults.now number moment }
{
    faults
        .iter()
        .any(|fault| is_at(moment, boot_by(*fault, number)))
}

/// The next moment, later than `moment`, at which a mote may boot again.
pub fn next_boot(faults: &[Fault], number: u16, moment: u64) -> Option<u64>
    ensures value { result ≡ next_boot faults.now number moment }
{
    let mut next = None;
    let mut left = faults.len();
    while left > 0 {
        left -= 1;
        next = sooner(next, if_later(moment, boot_by(faults[left], number)));
    }
    next
}
