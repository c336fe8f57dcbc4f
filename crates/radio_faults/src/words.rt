//! Reads the words of a line.
ghost use Rattle.std.specs.Prelude.{◌≡◌, map, IfOk};
ghost use Rattle.radio_faults.specs.FaultLines.{begins_with_m, delay_of, later_of, mote_of, nearest, nearest_long, nearest_of};
ghost use Rattle.radio_faults.specs.FaultLines.{nearest_off, number_of, words_of};

use crate::Fault;
use std::alloc::{AllocError, Global};

/// Returns the words of a line.
///
/// # Errors
/// `AllocError` if an allocation fails.
pub fn words_of(alloc: Global, line: &[u8]) -> Result<Vec<&[u8]>, AllocError>
    ensures words { IfOk result (λ words. map (λ word. word.now) words.items ≡ words_of line.now) }
{
    line.split(|byte| *byte == b' ').collect(alloc)
}

/// Returns the number that the digits of a word write, if it fits.
fn number_of(word: &[u8]) -> u64
    ensures value { result ≡ number_of word.now }
{
    let mut number = 0u64;
    for byte in word {
        number = number
            .saturating_mul(10)
            .saturating_add(u64::from(byte.saturating_sub(b'0')));
    }
    number
}

/// Returns the number of a mote that a word writes, if it fits.
fn mote_of(word: &[u8]) -> u16
    ensures value { result ≡ mote_of word.now }
{
    let number = number_of(word);
    if number < 65535 { number as u16 } else { 65535 }
}

/// Returns the number of moments that a word writes, if it fits.
fn delay_of(word: &[u8]) -> u32
    ensures value { result ≡ delay_of word.now }
{
    let number = number_of(word);
    if number < 4_294_967_295 {
        number as u32
    } else {
        4_294_967_295
    }
}

/// Returns the fault of this packet that has as many words behind the packet, with their numbers.
fn nearest_of(sender: u16, number: u64, words: &[&[u8]]) -> Option<Fault>
    ensures value { result ≡ nearest_of sender number (map (λ word. word.now) words.now) }
{
    match words {
        [_, _] => Some(Fault::LostToAll { sender, number }),
        [_, _, _, _, _, _, _, to] => Some(Fault::Lost {
            sender,
            number,
            to: mote_of(to),
        }),
        [_, by, _, _, _, _, _, _, to] => Some(Fault::Late {
            sender,
            number,
            to: mote_of(to),
            by: delay_of(by),
        }),
        _ => None,
    }
}

/// Returns the moment that a word writes, or the next one after `from` if that is later.
fn later_of(from: u64, word: &[u8]) -> u64
    ensures value { result ≡ later_of from word.now }
{
    number_of(word).max(from.saturating_add(1))
}

/// Returns the fault of a mote that is off or restarts that has as many words behind the fifth, with their numbers.
fn nearest_off(mote: u16, fifth: &[u8], words: &[&[u8]]) -> Option<Fault>
    ensures value { result ≡ nearest_off mote fifth.now (map (λ word. word.now) words.now) }
{
    match words {
        [] => {
            let at = number_of(fifth);
            Some(Fault::Off {
                mote,
                from: at,
                until: Some(at),
            })
        }
        [from, _] => Some(Fault::Off {
            mote,
            from: number_of(from),
            until: None,
        }),
        [from, _, until] => {
            let from = number_of(from);
            Some(Fault::Off {
                mote,
                from,
                until: Some(later_of(from, until)),
            })
        }
        _ => None,
    }
}

/// Returns `true` if a word begins with the letter m, as `mote`.
fn begins_with_m(word: &[u8]) -> bool
    ensures value { result ≡ begins_with_m word.now }
{
    match word {
        [] => false,
        [first, ..] => *first == b'm',
    }
}

/// Returns the fault whose text has these words as the first, the second and the fifth, and as many more, with their
/// numbers.
#[tactic(auto, unfolding(crate::specs::FaultLines::nearest_long))]
fn nearest_long(first: &[u8], second: &[u8], fifth: &[u8], more: &[&[u8]]) -> Option<Fault>
    ensures value { result ≡ nearest_long first.now second.now fifth.now (map (λ word. word.now) more.now) }
{
    if begins_with_m(first) {
        nearest_off(mote_of(second), fifth, more)
    } else {
        nearest_of(mote_of(fifth), number_of(second), more)
    }
}

/// Returns the fault whose text begins the same and has as many words, with the numbers of these words.
pub fn nearest(words: &[&[u8]]) -> Option<Fault>
    ensures value { result ≡ nearest (map (λ word. word.now) words.now) }
{
    match words {
        [_, mote, _, _] => Some(Fault::Silent(mote_of(mote))),
        [_, from, _, to, _, _] => Some(Fault::Link(mote_of(from), mote_of(to))),
        [first, second, _, _, fifth, more @ ..] => nearest_long(first, second, fifth, more),
        _ => None,
    }
}
