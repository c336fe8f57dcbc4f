//! Writes words into a slice that has room for them, from a place on. Each function returns the place after its word.
ghost use Rattle.std.specs.Prelude.{◌≡◌, ◌<◌, ◌≤◌, ◌+◌, ◌/◌, ◌%◌, [], ◌∷◌, ◌++◌, length, take, decimal};
ghost use Rattle.trace_printer.specs.Words.{arrival_word};

use crate::short::SHORT;
use itoa::write_digits;

/// Writes a byte.
#[inline(always)]
pub fn put_byte(room: &mut [u8], at: usize, byte: u8) -> usize
    requires fits { at + 1 ≤ length room.old }
    ensures put { take result room.new ≡ take at room.old ++ byte ∷ [] }
    ensures end { result ≡ at + 1 }
{
    room[at] = byte;
    at + 1
}

/// Writes a text whose length is from `N` to twice `N` bytes: its first `N` bytes and its last `N` bytes, which may
/// overlap.
#[inline(always)]
fn put_ends<const N: usize>(room: &mut [u8], at: usize, text: &[u8]) -> usize
    requires size { (N ≤ length text.now) × (length text.now ≤ N + N) }
    requires room { at + length text.now ≤ length room.old }
    ensures put { take result room.new ≡ take at room.old ++ text.now }
    ensures end { result ≡ at + length text.now }
{
    let end = at + text.len();
    room[at..at + N].copy_from_slice(&text[..N]);
    room[end - N..end].copy_from_slice(&text[text.len() - N..]);
    end
}

/// Writes a text. It copies a short text without a call, because a call would take longer than the copy.
#[inline(always)]
pub fn put_text(room: &mut [u8], at: usize, text: &str) -> usize
    requires fits { at + length text.now ≤ length room.old }
    ensures put { take result room.new ≡ take at room.old ++ text.now }
    ensures end { result ≡ at + length text.now }
{
    let text = text.as_bytes();
    match text.len() {
        0 => at,
        1 => put_ends::<1>(room, at, text),
        2..=3 => put_ends::<2>(room, at, text),
        4..=7 => put_ends::<4>(room, at, text),
        8..=16 => put_ends::<8>(room, at, text),
        len => {
            room[at..at + len].copy_from_slice(text);
            at + len
        }
    }
}

/// Returns the number of digits of a number.
fn digits(number: u64) -> usize
    ensures value { result ≡ length (decimal number) }
    ensures bounded { result ≤ 20 }
{
    let mut left = number;
    let mut count = 1;
    while left >= 10 {
        left /= 10;
        count += 1;
    }
    count
}

/// Writes a number of `count` digits.
#[inline(always)]
fn put_digits(room: &mut [u8], at: usize, number: u64, count: usize) -> usize
    requires count { count ≡ length (decimal number) }
    requires room { at + count ≤ length room.old }
    ensures put { take result room.new ≡ take at room.old ++ decimal number }
    ensures end { result ≡ at + count }
{
    let end = at + count;
    let _ = write_digits(number, room, end);
    end
}

/// Writes a number below a thousand: all four bytes of its entry in the table. The bytes after its digits are beyond
/// the place that is returned.
#[inline(always)]
fn put_short_number(room: &mut [u8], at: usize, number: u64) -> usize
    requires short_fits { (number < 1000) × (at + 4 ≤ length room.old) }
    ensures put { take result room.new ≡ take at room.old ++ decimal number }
    ensures end { result ≡ at + length (decimal number) }
    ensures bounded { result ≤ at + 3 }
{
    let place = number as usize * 4;
    let (first, second, third) = (SHORT[place], SHORT[place + 1], SHORT[place + 2]);
    let count = SHORT[place + 3];
    room[at] = first;
    room[at + 1] = second;
    room[at + 2] = third;
    room[at + 3] = count;
    at + (usize::from(count) - usize::from(b'0'))
}

/// Returns the last digit of a number as a byte of text.
#[inline(always)]
fn last_digit(number: u64) -> u8
    ensures digit { result ≡ 48 + number % 10 }
{
    b'0' + (number % 10) as u8
}

/// Writes a number of four digits: the first three from the table, and then the last. There are always three digits
/// before the last, so its place is known without the length in the table.
#[inline(always)]
fn put_four_digits(room: &mut [u8], at: usize, number: u64) -> usize
    requires size { (1000 ≤ number) × (number < 10000) }
    requires room { at + 4 ≤ length room.old }
    ensures put { take result room.new ≡ take at room.old ++ decimal number }
    ensures end { result ≡ at + 4 }
{
    let _ = put_short_number(room, at, number / 10);
    put_byte(room, at + 3, last_digit(number))
}

/// Writes the last three digits of a number, with leading zeros. Entries of the table have no leading zeros. So the
/// entry of 100 plus the last two digits is written: a 1, and then these two digits. The first of the three digits
/// then replaces the 1.
#[inline(always)]
fn put_last_three(room: &mut [u8], at: usize, number: u64) -> usize
    requires fits { at + 4 ≤ length room.old }
    ensures put { take result room.new ≡ take at room.old
        ++ (48 + number / 100 % 10) ∷ (48 + number / 10 % 10) ∷ (48 + number % 10) ∷ [] }
    ensures end { result ≡ at + 3 }
{
    let _ = put_short_number(room, at, 100 + number % 100);
    room[at] = last_digit(number / 100);
    at + 3
}

/// Writes a number of four to six digits: its thousands from the table, and then the last three digits.
#[inline(always)]
fn put_thousands(room: &mut [u8], at: usize, number: u64) -> usize
    requires size { (1000 ≤ number) × (number < 1000000) }
    requires room { at + 7 ≤ length room.old }
    ensures put { take result room.new ≡ take at room.old ++ decimal number }
    ensures end { result ≤ at + 6 }
{
    let end = put_short_number(room, at, number / 1_000);
    put_last_three(room, end, number)
}

/// Writes a number that isn't below a thousand.
#[inline(never)]
fn put_long_number(room: &mut [u8], at: usize, number: u64) -> usize
    requires long_fits { (1000 ≤ number) × (at + 20 ≤ length room.old) }
    ensures put { take result room.new ≡ take at room.old ++ decimal number }
    ensures end { result ≤ at + 20 }
{
    if number < 10_000 {
        put_four_digits(room, at, number)
    } else if number < 1_000_000 {
        put_thousands(room, at, number)
    } else {
        put_digits(room, at, number, digits(number))
    }
}

/// Writes a number. Most numbers are below a thousand, and the code for these is inlined. (If the code for longer
/// numbers were inlined too, the function that appends a line of a trace would be too large to be inlined.)
#[inline(always)]
pub fn put_number(room: &mut [u8], at: usize, number: u64) -> usize
    requires fits { at + 20 ≤ length room.old }
    ensures put { take result room.new ≡ take at room.old ++ decimal number }
    ensures end { result ≤ at + 20 }
{
    if number < 1_000 {
        put_short_number(room, at, number)
    } else {
        put_long_number(room, at, number)
    }
}

/// Writes the moment at which a copy arrives, or `lost` if it doesn't arrive.
pub fn put_arrival(room: &mut [u8], at: usize, arrival: Option<u64>) -> usize
    requires fits { at + 20 ≤ length room.old }
    ensures put { take result room.new ≡ take at room.old ++ arrival_word arrival }
    ensures end { result ≤ at + 20 }
{
    match arrival {
        Some(moment) => put_number(room, at, moment),
        None => put_text(room, at, "lost"),
    }
}

/// Writes a space and a text.
#[inline(always)]
pub fn put_spaced(room: &mut [u8], at: usize, text: &str) -> usize
    requires fits { at + 1 + length text.now ≤ length room.old }
    ensures put { take result room.new ≡ take at room.old ++ 32 ∷ text.now }
    ensures end { result ≡ at + 1 + length text.now }
{
    let at = put_byte(room, at, b' ');
    put_text(room, at, text)
}

/// Writes a space and a number.
#[inline(always)]
pub fn put_spaced_number(room: &mut [u8], at: usize, number: u64) -> usize
    requires fits { at + 21 ≤ length room.old }
    ensures put { take result room.new ≡ take at room.old ++ 32 ∷ decimal number }
    ensures end { result ≤ at + 21 }
{
    let at = put_byte(room, at, b' ');
    put_number(room, at, number)
}
