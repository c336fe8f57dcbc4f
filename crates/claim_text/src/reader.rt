//! The rest of a line that is yet to be read.
ghost use Rattle.std.specs.Prelude.{◌≤◌, IfOk};

use crate::error::Unread;
use crate::part::{Part, Read, Scope, Words};

/// What is left of a line, and the scope of the case that is read.
#[derive(Clone, Copy)]
pub struct Reader<'a> {
    pub scope: Scope<'a>,
    pub rest: &'a [u8],
}

impl Reader<'_> {
    /// Takes these words, if the rest begins with them.
    pub fn take(&mut self, words: &str) -> bool {
        match self.rest.strip_prefix(words.as_bytes()) {
            Some(rest) => {
                self.rest = rest;
                true
            }
            None => false,
        }
    }

    /// Takes one of two words, and returns whether it is the first one.
    pub fn take_either(&mut self, first: &str, second: &str) -> Read<bool> {
        if self.take(first) {
            Ok(true)
        } else if self.take(second) {
            Ok(false)
        } else {
            Err(Unread::Unexpected)
        }
    }

    /// Takes words that have to be there.
    pub fn expect(&mut self, words: &str) -> Read<()> {
        self.take_either(words, words)?;
        Ok(())
    }

    fn digit(&mut self) -> Option<u64> {
        match self.rest {
            [byte, rest @ ..] if byte.is_ascii_digit() => {
                self.rest = rest;
                Some(u64::from(*byte - b'0'))
            }
            _ => None,
        }
    }

    /// Reads a number; the greatest one for a greater one.
    pub fn number(&mut self) -> Read<u64> {
        let Some(mut number) = self.digit() else {
            return Err(Unread::Unexpected);
        };
        for _ in 0..self.rest.len() {
            let Some(digit) = self.digit() else { break };
            number = number.saturating_mul(10).saturating_add(digit);
        }
        Ok(number)
    }

    /// Reads a number; this one for a greater one.
    pub fn number_up_to(&mut self, most: u64) -> Read<u64>
        ensures within { IfOk result (λ n. n ≤ most) }
    {
        Ok(self.number()?.min(most))
    }

    /// Reads a list of parts.
    pub fn list<T: Part>(&mut self, words: Words) -> Read<Vec<T>> {
        let mut parts = Vec::new(self.scope.alloc);
        if self.take(words.none) {
            return Ok(parts);
        }
        self.expect(words.before)?;
        for _ in 0..self.rest.len() {
            parts.push(T::read(self)?)?;
            if !self.take(words.between) {
                break;
            }
        }
        Ok(parts)
    }
}
