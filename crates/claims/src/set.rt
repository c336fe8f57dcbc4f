//! Sets of numbers.
ghost use Rattle.std.specs.Prelude.{◌≡◌};
ghost use Rattle.claims.specs.Sets.{is_in, has, wants, is_this};

/// The numbers from one to another, both included.
#[derive(Clone, Copy)]
pub struct Span {
    pub from: u64,
    pub to: u64,
}

/// The numbers that are in one of some spans.
#[derive(Drop)]
pub struct Set {
    pub spans: Vec<Span>,
}

impl Span {
    /// Returns whether a number is in the span.
    pub fn has(&self, number: u64) -> bool
        ensures value { result ≡ is_in self.now number }
    {
        self.from <= number && number <= self.to
    }
}

impl Set {
    /// Returns whether a number is in one of the spans.
    pub fn has(&self, number: u64) -> bool
        ensures value { result ≡ has self.now number }
    {
        self.spans.iter().any(|span| span.has(number))
    }
}

/// Returns whether a number is wanted: no set wants any number, and even none; a set wants the numbers in it.
pub fn wants(wanted: &Option<Set>, number: Option<u64>) -> bool
    ensures value { result ≡ wants wanted.now number }
{
    match wanted {
        None => true,
        Some(set) => match number {
            None => false,
            Some(number) => set.has(number),
        },
    }
}

/// Returns whether there is a number, and it is this one.
pub(crate) fn is_this(wanted: u64, number: Option<u64>) -> bool
    ensures value { result ≡ is_this wanted number }
{
    match number {
        None => false,
        Some(number) => number == wanted,
    }
}
