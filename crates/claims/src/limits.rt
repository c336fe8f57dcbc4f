//! Limits of counts.
ghost use Rattle.std.specs.Prelude.{◌≡◌};
ghost use Rattle.claims.specs.Limits.{is_within};

/// The least number, and the greatest one; `None` if there is none.
#[derive(Clone, Copy)]
pub struct Limits {
    pub least: u64,
    pub most: Option<u64>,
}

impl Limits {
    /// Returns whether a number is within the limits.
    pub fn admits(&self, count: u128) -> bool
        ensures value { result ≡ is_within self.now count }
    {
        match self.most {
            Some(most) => u128::from(self.least) <= count && count <= u128::from(most),
            None => u128::from(self.least) <= count,
        }
    }
}
