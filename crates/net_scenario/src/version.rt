//! Versions of the format of scenarios.
ghost use Rattle.std.specs.Prelude.{◌≡◌};
ghost use Rattle.net_scenario.specs.Rules.{has_come};

/// A version of the format. The second version has all keys of the first, and more.
#[derive(Clone, Copy, Debug, PartialEq, Eq)]
pub enum Version {
    First,
    Second,
}

impl Version {
    /// Returns `true` if this version has the keys that version `since` introduced.
    pub fn has(self, since: Version) -> bool
        ensures value { result ≡ has_come since self }
    {
        match (since, self) {
            (Version::Second, Version::First) => false,
            _ => true,
        }
    }
}
