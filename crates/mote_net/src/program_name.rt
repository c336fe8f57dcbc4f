//! Names of programs.
ghost use Rattle.std.specs.Prelude.{◌≡◌, IfOk, string_bytes};
ghost use Rattle.std.specs.Cmp.Rules.{comparing};
ghost use Rattle.std.proofs.Common.{rules};

use std::alloc::{AllocError, Global};
use std::marker::Model;

/// The name of a program in a scenario.
#[derive(Debug, Drop)]
pub struct ProgramName {
    text: String,
}

impl Model for ProgramName {
    ghost use Rattle.std.specs.Prelude.{List, ℕ, string_bytes};

    ghost Value = { List ℕ };

    ghost view = { λ n. string_bytes n.text };
}

impl PartialEq for ProgramName {
    ghost use Rattle.std.specs.Str.{bytes_eq};

    ghost eq = { bytes_eq };

    ghost laws = { Prim.search (comparing, rules) };

    fn eq(&self, other: &ProgramName) -> bool {
        self.text == other.text
    }
}

impl Eq for ProgramName {
    ghost laws = { Prim.search (comparing, rules) };
}

impl ProgramName {
    /// Makes a name from a text.
    ///
    /// # Errors
    /// If an allocation failed.
    pub fn from_str(alloc: Global, text: &str) -> Result<ProgramName, AllocError>
        ensures text { IfOk result (λ name. name ≡ text.now) }
    {
        let text = String::from_str(alloc, text)?;
        Ok(ProgramName { text })
    }

    /// The name as a text.
    pub fn as_str(&self) -> &str
        ensures text { result.now ≡ self.now }
    {
        self.text.as_str()
    }
}
