//! Names in the order of their declaration.
ghost use Rattle.std.specs.Prelude.{◌≡◌, ◌==◌, ◌<◌, ◌≤◌, ◌++◌, [], ◌∷◌, List, length, None, OnOk, OnErr, IfSome};
ghost use Rattle.std.specs.Prelude.{slice_index_or, map, string_bytes};
ghost use Rattle.program_tree.specs.InScope.{place_in_names};

use indexmap::IndexSet;
use std::alloc::{AllocError, Global};
use std::marker::Model;

/// Distinct names, numbered from 0 in the order in which they were declared.
#[derive(Debug)]
pub struct Names {
    set: IndexSet<String>,
}

/// Implemented by hand: when the prover checks a function that owns names, it sees their drop as one call.
impl Drop for Names {
    fn drop(self) {
        let Names { set: _ } = self;
    }
}

impl Model for Names {
    ghost use Rattle.std.specs.Prelude.{List, ℕ, map, string_bytes};

    ghost Value = { List (List ℕ) };

    ghost view = { λ n. map string_bytes n.set.keys };
}

impl Names {
    /// An empty list of names.
    pub fn new(alloc: Global) -> Names
        ensures empty { result ≡ [] }
    {
        Names {
            set: IndexSet::new(alloc),
        }
    }

    /// The number of names.
    pub fn len(&self) -> usize
        ensures length { result ≡ length self.now }
    {
        self.set.len()
    }

    /// Returns `true` if there are no names.
    pub fn is_empty(&self) -> bool
        ensures value { result ≡ (length self.now == 0) }
    {
        self.set.is_empty()
    }

    /// The number of a name, if the name was declared.
    pub fn place_of(&self, name: &str) -> Option<usize>
        ensures place { result ≡ place_in_names self.now name.now }
        ensures within { IfSome result (λ i. i < length self.now) }
    {
        self.set.get_index_of(name)
    }

    /// The name with this number.
    pub fn get(&self, place: usize) -> &str
        requires in_range { place < length self.now }
        ensures name { result.now ≡ slice_index_or self.now place [] }
    {
        self.set.get_index(place).unwrap().as_str()
    }

    /// Declares a name that hasn't been declared yet.
    ///
    /// # Errors
    /// `AllocError` if an allocation fails.
    pub fn add(&mut self, alloc: Global, name: &str) -> Result<(), AllocError>
        requires not_yet_listed { place_in_names self.old name.now ≡ None }
        ensures ok { OnOk result (self.new ≡ self.old ++ name.now ∷ []) }
        ensures err { OnErr result (self.new ≡ self.old) }
    {
        let name = String::from_str(alloc, name)?;
        self.set.insert(name)?;
        Ok(())
    }
}
