//! The variables of a process.
ghost use Rattle.std.specs.Prelude.{◌≡◌, ◌<◌, length, slice_index, slice_set};
ghost use Rattle.program_tree.specs.Program.{code_of};

use arrayvec::ArrayVec;
use program_tree::ProcessText;
use std::marker::Model;

/// The greatest number of variables of a process.
const ROOM: usize = 64;

/// The values of a process's variables, by the numbers of their declarations. They persist from one run of the body to
/// the next.
#[derive(Drop)]
pub struct Vars {
    values: ArrayVec<u16, ROOM>,
}

impl Model for Vars {
    ghost use Rattle.std.specs.Prelude.{List, ℕ};

    ghost Value = { List ℕ };

    ghost view = { λ v. v.values.items };
}

impl Vars {
    /// The variables of a text, with their first values.
    pub fn new(text: &ProcessText) -> Vars
        ensures starts { result ≡ (code_of text.now).starts }
    {
        let mut values = ArrayVec::new();
        for start in text.starts() {
            values.push(*start);
        }
        Vars { values }
    }

    /// The value of a variable, by its number.
    pub fn get(&self, variable: u8) -> u16
        requires in_range { variable < length self.now }
        ensures value { result ≡ slice_index self.now variable }
    {
        self.values[usize::from(variable)]
    }

    /// The value of a variable of the text from which these variables were made. (Any other number would have the
    /// value 0.)
    pub(crate) fn value(&self, variable: u8) -> u16
        ensures value { result ≡ slice_index self.now variable }
    {
        let variable = usize::from(variable);
        if variable < self.values.len() {
            self.values[variable]
        } else {
            0
        }
    }

    /// Assigns a value to a variable, if there is such a variable.
    pub(crate) fn set(&mut self, variable: u8, value: u16)
        ensures after { self.new ≡ slice_set self.old variable value }
    {
        let variable = usize::from(variable);
        if variable < self.values.len() {
            self.values[variable] = value;
        }
    }
}
