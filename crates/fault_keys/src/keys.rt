//! The faults that come into question, and their keys.

ghost use Rattle.std.specs.Prelude.{◌≡◌, ◌<◌, length};
ghost use Rattle.fault_keys.specs.Keys.{fault_of, fault_of_copy, unpacked};

use radio_faults::Fault;

/// What happens to a single copy.
#[derive(Clone, Copy, Debug, PartialEq, Eq)]
pub enum CopyFault {
    /// The copy is lost.
    Lost,
    /// The copy is so many moments late.
    Late(u32),
}

impl CopyFault {
    fn of(self, sender: u16, number: u64, to: u16) -> Fault
        ensures value { result ≡ fault_of_copy self sender number to }
    {
        match self {
            CopyFault::Lost => Fault::Lost { sender, number, to },
            CopyFault::Late(by) => Fault::Late {
                sender,
                number,
                to,
                by,
            },
        }
    }
}

/// The faults that come into question in a net.
#[derive(Drop)]
pub struct Candidates {
    /// Broken links, silent motes, and motes that are off.
    pub fixed: Vec<Fault>,
    /// What may happen to each copy.
    pub copies: Vec<CopyFault>,
}

impl Candidates {
    /// The fault with a key.
    pub fn fault(&self, key: u64) -> Fault
        ensures value { result ≡ fault_of self.now.fixed.items self.now.copies.items key }
    {
        let fixed = self.fixed.len() as u64;
        if key < fixed {
            self.fixed[key as usize]
        } else {
            unpacked(&self.copies, key - fixed)
        }
    }
}

/// The fault of a copy with this number.
fn unpacked(kinds: &[CopyFault], number: u64) -> Fault
    ensures value { result ≡ unpacked kinds.now number }
{
    let count = kinds.len() as u64;
    if count == 0 {
        return CopyFault::Lost.of(0, 0, 0);
    }
    let copy = number / count;
    let kind = kinds[(number % count) as usize];
    let sender = (copy / 65536 % 65536) as u16;
    let to = (copy % 65536) as u16;
    kind.of(sender, copy / 65536 / 65536, to)
}
