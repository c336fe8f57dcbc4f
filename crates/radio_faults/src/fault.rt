//! Faults.

ghost use Rattle.std.specs.Prelude.{◌≡◌};
ghost use Rattle.radio_faults.specs.Faults.{names};

/// A fault of a net: what happens to some of the copies on their way, or when a mote is off. A way is that from one mote to
/// another, in this direction. A packet has a number: that of the packets that its mote had sent before.
#[derive(Clone, Copy, Debug, PartialEq, Eq)]
pub enum Fault {
    /// The link from one mote to another is broken: each packet is lost on it.
    Link(u16, u16),
    /// The mote is silent: each of its packets is lost on its way to each mote. It hears other motes.
    Silent(u16),
    /// A packet is lost on its way to one mote.
    Lost {
        sender: u16,
        number: u64,
        to: u16,
    },
    /// A packet is lost on its way to each mote.
    LostToAll {
        sender: u16,
        number: u64,
    },
    /// A packet arrives at one mote so many moments later.
    Late {
        sender: u16,
        number: u64,
        to: u16,
        by: u32,
    },
    /// The mote is off from a moment up to another one, or from then on. While it is off, it takes no turns, and what
    /// arrives vanishes. At the other moment, which is the same or later, it boots again.
    Off {
        mote: u16,
        from: u64,
        until: Option<u64>,
    },
}

impl Fault {
    /// Returns `true` if the fault names the copy of packet `number` of mote `sender` for mote `to`.
    pub fn names(self, sender: u16, number: u64, to: u16) -> bool
        ensures value { result ≡ names self sender number to }
    {
        match self {
            Fault::Link(s, r) => s == sender && r == to,
            Fault::Silent(s) => s == sender,
            Fault::LostToAll {
                sender: s,
                number: n,
            } => s == sender && n == number,
            Fault::Lost {
                sender: s,
                number: n,
                to: r,
            }
            | Fault::Late {
                sender: s,
                number: n,
                to: r,
                by: _,
            } => s == sender && n == number && r == to,
            Fault::Off { .. } => false,
        }
    }
}
