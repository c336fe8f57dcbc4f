//! Writes faults.
ghost use Rattle.std.specs.Prelude.{Some};
ghost use Rattle.radio_faults.specs.FaultText.{fault_text, off_text, packet_text, restart_text, way_text};

use crate::Fault;
use std::fmt;

/// A fault in words.
#[derive(Clone, Copy)]
pub struct FaultText(pub Fault);

/// A packet in words.
#[derive(Clone, Copy)]
struct PacketText {
    sender: u16,
    number: u64,
}

/// The way to a mote in words.
#[derive(Clone, Copy)]
struct WayText(u16);

/// A mote that is off, in words, up to the first moment.
#[derive(Clone, Copy)]
struct OffText(u16);

/// A mote that restarts, in words.
#[derive(Clone, Copy)]
struct RestartText {
    mote: u16,
    at: u64,
}

impl fmt::Display for PacketText {
    ghost output = { λ t. Some (packet_text t.sender t.number) };

    fn fmt<W: fmt::Write>(&self, f: &mut fmt::Formatter<W>) -> fmt::Result {
        let PacketText { sender, number } = *self;
        write!(f, "packet {number} of mote {sender}")
    }
}

impl fmt::Display for WayText {
    ghost output = { λ t. Some (way_text t.0) };

    fn fmt<W: fmt::Write>(&self, f: &mut fmt::Formatter<W>) -> fmt::Result {
        let WayText(to) = *self;
        write!(f, " on the way to mote {to}")
    }
}

impl fmt::Display for OffText {
    ghost output = { λ t. Some (off_text t.0) };

    fn fmt<W: fmt::Write>(&self, f: &mut fmt::Formatter<W>) -> fmt::Result {
        let OffText(mote) = *self;
        write!(f, "mote {mote} is off from ")
    }
}

impl fmt::Display for RestartText {
    ghost output = { λ t. Some (restart_text t.mote t.at) };

    fn fmt<W: fmt::Write>(&self, f: &mut fmt::Formatter<W>) -> fmt::Result {
        let RestartText { mote, at } = *self;
        write!(f, "mote {mote} restarts at {at}")
    }
}

impl fmt::Display for FaultText {
    ghost output = { λ t. Some (fault_text t.0) };

    fn fmt<W: fmt::Write>(&self, f: &mut fmt::Formatter<W>) -> fmt::Result {
        match self.0 {
            Fault::Link(from, to) => write!(f, "link {from} to {to} is broken"),
            Fault::Silent(mote) => write!(f, "mote {mote} is silent"),
            Fault::Lost { sender, number, to } => {
                let packet = PacketText { sender, number };
                let way = WayText(to);
                write!(f, "{packet} is lost{way}")
            }
            Fault::LostToAll { sender, number } => {
                let packet = PacketText { sender, number };
                write!(f, "{packet} is lost")
            }
            Fault::Late {
                sender,
                number,
                to,
                by,
            } => {
                let packet = PacketText { sender, number };
                let way = WayText(to);
                write!(f, "{packet} is {by} late{way}")
            }
            Fault::Off {
                mote,
                from,
                until: None,
            } => {
                let off = OffText(mote);
                write!(f, "{off}{from} on")
            }
            Fault::Off {
                mote,
                from,
                until: Some(until),
            } => {
                if from == until {
                    let restart = RestartText { mote, at: until };
                    return write!(f, "{restart}");
                }
                let off = OffText(mote);
                write!(f, "{off}{from} to {until}")
            }
        }
    }
}
