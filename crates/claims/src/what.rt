//! What a line of a trace says: its kind, and its parts.
ghost use Rattle.std.specs.Prelude.{◌≡◌};
ghost use Rattle.claims.specs.Whats.{is_of, said_by, nothing, about, about_packet};

use program_tree::{Proc, Target};
use trace_lines::What;

/// A kind of lines.
#[derive(Clone, Copy)]
pub enum LineKind {
    Start,
    Leave,
    Post,
    Full,
    Take,
    Drop,
    Print,
    Busy,
    Halt,
    Send,
    Recv,
    Lost,
    Deaf,
    Collide,
    Boots,
}

/// The parts of a line: the process or processes that it is about, the serial of an event, the number of an event, the
/// sender of a packet, the number of a packet, and a value.
#[derive(Clone, Copy)]
pub struct Said {
    pub target: Option<Target>,
    pub serial: Option<u64>,
    pub event: Option<u64>,
    pub sender: Option<u64>,
    pub packet: Option<u64>,
    pub value: Option<u64>,
}

impl LineKind {
    /// Returns whether a line with this event is of the kind.
    pub fn is_of(self, what: &What) -> bool
        ensures value { result ≡ is_of self what.now }
    {
        match self {
            LineKind::Start => matches!(what, What::Start(_)),
            LineKind::Leave => matches!(what, What::Leave(_)),
            LineKind::Post => matches!(what, What::Post(_, _, _, _)),
            LineKind::Full => matches!(what, What::Full(_, _, _)),
            LineKind::Take => matches!(what, What::Take(_, _)),
            LineKind::Drop => matches!(what, What::Drop(_, _)),
            LineKind::Print => matches!(what, What::Print(_, _)),
            LineKind::Busy => matches!(what, What::Busy(_)),
            LineKind::Halt => matches!(what, What::Halt),
            LineKind::Send => matches!(what, What::Send(_, _)),
            LineKind::Recv => matches!(what, What::Recv(_, _, _)),
            LineKind::Lost => matches!(what, What::Lost(_, _)),
            LineKind::Deaf => matches!(what, What::Deaf(_, _)),
            LineKind::Collide => matches!(what, What::Collide(_, _)),
            LineKind::Boots => matches!(what, What::Boots),
        }
    }
}

impl Said {
    fn nothing() -> Said
        ensures value { result ≡ nothing }
    {
        Said {
            target: None,
            serial: None,
            event: None,
            sender: None,
            packet: None,
            value: None,
        }
    }

    fn about(process: Proc) -> Said
        ensures value { result ≡ about process }
    {
        Said {
            target: Some(Target::One(process)),
            ..Said::nothing()
        }
    }

    fn about_packet(sender: u16, number: u64) -> Said
        ensures value { result ≡ about_packet sender number }
    {
        Said {
            sender: Some(u64::from(sender)),
            packet: Some(number),
            ..Said::nothing()
        }
    }

    /// The parts of a line.
    pub fn by(what: &What) -> Said
        ensures value { result ≡ said_by what.now }
    {
        match what {
            What::Start(p) | What::Leave(p) | What::Busy(p) => Said::about(*p),
            What::Post(n, t, e, w) => Said {
                target: Some(*t),
                serial: Some(*n),
                event: Some(u64::from(*e)),
                value: Some(u64::from(*w)),
                ..Said::nothing()
            },
            What::Full(t, e, w) => Said {
                target: Some(*t),
                event: Some(u64::from(*e)),
                value: Some(u64::from(*w)),
                ..Said::nothing()
            },
            What::Take(n, p) | What::Drop(n, p) => Said {
                serial: Some(*n),
                ..Said::about(*p)
            },
            What::Print(p, v) => Said {
                value: Some(u64::from(*v)),
                ..Said::about(*p)
            },
            What::Halt | What::Boots => Said::nothing(),
            What::Send(n, v) => Said {
                packet: Some(*n),
                value: Some(u64::from(*v)),
                ..Said::nothing()
            },
            What::Recv(f, n, v) => Said {
                value: Some(u64::from(*v)),
                ..Said::about_packet(*f, *n)
            },
            What::Lost(f, n) | What::Deaf(f, n) | What::Collide(f, n) => {
                Said::about_packet(*f, *n)
            }
        }
    }
}
