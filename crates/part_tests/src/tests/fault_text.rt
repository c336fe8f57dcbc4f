//! Tests of whole texts of faults.

use radio_faults::{Fault, FaultsError, read_faults};
use std::test::Fail;

/// Texts that aren't read, each with the line and the column of its error.
static REFUSED: [(&str, usize, usize); 12] = [
    ("link 1 to 2 is brken", 1, 18),
    ("link 1 to 65536 is broken", 1, 15),
    ("mote 3 is silent ", 1, 8),
    ("mote 03 is silent", 1, 6),
    ("# two\n\nmote 3 is silent\nmote x is silent\n", 4, 6),
    ("packet 3 of mote 2 is lost on the way to mote ", 1, 47),
    ("packet 18446744073709551616 of mote 2 is lost", 1, 27),
    (
        "packet 3 of mote 2 is 4294967296 late on the way to mote 5",
        1,
        32,
    ),
    ("mote 4 is off from 40 onwards", 1, 25),
    ("mote 4 is off from 80 to 40", 1, 26),
    ("mote 4 is off from 40 to 40", 1, 27),
    ("mote 4 restarts at x", 1, 20),
];

#[test]
fn each_kind_is_read(rt: HostRuntime) -> Result<(), Fail> {
    let text = "# of each kind\nlink 1 to 2 is broken\nmote 3 is silent\n\n\
        packet 3 of mote 2 is lost on the way to mote 5\npacket 18446744073709551615 of mote 65535 is lost\n\
        packet 3 of mote 2 is 4294967295 late on the way to mote 5\n\
        mote 4 is off from 40 on\nmote 4 is off from 40 to 18446744073709551615\n\
        mote 4 is off from 0 to 1\nmote 4 restarts at 18446744073709551615";
    let read = read_faults(rt.alloc(), text.as_bytes());
    let faults = read.ok().ok_or("refused")?;
    let wanted = [
        Fault::Link(1, 2),
        Fault::Silent(3),
        Fault::Lost {
            sender: 2,
            number: 3,
            to: 5,
        },
        Fault::LostToAll {
            sender: 65535,
            number: u64::MAX,
        },
        Fault::Late {
            sender: 2,
            number: 3,
            to: 5,
            by: u32::MAX,
        },
        Fault::Off {
            mote: 4,
            from: 40,
            until: None,
        },
        Fault::Off {
            mote: 4,
            from: 40,
            until: Some(u64::MAX),
        },
        Fault::Off {
            mote: 4,
            from: 0,
            until: Some(1),
        },
        Fault::Off {
            mote: 4,
            from: u64::MAX,
            until: Some(u64::MAX),
        },
    ];
    assert_eq!(rt; faults.as_slice(), wanted.as_slice());
    Ok(())
}

#[test]
fn other_lines_are_refused(rt: HostRuntime) -> Result<(), Fail> {
    for (text, line, column) in REFUSED.as_slice() {
        let refused = read_faults(rt.alloc(), text.as_bytes()).err();
        let wanted = FaultsError::NotAFault {
            line: *line,
            column: *column,
        };
        assert_eq!(rt; refused, Some(wanted));
    }
    Ok(())
}
