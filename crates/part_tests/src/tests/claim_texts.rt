//! Tests of the text of claims. What is read has the text that was read (this is proved), so each test shows that a text
//! is accepted, or where it isn't.

use claim_text::{ClaimsError, read_claims};
use program_tree::Names;
use std::alloc::{AllocError, Global};
use std::test::Fail;
use test_helpers::same_text;

/// Texts of claims, of each form of the language.
static ACCEPTED: &str = "\
# the examples of the documentation\n\
each of motes 1 to 24: at least 1 line \"print process flood value 1\" from 0 to 60\n\
exactly 0 of motes 0 to 24: at least 1 line \"halt\"\n\
mote 6: at least 1 line \"send\" and every line \"send\" is within 0 moments after some line \"recv\"\n\
mote 6: every line \"print process flood value 1\" is within 5 moments after some line \"send value 1\" of mote 0\n\
the net: exactly 75 packets sent from 0 to 160\n\
the net: 90 times the number of copies lost by the medium or due by 160 is at most 100 times the number of lines \"recv\" of motes 0 to 24 together\n\
each of motes 1 to 24: the lines \"print process flood\" have in order of time exactly the values 1, 2, 3\n\
each of these: mote 1: at least 1 line \"print process flood value 1\" at 43; motes 2, 6 to 8: at least 1 line \"print process flood value 1\" at 46\n\
the net: at most 5 lines \"send\" of motes 3 to 7 together from 40 to 160\n\
\n\
at least 20 and at most 24 of motes 1 to 24: exactly 0 lines \"lost or collide\" or \"deaf sender 3 or 5 to 7\" from 61 on\n\
mote 6: the last line \"print process leader\" has the value 24\n\
the net: exactly 0 copies to motes 1 to 3 sent from 0 to 60 and lost by the medium\n\
# each kind, part and relation\n\
the net: at least 0 lines \"start or leave or post or full or take or drop or print or busy or halt or send or recv or lost or deaf or collide or boots\" of no mote\n\
mote 3: exactly 1 line \"nothing process all serial 1 event 129 sender 2 packet 3 value none\"\n\
mote 3: exactly 2 lines \"post process etimer\" or \"take process ctimer\" or \"start process radio\" or \"busy process 7\"\n\
mote 3: exactly 2 lines \"send or print or send\" and exactly 2 lines of no kind\n\
mote 3: exactly 2 lines \"send\" after no line \"recv\" and exactly 2 lines \"send\" after some line \"recv\" of motes 3, 1, 5 together at 7 and of mote 9\n\
mote 3: exactly 2 lines \"send\" before every line \"recv\" and at most 1 line \"send\" not before every line \"recv\"\n\
mote 3: every line \"send\" from 7 on is before every line \"recv\" at 7\n\
mote 3: exactly 2 lines \"send\" within 1 moment before some line \"recv\" and exactly 2 lines \"send\" within 2 moments before no line \"recv\"\n\
mote 3: every line \"send\" is after some line \"recv\" and exactly 0 lines \"send\" after some line \"recv\"\n\
# several motes and periods\n\
the net: exactly 2 lines \"send\" of motes 3 to 4, 9, 11 to 13 together from 0 to 9 and of mote 1 at 7 and of motes 2, 1 together\n\
each of these: the net: always; the net: always\n\
# other counts\n\
the net: exactly 1 packet sent by mote 3\n\
the net: at most 1 packet sent by motes 3 or 5 to 7 at 9\n\
the net: exactly 1 copy lost by the medium or due by 0 and at least 1 copy to mote 1 sent and lost by the medium\n\
the net: exactly 1 copy left at the end and exactly 1 line in the report and at most 2000 lines in the report\n\
the net: 1 times the number of copies left at the end is less than 4294967295 times the number of lines in the report\n\
# values\n\
mote 3: the lines \"send\" have in any order exactly the values 1, 18446744073709551615\n\
mote 3: the lines \"send\" have in any order exactly no values and the lines \"send\" have in order of time exactly no values\n\
the net: the lines \"send\" of motes 1 to 3 together have in order of time exactly the values any of 1 or 3, none, 7, any of 4 to 9\n\
# values of other lines\n\
each of motes 1 to 3: the last line \"print process leader\" has the value of the last line \"print process leader\" of mote 0\n\
mote 0: the lines \"print process flood\" have in order of time exactly the values of the lines \"send\" of mote 1\n\
mote 0: the lines \"print process flood\" have in any order exactly the values of the lines \"send\" of motes 1 to 3 together\n\
the net: each value of the lines \"send\" of motes 1 to 3 together is the value of exactly 1 line \"print process flood\" of mote 0\n\
mote 0: each value of the lines \"print\" is the value of at most 1 line \"print\" and each value of the lines \"print\" is the value of at least 0 lines \"send\"\n\
# limits of cases\n\
at least 1 of these: no cases\n\
each of these: no cases\n\
exactly 1 of motes 3 to 4: exactly 0 lines \"halt\"\n\
at most 1 of motes 3 to 9: exactly 0 lines \"halt\"\n\
at least 0 of mote 3: exactly 0 lines \"halt\"\n\
exactly 1 of these: the net: always; the net: always; mote 3: exactly 0 lines \"halt\"; motes 3 to 4: exactly 1 line \"halt\"";

/// Lines that aren't claims, each with the column at which it is refused.
static REFUSED: [&str; 5] = [
    "mote 03: always",
    "mote 3: at least 1 lines \"halt\"",
    "motes 1 to 3: exactly 0 lines \"halt\"",
    "mote 3: the lines \"send\" have in order of time exactly the values 1 to 6, 3",
    "mote 3: the lines \"send\" have in order of time exactly the values any of 3",
];

fn named(alloc: Global) -> Result<Names, AllocError> {
    let mut names = Names::new(alloc);
    if names.place_of("flood").is_none() {
        names.add(alloc, "flood")?;
    }
    if names.place_of("leader").is_none() {
        names.add(alloc, "leader")?;
    }
    Ok(names)
}

fn write_result(text: &mut String, read: &Result<usize, ClaimsError>) {
    match read {
        Ok(count) => {
            let _ = write!(text, "{count}|");
        }
        Err(error) => {
            let _ = write!(text, "{error:?}|");
        }
    }
}

fn count_claims(alloc: Global, text: &str) -> Result<usize, ClaimsError> {
    let names = named(alloc)?;
    let claims = read_claims(alloc, &names, text.as_bytes())?;
    Ok(claims.len())
}

#[test]
fn accepts_texts(rt: HostRuntime) -> Result<(), Fail> {
    let mut text = String::new(rt.alloc());
    write_result(&mut text, &count_claims(rt.alloc(), ACCEPTED));
    same_text(text.as_str(), "42|")
}

#[test]
fn refuses_other_texts(rt: HostRuntime) -> Result<(), Fail> {
    let mut text = String::new(rt.alloc());
    for line in REFUSED.as_slice() {
        write_result(&mut text, &count_claims(rt.alloc(), line));
    }
    same_text(
        text.as_str(),
        "NotAClaim { line: 1, column: 1 }|NotAClaim { line: 1, column: 24 }|NotAClaim { line: 1, column: 1 }|\
         NotAClaim { line: 1, column: 67 }|NotAClaim { line: 1, column: 67 }|",
    )
}
