//! Claims about a run of three motes in a row, worked out by hand. Mote 0 sends the value 1 at 40. Mote 1 gets it at 43,
//! prints it, and sends 2. At 46, motes 0 and 2 get this packet, and mote 2 prints 2 and sends 3. The packet of mote 2
//! reaches mote 1 at 49; its copy for mote 3 is lost.

use claims::{
    Break, Case, Claim, Comparison, Copies, CopyFate, Count, Deed, Found, Limits, LineKind, Lines,
    Order, Packets, Pattern, Ratio, Relation, Set, Span, Test, Watched, Way, break_of, holds,
};
use mote_net::{LogLine, Report};
use program_tree::Proc;
use radio_packet::{Fate, Sent};
use std::alloc::{AllocError, Global};
use std::test::Fail;
use test_helpers::same_text;
use trace_lines::{Line, What};

const FLOOD: Proc = Proc::Own(0);

static FIRST: [Line; 2] = [
    Line {
        at: 40,
        what: What::Send(0, 1),
    },
    Line {
        at: 46,
        what: What::Recv(1, 0, 2),
    },
];

static SECOND: [Line; 4] = [
    Line {
        at: 43,
        what: What::Recv(0, 0, 1),
    },
    Line {
        at: 43,
        what: What::Print(FLOOD, 1),
    },
    Line {
        at: 43,
        what: What::Send(0, 2),
    },
    Line {
        at: 49,
        what: What::Recv(2, 0, 3),
    },
];

static THIRD: [Line; 3] = [
    Line {
        at: 46,
        what: What::Recv(1, 0, 2),
    },
    Line {
        at: 46,
        what: What::Print(FLOOD, 2),
    },
    Line {
        at: 46,
        what: What::Send(0, 3),
    },
];

fn add_trace(alloc: Global, traces: &mut Vec<Vec<Line>>, lines: &[Line]) -> Result<(), AllocError> {
    let mut trace = Vec::new(alloc);
    trace.extend_from_slice(lines)?;
    traces.push(trace)?;
    Ok(())
}

fn flooding(alloc: Global) -> Result<Report, AllocError> {
    let mut report = Report {
        traces: Vec::new(alloc),
        medium: Vec::new(alloc),
        left: 0,
    };
    add_trace(alloc, &mut report.traces, FIRST.as_slice())?;
    add_trace(alloc, &mut report.traces, SECOND.as_slice())?;
    add_trace(alloc, &mut report.traces, THIRD.as_slice())?;
    Ok(report)
}

const ALL: Span = Span {
    from: 0,
    to: u64::MAX,
};

fn add_pattern(
    alloc: Global,
    patterns: &mut Vec<Pattern>,
    kind: LineKind,
) -> Result<(), AllocError> {
    let mut kinds = Vec::new(alloc);
    kinds.push(kind)?;
    patterns.push(Pattern {
        kinds,
        target: None,
        serial: None,
        event: None,
        sender: None,
        packet: None,
        value: None,
    })?;
    Ok(())
}

fn deed(alloc: Global, motes: &[u16], when: Span, kind: LineKind) -> Result<Deed, AllocError> {
    let mut deed = Deed {
        watches: Vec::new(alloc),
        patterns: Vec::new(alloc),
    };
    for mote in motes {
        deed.watches.push(Watched { mote: *mote, when })?;
    }
    add_pattern(alloc, &mut deed.patterns, kind)?;
    Ok(deed)
}

/// The relations of a line of mote 2 to the lines of another mote, and whether a line has them.
struct Tie {
    relation: Relation,
    mote: u16,
    is_send: bool,
}

static TIES: [Tie; 9] = [
    // Mote 0 sends at 40, six moments before 46.
    Tie {
        relation: Relation::Within(6),
        mote: 0,
        is_send: true,
    },
    Tie {
        relation: Relation::Within(5),
        mote: 0,
        is_send: true,
    },
    Tie {
        relation: Relation::After,
        mote: 1,
        is_send: true,
    },
    // Mote 2 sends at 46, further down in its trace.
    Tie {
        relation: Relation::After,
        mote: 2,
        is_send: true,
    },
    Tie {
        relation: Relation::NotBefore,
        mote: 2,
        is_send: true,
    },
    Tie {
        relation: Relation::Followed(0),
        mote: 2,
        is_send: true,
    },
    // Mote 0 receives at 46 too: neither line is before the other.
    Tie {
        relation: Relation::After,
        mote: 0,
        is_send: false,
    },
    Tie {
        relation: Relation::NotBefore,
        mote: 0,
        is_send: false,
    },
    Tie {
        relation: Relation::Within(0),
        mote: 0,
        is_send: false,
    },
];

/// The number of lines with which mote 2 prints that have such a relation.
fn count_tie(alloc: Global, report: &Report, tie: &Tie) -> Result<u128, AllocError> {
    let kind = if tie.is_send {
        LineKind::Send
    } else {
        LineKind::Recv
    };
    let event = deed(alloc, [tie.mote].as_slice(), ALL, kind)?;
    let lines = Lines {
        deed: deed(alloc, [2].as_slice(), ALL, LineKind::Print)?,
        order: Some(Order {
            relation: tie.relation,
            event,
            is_so: true,
        }),
    };
    Ok(lines.count(report))
}

#[test]
fn compares_moments(rt: HostRuntime) -> Result<(), Fail> {
    let report = flooding(rt.alloc())?;
    let mut text = String::new(rt.alloc());
    for tie in TIES.as_slice() {
        let count = count_tie(rt.alloc(), &report, tie)?;
        let _ = write!(text, "{count} ");
    }
    same_text(text.as_str(), "1 0 1 0 0 1 0 1 1 ")
}

/// The moments in which the print of mote 2, at 46, is looked for: it is the first, the last, after them, and before
/// them; and an empty period.
static SPANS: [Span; 5] = [
    Span { from: 46, to: 60 },
    Span { from: 40, to: 46 },
    Span { from: 0, to: 45 },
    Span { from: 47, to: 60 },
    Span { from: 47, to: 46 },
];

#[test]
fn looks_at_the_moments_of_a_period(rt: HostRuntime) -> Result<(), Fail> {
    let report = flooding(rt.alloc())?;
    let mut text = String::new(rt.alloc());
    for span in SPANS.as_slice() {
        let lines = Lines {
            deed: deed(rt.alloc(), [2].as_slice(), *span, LineKind::Print)?,
            order: None,
        };
        let count = lines.count(&report);
        let _ = write!(text, "{count} ");
    }
    same_text(text.as_str(), "1 1 0 0 0 ")
}

/// Adds the set of a number.
fn add_set(alloc: Global, sets: &mut Vec<Set>, number: u64) -> Result<(), AllocError> {
    let mut set = Set {
        spans: Vec::new(alloc),
    };
    set.spans.push(Span {
        from: number,
        to: number,
    })?;
    sets.push(set)?;
    Ok(())
}

fn have(alloc: Global, report: &Report, deed: &Deed, values: &[u64]) -> Result<bool, AllocError> {
    let mut sets = Vec::new(alloc);
    for value in values {
        add_set(alloc, &mut sets, *value)?;
    }
    Ok(deed.have_values(report, sets.as_slice()))
}

/// Whether the last value is one of the values from one to another.
fn last_is(
    alloc: Global,
    report: &Report,
    deed: &Deed,
    from: u64,
    to: u64,
) -> Result<bool, AllocError> {
    let mut set = Set {
        spans: Vec::new(alloc),
    };
    set.spans.push(Span { from, to })?;
    Ok(deed.last_has(report, &set))
}

/// The values that the motes receive are 1, 2, 2 and 3, in the order of the moments.
#[test]
fn merges_the_lines_of_motes(rt: HostRuntime) -> Result<(), Fail> {
    let report = flooding(rt.alloc())?;
    let heard = deed(rt.alloc(), [2, 0, 1].as_slice(), ALL, LineKind::Recv)?;
    let mut text = String::new(rt.alloc());
    let right = have(rt.alloc(), &report, &heard, [1, 2, 2, 3].as_slice())?;
    let by_mote = have(rt.alloc(), &report, &heard, [2, 1, 3, 2].as_slice())?;
    let short = have(rt.alloc(), &report, &heard, [1, 2, 2].as_slice())?;
    let _ = write!(text, "{right} {by_mote} {short} ");
    let mixed = heard.have_in_any_order(&report, [3, 2, 1, 2].as_slice());
    let other = heard.have_in_any_order(&report, [3, 1, 1, 2].as_slice());
    let _ = write!(text, "{mixed} {other} ");
    let last = last_is(rt.alloc(), &report, &heard, 3, 9)?;
    let not_last = last_is(rt.alloc(), &report, &heard, 0, 2)?;
    let _ = write!(text, "{last} {not_last}");
    same_text(text.as_str(), "true false false true false true false")
}

/// Adds a case: the mote has lines of this kind by this moment, as many as the limits say.
fn add_case(
    alloc: Global,
    cases: &mut Vec<Case>,
    mote: u16,
    kind: LineKind,
    by: u64,
    limits: Limits,
) -> Result<(), AllocError> {
    let deed = deed(alloc, [mote].as_slice(), Span { from: 0, to: by }, kind)?;
    let mut case = Case {
        tests: Vec::new(alloc),
    };
    case.tests.push(Test::Count(Count::Lines(Lines { deed, order: None }), limits))?;
    cases.push(case)?;
    Ok(())
}

const SOME: Limits = Limits {
    least: 1,
    most: None,
};

const AT_MOST_ONE: Limits = Limits {
    least: 0,
    most: Some(1),
};

const NONE: Limits = Limits {
    least: 0,
    most: Some(0),
};

const BOTH: Limits = Limits {
    least: 2,
    most: Some(2),
};

fn write_line(text: &mut String, line: Option<Found>) {
    if let Some(line) = line {
        let _ = write!(text, " line {} {} {}", line.mote, line.place, line.line.at);
    }
}

fn write_values(text: &mut String, label: &str, values: &[u64]) {
    for value in values {
        let _ = write!(text, " {label} {value}");
    }
}

/// Writes down whether a claim holds, and otherwise where it is broken.
fn write_answer(
    alloc: Global,
    text: &mut String,
    report: &Report,
    claim: &Claim,
) -> Result<(), AllocError> {
    let is_kept = holds(claim, report);
    let _ = write!(text, "{is_kept}");
    match break_of(alloc, claim, report)? {
        None => {}
        Some(Break::Fewer) => {
            let _ = write!(text, " fewer");
        }
        Some(Break::Missing(witness)) => {
            let _ = write!(text, " case {} test {}", witness.case, witness.broken.test);
            write_line(text, witness.broken.line);
            let found = &witness.broken.difference;
            write_values(text, "missing", found.missing.as_slice());
            write_values(text, "superfluous", found.superfluous.as_slice());
        }
        Some(Break::Spare(spare)) => {
            let _ = write!(text, " spare {}", spare.case);
            write_line(text, spare.line);
        }
    }
    let _ = write!(text, "|");
    Ok(())
}

/// Writes down the answer to a claim on motes 1 and 2.
fn write_claim(
    alloc: Global,
    text: &mut String,
    report: &Report,
    kind: LineKind,
    by: u64,
    lines: Limits,
    limits: Limits,
) -> Result<(), AllocError> {
    let mut claim = Claim {
        limits,
        cases: Vec::new(alloc),
    };
    add_case(alloc, &mut claim.cases, 1, kind, by, lines)?;
    add_case(alloc, &mut claim.cases, 2, kind, by, lines)?;
    write_answer(alloc, text, report, &claim)
}

#[test]
fn shows_where_a_claim_is_broken(rt: HostRuntime) -> Result<(), Fail> {
    let report = flooding(rt.alloc())?;
    let mut text = String::new(rt.alloc());
    write_claim(
        rt.alloc(),
        &mut text,
        &report,
        LineKind::Print,
        46,
        SOME,
        BOTH,
    )?;
    write_claim(
        rt.alloc(),
        &mut text,
        &report,
        LineKind::Print,
        45,
        SOME,
        BOTH,
    )?;
    write_claim(
        rt.alloc(),
        &mut text,
        &report,
        LineKind::Recv,
        60,
        AT_MOST_ONE,
        BOTH,
    )?;
    write_claim(
        rt.alloc(),
        &mut text,
        &report,
        LineKind::Send,
        43,
        SOME,
        NONE,
    )?;
    let none = Claim {
        limits: SOME,
        cases: Vec::new(rt.alloc()),
    };
    write_answer(rt.alloc(), &mut text, &report, &none)?;
    same_text(
        text.as_str(),
        "true|false case 1 test 0|false case 0 test 0 line 1 3 49|false spare 0 line 1 2 43|false fewer|",
    )
}

fn add_packet(
    alloc: Global,
    log: &mut Vec<LogLine>,
    at: u64,
    sender: u16,
    fate: Fate,
) -> Result<(), AllocError> {
    let mut packet = LogLine {
        sent: Sent {
            at,
            sender,
            number: 0,
            value: 1,
        },
        fates: Vec::new(alloc),
    };
    packet.fates.push(fate)?;
    log.push(packet)?;
    Ok(())
}

fn due(end: u64) -> Count {
    Count::Copies(Copies {
        to: None,
        fate: CopyFate::Due(end),
    })
}

fn lost(when: Span) -> Count {
    Count::Copies(Copies {
        to: None,
        fate: CopyFate::Lost(when),
    })
}

/// Writes down whether at most, or fewer than, a third of the copies due by 60 are lost. One of three is.
fn write_third(text: &mut String, report: &Report, is_strict: bool) {
    let third = Ratio {
        low: lost(ALL),
        low_times: 3,
        high: due(60),
        high_times: 1,
        is_strict,
    };
    let holds = third.holds(report);
    let _ = write!(text, "{holds} ");
}

fn write_count(text: &mut String, report: &Report, count: &Count) {
    let number = count.number(report);
    let _ = write!(text, "{number} ");
}

#[test]
fn counts_packets_and_copies(rt: HostRuntime) -> Result<(), Fail> {
    let mut report = flooding(rt.alloc())?;
    add_packet(
        rt.alloc(),
        &mut report.medium,
        40,
        0,
        Fate {
            to: 1,
            at: Some(43),
        },
    )?;
    add_packet(
        rt.alloc(),
        &mut report.medium,
        43,
        1,
        Fate {
            to: 2,
            at: Some(46),
        },
    )?;
    add_packet(
        rt.alloc(),
        &mut report.medium,
        46,
        2,
        Fate { to: 3, at: None },
    )?;
    let mut text = String::new(rt.alloc());
    let early = Span { from: 0, to: 45 };
    write_count(
        &mut text,
        &report,
        &Count::Packets(Packets {
            sender: None,
            when: early,
        }),
    );
    write_count(&mut text, &report, &lost(early));
    write_count(&mut text, &report, &lost(ALL));
    write_count(&mut text, &report, &due(44));
    write_count(&mut text, &report, &due(60));
    write_count(&mut text, &report, &Count::Left);
    write_count(&mut text, &report, &Count::Rows);
    write_third(&mut text, &report, false);
    write_third(&mut text, &report, true);
    same_text(text.as_str(), "2 0 1 2 3 0 17 true false ")
}

/// Writes down whether the values of two deeds compare in a way, and which are missing or superfluous.
fn write_compared(
    alloc: Global,
    text: &mut String,
    report: &Report,
    deed: Deed,
    way: Way,
    other: Deed,
) -> Result<(), AllocError> {
    let mut case = Case {
        tests: Vec::new(alloc),
    };
    case.tests
        .push(Test::Compared(Comparison { deed, way, other }))?;
    let mut claim = Claim {
        limits: SOME,
        cases: Vec::new(alloc),
    };
    claim.cases.push(case)?;
    write_answer(alloc, text, report, &claim)
}

fn all_of(alloc: Global, motes: &[u16], kind: LineKind) -> Result<Deed, AllocError> {
    deed(alloc, motes, ALL, kind)
}

/// The motes receive 1, 2, 2 and 3 in the order of the moments, and send 1, 2 and 3. Motes 1 and 2 print 1 and 2.
#[test]
fn compares_lines_in_time(rt: HostRuntime) -> Result<(), Fail> {
    let report = flooding(rt.alloc())?;
    let alloc = rt.alloc();
    let mut text = String::new(alloc);
    let one = all_of(alloc, [0].as_slice(), LineKind::Recv)?;
    let other = all_of(alloc, [2].as_slice(), LineKind::Recv)?;
    write_compared(alloc, &mut text, &report, one, Way::Last, other)?;
    let one = all_of(alloc, [1].as_slice(), LineKind::Recv)?;
    let other = all_of(alloc, [0].as_slice(), LineKind::Recv)?;
    write_compared(alloc, &mut text, &report, one, Way::Last, other)?;
    let one = all_of(alloc, [0].as_slice(), LineKind::Print)?;
    let other = all_of(alloc, [0].as_slice(), LineKind::Print)?;
    write_compared(alloc, &mut text, &report, one, Way::Last, other)?;
    let one = all_of(alloc, [2, 1].as_slice(), LineKind::Print)?;
    let other = all_of(alloc, [0, 1].as_slice(), LineKind::Send)?;
    write_compared(alloc, &mut text, &report, one, Way::InTime, other)?;
    same_text(
        text.as_str(),
        "true|false case 0 test 0 missing 2 superfluous 3|false case 0 test 0|true|",
    )
}

#[test]
fn compares_values_in_any_order(rt: HostRuntime) -> Result<(), Fail> {
    let report = flooding(rt.alloc())?;
    let alloc = rt.alloc();
    let mut text = String::new(alloc);
    let one = all_of(alloc, [0, 1, 2].as_slice(), LineKind::Recv)?;
    let other = all_of(alloc, [0, 1, 2].as_slice(), LineKind::Send)?;
    write_compared(alloc, &mut text, &report, one, Way::AnyOrder, other)?;
    let one = all_of(alloc, [0, 1, 2].as_slice(), LineKind::Send)?;
    let other = all_of(alloc, [0, 1, 2].as_slice(), LineKind::Recv)?;
    write_compared(alloc, &mut text, &report, one, Way::Each(SOME), other)?;
    let one = all_of(alloc, [0, 1, 2].as_slice(), LineKind::Recv)?;
    let other = all_of(alloc, [1, 2].as_slice(), LineKind::Print)?;
    write_compared(alloc, &mut text, &report, one, Way::Each(SOME), other)?;
    let one = all_of(alloc, [0, 1, 2].as_slice(), LineKind::Recv)?;
    let other = all_of(alloc, [2, 1, 0].as_slice(), LineKind::Recv)?;
    write_compared(
        alloc,
        &mut text,
        &report,
        one,
        Way::Each(AT_MOST_ONE),
        other,
    )?;
    same_text(
        text.as_str(),
        "false case 0 test 0 superfluous 2|true|false case 0 test 0 missing 3|false case 0 test 0 superfluous 2|",
    )
}
