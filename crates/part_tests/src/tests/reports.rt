//! Reports. Their texts were worked out by hand.

ghost use Rattle.std.specs.Prelude.{◌≡◌, IfOk, length, vec_len};
ghost use Rattle.mote_net.specs.Meaning.{net_of};

use mote_net::{LogLine, Report};
use net_scenario::{Net, read_scenario};
use process_kernel::{Line, What};
use program_tree::{Proc, Target};
use radio_packet::{Fate, Sent};
use std::alloc::{AllocError, Global};
use std::str;
use std::test::Fail;
use test_helpers::same_text;
use trace_printer::{PrintError, write_report};

/// One mote. Its program has two events and two processes.
const TWO_PROCESSES: &str =
    "version = 1\nend = 5\n[medium]\nrange = 10\nbase = 1\nper = 100\n[programs]\n\
     p = \"event e; event f; process a, b; code a { body { } } code b { body { } }\"\n\
     [[mote]]\nx = 0\ny = 0\nprogram = \"p\"\n";

/// Two motes, each with its own program.
const TWO_MOTES: &str =
    "version = 1\nend = 5\n[medium]\nrange = 10\nbase = 1\nper = 100\n[programs]\n\
     p = \"process a; code a { body { } }\"\nq_2 = \"process c; code c { body { } }\"\n[[mote]]\nx = 0\ny = 0\n\
     program = \"p\"\n[[mote]]\nx = 0\ny = 0\nprogram = \"q_2\"\n";

const A: Proc = Proc::Own(0);

const ALL: Target = Target::All;

const TO_A: Target = Target::One(A);

/// The report of one mote with this trace.
pub(crate) fn report_of_trace(alloc: Global, trace: Vec<Line>) -> Result<Report, AllocError>
    ensures one_trace { IfOk result (λ r. vec_len r.traces ≡ 1) }
{
    Ok(Report {
        traces: vec![in alloc; trace]?,
        medium: Vec::new(alloc),
        left: 0,
    })
}

/// Fails unless these bytes are the bytes of this text.
fn same_bytes(actual: &[u8], want: &str) -> Result<(), Fail> {
    match str::from_utf8(actual) {
        Ok(actual) => same_text(actual, want),
        Err(_) => Err(Fail::new(format_args!("no text"))),
    }
}

/// The lines of these events with their moments.
fn lines_of(alloc: Global, happens: &[(u64, What)]) -> Result<Vec<Line>, AllocError> {
    let mut lines = Vec::new(alloc);
    for (at, what) in happens {
        lines.push(Line {
            at: *at,
            what: *what,
        })?;
    }
    Ok(lines)
}

/// The report of one mote whose trace has these events.
pub(crate) fn report_of(alloc: Global, happens: &[(u64, What)]) -> Result<Report, AllocError>
    ensures one_trace { IfOk result (λ r. vec_len r.traces ≡ 1) }
{
    let trace = lines_of(alloc, happens)?;
    report_of_trace(alloc, trace)
}

/// Appends the text of the report of one mote whose trace has these events.
fn write_trace(
    alloc: Global,
    net: &Net,
    happens: &[(u64, What)],
    output: &mut Vec<u8>,
) -> Result<(), PrintError>
    requires one_mote { length (net_of net.now).motes ≡ 1 }
{
    let report = report_of(alloc, happens)?;
    write_report(alloc, net, &report, output)
}

/// Events with their moments, grouped by their kind.
static KINDS: [&[(u64, What)]; 4] = [
    // Lines of processes.
    &[
        (0, What::Start(A)),
        (0, What::Start(Proc::Etimer)),
        (0, What::Start(Proc::Ctimer)),
        (0, What::Start(Proc::Radio)),
        (5, What::Leave(A)),
        (2, What::Print(A, 192)),
        (0, What::Busy(Proc::Own(1))),
        (0, What::Halt),
    ],
    // Lines of events.
    &[
        (0, What::Post(0, TO_A, 0x86, 7)),
        (0, What::Post(3, ALL, 0x89, 7)),
        (2, What::Post(1, Target::One(Proc::Ctimer), 0x88, 1)),
        (0, What::Full(TO_A, 0x86, 32)),
        (0, What::Take(32, A)),
        (0, What::Drop(0, Proc::Radio)),
    ],
    // Events that are written as words.
    &[
        (0, What::Full(ALL, 0x81, 0)),
        (0, What::Full(ALL, 0x82, 0)),
        (0, What::Full(ALL, 0x83, 0)),
        (0, What::Full(ALL, 0x85, 0)),
        (0, What::Full(ALL, 0x87, 1)),
        (0, What::Full(ALL, 0x8a, 5)),
        (0, What::Full(ALL, 0x8c, 9)),
    ],
    // Lines of packets.
    &[
        (0, What::Send(0, 5)),
        (2, What::Recv(2, 0, 7)),
        (3, What::Lost(0, 8)),
        (2, What::Deaf(4, 0)),
        (2, What::Collide(2, 0)),
    ],
];

/// For each kind of line, writes a report of a net of one mote.
fn write_of_one_mote(alloc: Global, output: &mut Vec<u8>) -> Result<(), Fail> {
    let net = read_scenario(alloc, TWO_PROCESSES)?;
    if net.motes() == 1 {
        for happens in KINDS.as_slice() {
            write_trace(alloc, &net, happens, output)?;
        }
    }
    Ok(())
}

/// The trace of a mote that halts after its start.
const FIRST_TRACE: [(u64, What); 2] = [(0, What::Start(A)), (0, What::Halt)];

/// The trace of a mote whose processes leave at the last moment that a scenario can have.
const SECOND_TRACE: [(u64, What); 3] = [
    (0, What::Print(A, 65535)),
    (1_000_000, What::Leave(A)),
    (1_000_000, What::Leave(Proc::Radio)),
];

/// The two traces.
fn two_traces(alloc: Global) -> Result<Vec<Vec<Line>>, AllocError>
    ensures two_traces { IfOk result (λ traces. vec_len traces ≡ 2) }
{
    let first = lines_of(alloc, &FIRST_TRACE)?;
    let second = lines_of(alloc, &SECOND_TRACE)?;
    Ok(vec![in alloc; first, second]?)
}

fn log_line(alloc: Global, sent: Sent, fates: &[Fate]) -> Result<LogLine, AllocError> {
    let fates = Vec::from_slice(alloc, fates)?;
    Ok(LogLine { sent, fates })
}

/// A packet with one copy that arrives and one that is lost.
const HEARD: Sent = Sent {
    at: 2,
    sender: 1,
    number: 0,
    value: 9,
};

const HEARD_FATES: [Fate; 2] = [Fate { to: 0, at: Some(5) }, Fate { to: 3, at: None }];

/// A packet that no mote hears.
const UNHEARD: Sent = Sent {
    at: 7,
    sender: 0,
    number: 40,
    value: 65535,
};

fn two_packets(alloc: Global) -> Result<Vec<LogLine>, AllocError> {
    let first = log_line(alloc, HEARD, &HEARD_FATES)?;
    let second = log_line(alloc, UNHEARD, &[])?;
    Ok(vec![in alloc; first, second]?)
}

fn report_of_two(alloc: Global) -> Result<Report, AllocError>
    ensures two_traces { IfOk result (λ r. vec_len r.traces ≡ 2) }
{
    let traces = two_traces(alloc)?;
    let medium = two_packets(alloc)?;
    Ok(Report {
        traces,
        medium,
        left: 12,
    })
}

/// Writes the report of the two traces and the two packets.
fn write_two(alloc: Global, net: &Net, output: &mut Vec<u8>) -> Result<(), PrintError>
    requires two_motes { length (net_of net.now).motes ≡ 2 }
{
    let report = report_of_two(alloc)?;
    write_report(alloc, net, &report, output)
}

fn write_of_two_motes(alloc: Global, output: &mut Vec<u8>) -> Result<(), Fail> {
    let net = read_scenario(alloc, TWO_MOTES)?;
    if net.motes() == 2 {
        write_two(alloc, &net, output)?;
    }
    Ok(())
}

fn write_reports(alloc: Global, output: &mut Vec<u8>) -> Result<(), Fail> {
    write_of_one_mote(alloc, output)?;
    write_of_two_motes(alloc, output)
}

#[test]
fn reports_by_hand(rt: HostRuntime) -> Result<(), Fail> {
    let mut output = Vec::new(rt.alloc());
    write_reports(rt.alloc(), &mut output)?;
    same_bytes(
        output.as_slice(),
        "mote 0 p\n0 start a\n0 start etimer\n0 start ctimer\n0 start radio\n5 leave a\n2 print a 192\n0 busy b\n\
         0 halt\nmedium\nleft 0\nmote 0 p\n0 post 0 a msg 7\n0 post 3 all com 7\n2 post 1 ctimer timer 1\n\
         0 full a msg 32\n0 take 32 a\n0 drop 0 radio\nmedium\nleft 0\nmote 0 p\n0 full all init 0\n\
         0 full all poll 0\n0 full all exit 0\n0 full all continue 0\n0 full all exited 1\n0 full all packet 5\n\
         0 full all f 9\nmedium\nleft 0\nmote 0 p\n0 send 0 5\n2 recv 2 0 7\n3 lost 0 8\n2 deaf 4 0\n2 collide 2 0\n\
         medium\nleft 0\nmote 0 p\n0 start a\n0 halt\nmote 1 q_2\n0 print c 65535\n1000000 leave c\n\
         1000000 leave radio\nmedium\n2 1 0 9 0@5 3@lost\n7 0 40 65535\nleft 12\n",
    )
}
