//! A window of a share that has all motes of a net.

ghost use Rattle.std.specs.Prelude.{◌≡◌, ◌≤◌, ◌^◌, length};
ghost use Rattle.mote_net.specs.Meaning.{net_of};

use super::BUSY_PAIR;
use fork_join::WorkerError;
use net_scenario::{Net, read_scenario};
use process_kernel::Line;
use std::alloc::{AllocError, AllocGlobal};
use std::random::RandomSource;
use std::sync::Wait;
use std::sync::atomic::AtomicU64;
use std::sync::atomic::Ordering::SeqCst;
use std::test::Fail;
use test_helpers::{TWO_SENDERS, same_text, write_lines};
use worker_window::{Gate, NoGate, Share};

/// The share of worker 0 after a window from moment 0.
fn share_after<R, G>(
    rt: &R,
    net: &Net,
    owners: &[u16],
    until: u64,
    gate: &G,
) -> Result<Share, WorkerError>
where
    R: Wait + RandomSource + AllocGlobal,
    G: Gate,
    requires owners { length owners.now ≡ length (net_of net.now).motes }
    requires until { until ≤ 2 ^ 40 }
{
    let alloc = rt.alloc();
    let mut share = Share::new(alloc, net, owners, 0)?;
    let _outgoing = share.run_window(rt, net, owners, Vec::new(alloc), until, gate)?;
    Ok(share)
}

/// Writes down the lines of each mote.
fn write_traces(text: &mut String, traces: &[Vec<Line>]) -> Result<(), AllocError> {
    for trace in traces {
        text.push_str("mote|")?;
        write_lines(text, trace)?;
    }
    Ok(())
}

/// Fails unless the text that is written about the traces after the window up to 5 is `want`.
fn give<R: Wait + RandomSource + AllocGlobal>(rt: &R, net: &Net, want: &str) -> Result<(), Fail> {
    if net.motes() != 3 {
        return Err(Fail::new(format_args!("not three motes")));
    }
    let ended = share_after(rt, net, &[0, 0, 0], 5, &NoGate)?.end()?;
    let mut text = String::new(rt.alloc());
    write_traces(&mut text, &ended.traces)?;
    same_text(text.as_str(), want)
}

/// A gate that records the motes in the order of their turns, each as a digit.
#[derive(Drop)]
struct Diary {
    motes: AtomicU64,
}

impl Gate for Diary {
    fn inside(&self, _worker: u16, _moment: u64, mote: u16) {
        let before = self.motes.load(SeqCst);
        let after = before.wrapping_mul(10).wrapping_add(u64::from(mote) + 1);
        self.motes.store(after, SeqCst);
    }
}

/// The motes in the order of their turns at 0, 1 and 2.
fn order_of_turns<R: Wait + RandomSource + AllocGlobal>(
    rt: &R,
    net: &Net,
) -> Result<u64, WorkerError>
    requires two_motes { length (net_of net.now).motes ≡ 2 }
{
    let diary = Diary {
        motes: AtomicU64::new(0),
    };
    let _share = share_after(rt, net, &[0, 0], 3, &diary)?;
    Ok(diary.motes.load(SeqCst))
}

/// Fails unless the two motes of a net take their turns alternately.
fn alternate<R: Wait + RandomSource + AllocGlobal>(rt: &R, net: &Net) -> Result<(), Fail> {
    if net.motes() == 2 && order_of_turns(rt, net)? == 121212 {
        return Ok(());
    }
    Err(Fail::new(format_args!("otherwise")))
}

/// The traces of a worker's motes after a window; and the order of turns: two motes of one worker take their turns
/// alternately.
#[test]
fn a_share_of_two_motes(rt: HostRuntime) -> Result<(), Fail> {
    let net = read_scenario(rt.alloc(), TWO_SENDERS)?;
    give(
        &rt,
        &net,
        "\
            mote|0 Start(Etimer)|0 Start(Ctimer)|0 Start(Radio)|0 Start(Own(0))|0 Send(0, 5)|0 Leave(Own(0))|\
            mote|0 Start(Etimer)|0 Start(Ctimer)|0 Start(Radio)|0 Start(Own(0))|\
            mote|0 Start(Etimer)|0 Start(Ctimer)|0 Start(Radio)|0 Start(Own(0))|0 Send(0, 7)|0 Leave(Own(0))|",
    )?;
    let busy = read_scenario(rt.alloc(), BUSY_PAIR)?;
    alternate(&rt, &busy)
}
