//! The contents of the inboxes at the end of a run.
ghost use Rattle.std.specs.List.{AllByRecursion as Each};
ghost use Rattle.copy_exchange.specs.Inboxes.{IsSettled};

use super::few_bytes::FewBytes;
use super::observer::Observer;
use super::{Scene, write_result};
use copy_exchange::make_inboxes;
use copy_inbox::{Inbox, InboxError, Taker};
use std::alloc::AllocGlobal;
use std::random::RandomSource;
use std::sync::Wait;
use std::thread::Threads;
use window_workers::{Cut, run_inboxes};

/// Writes down the number of copies in an inbox, and the copies.
fn write_closed<R: Wait>(
    rt: &R,
    inbox: Inbox,
    taker: Taker,
    text: &mut String,
) -> Result<(), InboxError>
    requires settled { IsSettled inbox taker }
{
    let known = inbox.known(&taker);
    let copies = inbox.close(rt, taker)?;
    write!(text, "{known} {copies:?}|")?;
    Ok(())
}

/// Writes down the number of copies in each inbox, and the copies.
fn write_all_closed<R: Wait>(
    rt: &R,
    pairs: Vec<(Inbox, Taker)>,
    text: &mut String,
) -> Result<(), InboxError>
    requires settled { Each (λ pair. IsSettled pair.0 pair.1) pairs.items }
{
    text.push_str("|")?;
    for (inbox, taker) in pairs {
        write_closed(rt, inbox, taker, text)?;
    }
    Ok(())
}

/// Writes down the result of a run with new inboxes, one for each worker, and the contents of each inbox at the end.
pub(super) fn write_inboxes<R>(
    rt: &FewBytes<'_, R>,
    scene: Scene<'_>,
    workers: u16,
    cut: &Cut,
    gate: &Observer<'_>,
    text: &mut String,
) -> Result<(), InboxError>
where
    R: Threads + Wait + Sync + RandomSource + AllocGlobal,
{
    let pairs = make_inboxes(rt.alloc(), usize::from(workers), scene.sync.has_marks())?;
    match run_inboxes(rt, rt.alloc(), scene.net, cut, scene.sync, gate, pairs) {
        Ok((report, pairs)) => {
            write_result(rt.alloc(), scene.one, Ok(report), text)?;
            write_all_closed(rt, pairs, text)
        }
        Err(error) => Ok(write!(text, "Fault({error:?})|")?),
    }
}
