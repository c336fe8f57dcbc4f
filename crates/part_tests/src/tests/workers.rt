//! A few workers, each with a number and in its own thread.

ghost use Rattle.std.specs.Prelude.{◌≡◌, ◌+◌, ◌^◌, ◌%◌, true};

use fork_join::{Watch, Work, WorkerError, fork_join};
use std::alloc::Global;
use std::sync::Wait;
use std::sync::atomic::AtomicU64;
use std::sync::atomic::Ordering::SeqCst;
use std::sync::ledger::Ledger;
use std::test::Fail;
use std::thread::Threads;
use test_helpers::same_text;

/// Adds ten to the number of each worker. Workers with some numbers give up, and one start is refused.
struct AddTen<'a, R> {
    rt: &'a R,
    /// The number of the worker that reports that it is out of memory.
    no_memory: u64,
    /// The number of the worker that reports that its thread failed.
    no_thread: u64,
    /// The number of the worker that waits until another worker or a start has failed, and then stops.
    stopped: u64,
    /// The number of the worker that isn't allowed to start.
    shut_out: u64,
    /// `true` if all workers wait in the same way.
    waits: bool,
    /// The number of starts that were requested.
    asked: AtomicU64,
}

impl<R> Drop for AddTen<'_, R> {
    fn drop(self) {
        let AddTen {
            rt: _,
            no_memory: _,
            no_thread: _,
            stopped: _,
            shut_out: _,
            waits: _,
            asked: _,
        } = self;
    }
}

fn add_ten<'a, R>(
    rt: &'a R,
    no_memory: u64,
    no_thread: u64,
    stopped: u64,
    shut_out: u64,
    waits: bool,
) -> AddTen<'a, R> {
    AddTen {
        rt,
        no_memory,
        no_thread,
        stopped,
        shut_out,
        waits,
        asked: AtomicU64::new(0),
    }
}

/// Waits until the flag is set.
fn is_stopped<R: Wait, L: Ledger>(rt: &R, watch: &mut Watch<'_, L>) -> bool
    ensures seen { result ≡ true → watch.new.seen ≡ true }
{
    for _ in 0..u64::MAX {
        if watch.is_set(rt) {
            return true;
        }
    }
    false
}

impl<R: Wait> Work<u64> for AddTen<'_, R> {
    ghost ready = { λ _ _. Unit {0} };

    ghost makes = { λ _ old new. new ≡ (old + 10) % 2 ^ 64 };

    fn work<L: Ledger>(&self, worker: u64, watch: &mut Watch<'_, L>) -> Result<u64, WorkerError> {
        if worker == self.no_memory {
            return Err(WorkerError::Memory);
        }
        if worker == self.no_thread {
            return Err(WorkerError::Thread);
        }
        if (worker == self.stopped || self.waits) && is_stopped(self.rt, watch) {
            return Err(WorkerError::Stopped);
        }
        Ok(worker.wrapping_add(10))
    }

    fn may_start(&self, worker: &u64) -> bool {
        self.asked.fetch_add(1, SeqCst);
        *worker != self.shut_out
    }
}

/// Runs these workers. Writes down their results, and how many starts were requested.
fn write_joined<R: Threads + Wait + Sync>(
    rt: &R,
    alloc: Global,
    text: &mut String,
    work: AddTen<'_, R>,
    workers: &[u64],
) {
    if let Ok(workers) = Vec::from_slice(alloc, workers) {
        let done = fork_join(rt, alloc, workers, &work);
        let asked = work.asked.load(SeqCst);
        let _ = write!(text, "{done:?} {asked}|");
    }
}

/// Several workers give up, and all were started. The error of the first worker that has its own reason is reported,
/// not that of a worker that stopped because another one failed.
fn write_giving_up<R: Threads + Wait + Sync>(rt: &R, alloc: Global, text: &mut String) {
    for workers in [
        [1, 2, 3],
        [1, 3, 2],
        [3, 1, 2],
        [4, 3, 2],
        [4, 2, 3],
        [2, 4, 3],
        [4, 1, 3],
    ] {
        write_joined(rt, alloc, text, add_ten(rt, 2, 3, 4, 0, false), &workers);
    }
}

/// Refuses each start in a run of its own. The workers that were started before give up, and then they are joined.
fn write_waiting<R: Threads + Wait + Sync>(rt: &R, alloc: Global, text: &mut String) {
    for shut_out in 0..4 {
        let work = add_ten(rt, 9, 9, 9, shut_out, true);
        write_joined(rt, alloc, text, work, &[0, 1, 2, 3]);
    }
}

fn write_workers<R: Threads + Wait + Sync>(rt: &R, alloc: Global, text: &mut String) {
    write_joined(rt, alloc, text, add_ten(rt, 0, 0, 0, 0, false), &[3, 1, 2]);
    write_giving_up(rt, alloc, text);
    // If a worker isn't allowed to start, the error is the same as if its thread couldn't be started. The start of the
    // next worker isn't requested.
    write_joined(rt, alloc, text, add_ten(rt, 0, 0, 0, 2, false), &[1, 2, 3]);
    // The error of a worker that was started takes precedence over a refused start, unless that worker only stopped.
    write_joined(rt, alloc, text, add_ten(rt, 1, 0, 4, 2, false), &[1, 2, 3]);
    write_joined(rt, alloc, text, add_ten(rt, 1, 0, 4, 2, false), &[4, 2, 3]);
    // After one worker has failed with either error, the other workers stop.
    write_joined(rt, alloc, text, add_ten(rt, 2, 9, 9, 9, true), &[1, 2, 3]);
    write_joined(rt, alloc, text, add_ten(rt, 9, 2, 9, 9, true), &[1, 2, 3]);
    write_waiting(rt, alloc, text);
}

#[test]
fn workers_by_hand(rt: HostRuntime) -> Result<(), Fail> {
    let mut text = String::new(rt.alloc());
    write_workers(&rt, rt.alloc(), &mut text);
    same_text(
        text.as_str(),
        "Ok([13, 11, 12]) 3|Err(Memory) 3|Err(Thread) 3|Err(Thread) 3|Err(Thread) 3|Err(Memory) 3|\
         Err(Memory) 3|Err(Thread) 3|Err(Thread) 2|Err(Memory) 2|Err(Thread) 2|Err(Memory) 3|Err(Thread) 3|\
         Err(Thread) 1|Err(Thread) 2|Err(Thread) 3|Err(Thread) 4|",
    )
}
