//! The gate of all runs: it observes the starts and turns of workers, or lets workers wait for one another inside their
//! turns. The gate is called inside a turn, so workers could not meet there if a lock were held during each turn.

use std::alloc::AllocError;
use std::sync::atomic::AtomicU64;
use std::sync::atomic::Ordering::SeqCst;
use window_workers::Gate;

/// The observations that a gate makes in a run.
#[derive(Clone, Copy)]
pub(super) enum Watch {
    /// The number of starts that are requested, and the number of turns that the motes' own workers take. The worker
    /// with this number isn't allowed to start.
    Starts(Option<u16>),
    /// For each of four workers, the numbers of its starts and of its turns.
    Each,
    /// The start of worker 0's turn at moment 1, and if worker 1 sees it inside its turn at moment 0.
    Ahead,
    /// For each moment, the number of workers whose first mote begins its turn, and the number of workers that see
    /// inside this turn that all have begun theirs.
    Meetings,
    /// Nothing. The source of random bytes fails after this many calls.
    Fails(u64),
}

/// A run in which all workers are allowed to start.
pub(super) const STARTS: Watch = Watch::Starts(None);

/// A gate with two counts. The counts of four workers have 16 bits each, and those of the moments 0, 1 and 2 are bytes.
#[derive(Drop)]
pub(super) struct Observer<'a> {
    watch: Watch,
    /// The number of workers.
    all: u64,
    /// The worker of each mote.
    owners: &'a [u16],
    first: AtomicU64,
    second: AtomicU64,
}

/// The number 1 in the 16 bits of a worker's count.
fn one_of(worker: u16) -> u64 {
    match worker {
        0 => 1,
        1 => 1 << 16,
        2 => 1 << 32,
        _ => 1 << 48,
    }
}

/// The count of a moment.
fn count_at(counts: u64, moment: u64) -> u64 {
    match moment {
        0 => counts % 256,
        1 => counts / 256 % 256,
        _ => counts / 65_536,
    }
}

impl<'a> Observer<'a> {
    pub(super) fn new(watch: Watch, workers: u16, owners: &'a [u16]) -> Observer<'a> {
        Observer {
            watch,
            all: u64::from(workers),
            owners,
            first: AtomicU64::new(0),
            second: AtomicU64::new(0),
        }
    }

    /// Writes down both counts as hexadecimal numbers.
    pub(super) fn write_counts(&self, text: &mut String) -> Result<(), AllocError> {
        let first = self.first.load(SeqCst);
        let second = self.second.load(SeqCst);
        write!(text, " {first:x} {second:x}|")
    }

    /// Counts a turn that a mote's own worker takes.
    fn count_own(&self, worker: u16, mote: u16) {
        if self.owners.get(usize::from(mote)) == Some(&worker) {
            self.second.fetch_add(1, SeqCst);
        }
    }

    /// Lets worker 1 wait inside its turn at 0, for a while, until worker 0 begins its turn at 1.
    fn wait_for_worker_0(&self, worker: u16, moment: u64) {
        if worker == 0 && moment == 1 {
            self.first.store(1, SeqCst);
        }
        if worker == 1 && moment == 0 {
            for _ in 0..5_000_000u64 {
                if self.first.load(SeqCst) == 1 {
                    self.second.store(1, SeqCst);
                    return;
                }
            }
        }
    }

    /// Returns whether the mote before this one has another worker, or isn't there.
    fn is_first(&self, worker: u16, mote: u16) -> bool {
        let before = usize::from(mote).wrapping_sub(1);
        self.owners.get(before) != Some(&worker)
    }

    /// Lets a worker wait inside the turn of its first mote at a moment, for a while, until all workers have begun
    /// these turns. The motes of a worker have consecutive numbers.
    fn meet(&self, moment: u64) {
        let one = match moment {
            0 => 1,
            1 => 256,
            2 => 65_536,
            _ => return,
        };
        self.first.fetch_add(one, SeqCst);
        for _ in 0..50_000_000u64 {
            if count_at(self.first.load(SeqCst), moment) == self.all {
                self.second.fetch_add(one, SeqCst);
                return;
            }
        }
    }
}

impl Gate for Observer<'_> {
    fn inside(&self, worker: u16, moment: u64, mote: u16) {
        match self.watch {
            Watch::Starts(_) => self.count_own(worker, mote),
            Watch::Each => {
                self.second.fetch_add(one_of(worker), SeqCst);
            }
            Watch::Ahead => self.wait_for_worker_0(worker, moment),
            Watch::Meetings => {
                if self.is_first(worker, mote) {
                    self.meet(moment);
                }
            }
            Watch::Fails(_) => {}
        }
    }

    fn start(&self, worker: u16) -> bool {
        match self.watch {
            Watch::Starts(shut) => {
                self.first.fetch_add(1, SeqCst);
                shut != Some(worker)
            }
            Watch::Each => {
                self.first.fetch_add(one_of(worker), SeqCst);
                true
            }
            Watch::Ahead | Watch::Meetings | Watch::Fails(_) => true,
        }
    }
}
