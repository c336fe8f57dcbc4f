//! The runtime of all runs. All runs have the same types of runtime and of gate, so the code that they call is compiled
//! only once.

use super::observer::Watch;
use std::alloc::{Alloc, AllocGlobal, Global};
use std::io;
use std::random::RandomSource;
use std::sync::Wait;
use std::sync::atomic::AtomicU64;
use std::sync::atomic::Ordering::SeqCst;
use std::thread::Threads;

/// A runtime whose source of random bytes fails after `most` calls. Each executor calls the source once.
pub(super) struct FewBytes<'a, R> {
    rt: &'a R,
    most: u64,
    asked: AtomicU64,
}

impl<'a, R> FewBytes<'a, R> {
    /// A runtime for a run with such a gate.
    pub(super) fn new(rt: &'a R, watch: Watch) -> FewBytes<'a, R> {
        let most = if let Watch::Fails(most) = watch {
            most
        } else {
            u64::MAX
        };
        FewBytes {
            rt,
            most,
            asked: AtomicU64::new(0),
        }
    }
}

impl<R> Drop for FewBytes<'_, R> {
    fn drop(self) {
        let FewBytes {
            rt: _,
            most: _,
            asked: _,
        } = self;
    }
}

impl<R: Threads> Threads for FewBytes<'_, R> {}

impl<R: Wait> Wait for FewBytes<'_, R> {}

impl<R: AllocGlobal> Alloc for FewBytes<'_, R> {
    type A = Global;

    fn alloc(&self) -> Global {
        self.rt.alloc()
    }
}

impl<R: RandomSource> RandomSource for FewBytes<'_, R> {
    fn fill_bytes(&self, buf: &mut [u8]) -> io::Result<()> {
        if self.asked.fetch_add(1, SeqCst) >= self.most {
            return Err(io::Error::from_raw_os_error(5));
        }
        self.rt.fill_bytes(buf)
    }
}
