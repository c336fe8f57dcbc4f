//! The worker of each mote, and the longest window.

ghost use Rattle.std.specs.Prelude.{◌≡◌, ◌<◌, ◌*◌, ◌/◌, IfOk};
ghost use Rattle.copy_exchange.specs.Cut.{block_cut, stripe_cut};

use std::alloc::{AllocError, Global};

/// A partition of the motes of a net among workers, with a limit on a window's length.
#[derive(Debug, Drop)]
pub struct Cut {
    /// The worker of each mote, by the mote's number.
    pub of: Vec<u16>,
    /// The length of the longest window that is allowed, in moments; 0 means no limit.
    pub longest: u32,
}

/// Returns the worker of mote i, `i * workers / motes`.
fn in_blocks(mote: u16, motes: u16, workers: u16) -> u16
    requires mote_exists { mote < motes }
    ensures value { result ≡ (mote * workers) / motes }
{
    let part = u32::from(mote) * u32::from(workers) / u32::from(motes);
    part as u16
}

impl Cut {
    /// Makes a partition in which each worker has a block of consecutive motes. The sizes of the blocks differ by at
    /// most one: the worker of mote i is `i * workers / motes`.
    ///
    /// # Errors
    /// `AllocError` if an allocation fails.
    pub fn block(alloc: Global, motes: u16, workers: u16) -> Result<Cut, AllocError>
        requires motes { 0 < motes }
        requires workers { 0 < workers }
        ensures owners { IfOk result (λ cut. cut.of.items ≡ block_cut motes workers) }
        ensures longest { IfOk result (λ cut. cut.longest ≡ 0) }
    {
        let mut owners = Vec::new(alloc);
        for mote in 0..motes {
            owners.push(in_blocks(mote, motes, workers))?;
        }
        Ok(Cut {
            of: owners,
            longest: 0,
        })
    }

    /// Makes a partition that deals the motes out one by one: the worker of mote i is `i` mod `workers`.
    ///
    /// # Errors
    /// `AllocError` if an allocation fails.
    pub fn stripe(alloc: Global, motes: u16, workers: u16) -> Result<Cut, AllocError>
        requires motes { 0 < motes }
        requires workers { 0 < workers }
        ensures owners { IfOk result (λ cut. cut.of.items ≡ stripe_cut motes workers) }
        ensures longest { IfOk result (λ cut. cut.longest ≡ 0) }
    {
        let mut owners = Vec::new(alloc);
        for mote in 0..motes {
            owners.push(mote % workers)?;
        }
        Ok(Cut {
            of: owners,
            longest: 0,
        })
    }
}
