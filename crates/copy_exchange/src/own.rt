//! The test whether a worker has a mote.

ghost use Rattle.std.specs.Prelude.{◌≡◌};
ghost use Rattle.copy_exchange.specs.Crossed.{is_own};

/// Returns whether a mote belongs to this worker; `owners` is the worker of each mote.
pub fn is_own(owners: &[u16], worker: u16, mote: u16) -> bool
    ensures value { result ≡ is_own owners.now worker mote }
{
    match owners.get(usize::from(mote)) {
        Some(other) => *other == worker,
        None => false,
    }
}
