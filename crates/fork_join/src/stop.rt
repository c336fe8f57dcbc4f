//! The stop flag. A worker that fails sets it, and so does a start that fails, so that workers that wait for one
//! another stop. A worker stops only after it has seen that the flag is set. After the join, the tokens of a ledger
//! prove that no worker stopped unless a worker or a start had failed.

ghost use Rattle.std.specs.Prelude.{◌≡◌, ◌+◌, ◌%◌, ◌<◌, true, false, IsTrue};
ghost use Rattle.fork_join.specs.Tokens.{stop_tokens};

use std::sync::atomic::{AtomicBool, Ordering};
use std::sync::ledger::{Book, Ledger, Share};
use std::sync::{Mutex, Wait};

/// The flag, and the tokens: one for the failure that set the flag first, and two for each worker that saw that the
/// flag was set.
#[derive(Drop)]
struct Failure<L: Ledger> {
    is_set: bool,
    tokens: Book<L>,
    ghost none: { is_set ≡ false → tokens.total ≡ 0 },
    ghost odd: { is_set ≡ true → tokens.total % 2 ≡ 1 },
}

impl<L: Ledger> Failure<L> {
    fn new(tokens: Book<L>) -> Failure<L>
        requires no_tokens { tokens.total ≡ 0 }
    {
        Failure {
            is_set: false,
            tokens,
        }
    }

    fn set(&mut self, share: &mut Share<L>)
        requires has_part { 0 < share.old.parts }
        ensures same_parts { share.new.parts ≡ share.old.parts }
    {
        let Failure { is_set, tokens } = self;
        if !*is_set {
            *is_set = true;
            tokens.add(share, 1);
        }
    }

    fn see(&mut self, share: &mut Share<L>) -> bool
        requires has_part { 0 < share.old.parts }
        ensures parts { share.new.parts ≡ share.old.parts }
        ensures amount { share.new.amount ≡ share.old.amount + stop_tokens result }
    {
        let Failure { is_set, tokens } = self;
        if *is_set {
            tokens.add(share, 2);
        }
        *is_set
    }

    /// Proves that no worker saw the flag set, if no worker failed.
    fn audit(&mut self, all: &mut Share<L>)
        requires parts { all.old.parts ≡ L.parts }
        requires even { all.old.amount % 2 ≡ 0 }
        ensures no_tokens { all.old.amount ≡ 0 }
    {
        let Failure { is_set: _, tokens } = self;
        tokens.audit(all);
    }
}

/// The flag that all workers share.
#[derive(Drop)]
pub struct Flag<L: Ledger> {
    /// A copy of the flag, so that most reads need no lock. It is set after `failure`.
    hint: AtomicBool,
    failure: Mutex<Failure<L>>,
}

impl<L: Ledger> Flag<L> {
    pub(crate) fn new(tokens: Book<L>) -> Flag<L>
        requires no_tokens { tokens.total ≡ 0 }
    {
        Flag {
            hint: AtomicBool::new(false),
            failure: Mutex::new(Failure::new(tokens)),
        }
    }

    /// Sets the flag.
    pub(crate) fn set<R: Wait>(&self, rt: &R, share: &mut Share<L>)
        requires has_part { 0 < share.old.parts }
        ensures same_parts { share.new.parts ≡ share.old.parts }
    {
        self.failure.lock(rt).set(share);
        self.hint.store(true, Ordering::SeqCst);
    }

    fn see<R: Wait>(&self, rt: &R, share: &mut Share<L>) -> bool
        requires has_part { 0 < share.old.parts }
        ensures parts { share.new.parts ≡ share.old.parts }
        ensures amount { share.new.amount ≡ share.old.amount + stop_tokens result }
    {
        self.failure.lock(rt).see(share)
    }

    /// Proves, after all workers have ended, that no worker saw the flag set, if no worker failed.
    pub(crate) fn audit<R: Wait>(&self, rt: &R, all: &mut Share<L>)
        requires parts { all.old.parts ≡ L.parts }
        requires even { all.old.amount % 2 ≡ 0 }
        ensures no_tokens { all.old.amount ≡ 0 }
    {
        self.failure.lock(rt).audit(all);
    }
}

/// A worker's access to the flag.
#[derive(Drop)]
pub struct Watch<'a, L: Ledger> {
    flag: &'a Flag<L>,
    share: Share<L>,
    /// Is `true` once the worker has seen that the flag is set.
    pub seen: bool,
    ghost part: { share.parts ≡ 1 },
    ghost amount: { share.amount ≡ stop_tokens seen },
}

impl<'a, L: Ledger> Watch<'a, L> {
    pub(crate) fn new(flag: &'a Flag<L>, share: Share<L>) -> Watch<'a, L>
        requires part { share.parts ≡ 1 }
        requires amount { share.amount ≡ 0 }
        ensures unseen { result.seen ≡ false }
    {
        Watch {
            flag,
            share,
            seen: false,
        }
    }

    /// Returns whether the flag is set. The clause says only that the worker remembers the answer; tests show that it
    /// looks.
    pub fn is_set<R: Wait>(&mut self, rt: &R) -> bool
        ensures seen { self.new.seen ≡ result }
    {
        if self.seen {
            return true;
        }
        if self.flag.hint.load(Ordering::SeqCst) {
            self.look(rt);
        }
        self.seen
    }

    fn look<R: Wait>(&mut self, rt: &R)
        requires unseen { self.old.seen ≡ false }
    {
        let Watch { flag, share, seen } = self;
        *seen = flag.see(rt, share);
    }

    /// Ends a worker's access to the flag after the worker has ended, and sets the flag if the worker failed.
    pub(crate) fn end<R: Wait>(self, rt: &R, failed: bool) -> Share<L>
        ensures part { result.parts ≡ 1 }
        ensures amount { failed ≡ false → result.amount ≡ stop_tokens self.entry.seen }
    {
        let Watch {
            flag,
            mut share,
            seen: _,
        } = self;
        if failed {
            flag.set(rt, &mut share);
        }
        share
    }
}
