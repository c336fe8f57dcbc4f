//! A mote with its clock: it takes one turn after another.

ghost use Rattle.std.specs.Prelude.{◌≡◌, ◌≤◌, ◌^◌, ◌↔◌, true, false, IsTrue, IsSome, IfSome, IfOk, IfErr, Some, None};
ghost use Rattle.std.specs.Prelude.{Err, [], option_map, OnOk, OnErr};
ghost use Rattle.program_tree.specs.Code.{Tree};
ghost use Rattle.program_tree.specs.Program.{tree_of};
ghost use Rattle.process_kernel.specs.Public.{kernel_in};
ghost use Rattle.mote_node.specs.Turn.{is_past, wake_at};
ghost use Rattle.std.proofs.Props.{props};

use crate::turn::turn_in_net;
use process_kernel::{Kernel, KernelError, Line, Out};
use program_tree::Program;
use radio_packet::{Arrival, Sent};
use std::alloc::{AllocError, Global};
use std::error::Error;
use std::{fmt, mem};

/// The reason for which a mote can't take a turn.
#[derive(Clone, Copy, Debug, PartialEq, Eq)]
pub enum MoteError {
    /// Out of memory: an allocation failed.
    Memory = 1,
    /// An earlier turn ran out of memory.
    Failed = 2,
    /// The moment isn't later than the last turn.
    Past = 3,
}

impl fmt::Display for MoteError {
    ghost use Rattle.mote_node.specs.MoteErrors.{text_of_mote_error};

    ghost output = { λ e. Some (text_of_mote_error e) };

    fn fmt<W: fmt::Write>(&self, f: &mut fmt::Formatter<W>) -> fmt::Result {
        match self {
            MoteError::Memory => f.write_str("out of memory"),
            MoteError::Failed => f.write_str("an earlier turn of the mote found no memory"),
            MoteError::Past => f.write_str("the moment isn't above that of the last turn"),
        }
    }
}

impl Error for MoteError {}

impl From<AllocError> for MoteError {
    ghost use Rattle.mote_node.specs.declared.mote.MoteError.{MoteError};

    ghost from_gives = { λ _ e. e ≡ MoteError.Memory };

    fn from(_: AllocError) -> MoteError {
        MoteError::Memory
    }
}

/// The outcome of a turn: its lines and packets, and the mote's next wake.
#[derive(Debug, Drop)]
pub struct TurnOut {
    pub lines: Vec<Line>,
    pub sends: Vec<Sent>,
    pub wake: Option<u64>,
}

/// A mote of a net. Its turns are at rising moments; callers pass the same program to each of them. The kernel is
/// behind a pointer, so it costs little to move a mote. The next wake is computed once, at the end of a turn.
pub struct Mote {
    alloc: Global,
    kernel: Box<Kernel>,
    last: Option<u64>,
    wake: Option<u64>,
    collide: bool,
    failed: bool,
    ghost early: { IfSome last (λ moment. moment ≤ 2 ^ 40) } by { Prim.hlevel props },
    ghost running: { (t : Tree) → failed ≡ false → IsSome (kernel_in t kernel.value) } by { Prim.hlevel props },
    ghost wakes: { (t : Tree) → failed ≡ false
        → IfSome (kernel_in t kernel.value) (λ m. wake ≡ wake_at last m) } by { Prim.hlevel props },
    ghost sleeps: { failed ≡ true → wake ≡ None } by { Prim.hlevel props },
}

/// Implemented by hand: for the checker, each function that owns a mote then drops it with a single call.
impl Drop for Mote {
    fn drop(self) {
        let Mote {
            alloc: _,
            kernel: _,
            last: _,
            wake: _,
            collide: _,
            failed: _,
        } = self;
    }
}

/// The next wake of a mote after its turn at this moment; none if the mote has halted.
#[tactic(auto, unfolding(crate::specs::Turn::wake_after))]
fn wake_after(kernel: &Kernel, moment: u64) -> Option<u64>
    requires moment_bounded { moment ≤ 2 ^ 40 }
    ensures value { (t : Tree) → IfSome (kernel_in t kernel.now) (λ m. result ≡ wake_at (Some moment) m) }
{
    if kernel.is_halted() {
        return None;
    }
    if kernel.pending() {
        return Some(moment + 1);
    }
    match kernel.next_expiration() {
        Some(due) => Some(due.max(moment + 1)),
        None => None,
    }
}

/// Returns `true` if the moment isn't later than the last turn.
fn is_past(moment: u64, last: Option<u64>) -> bool
    ensures value { result ≡ is_past moment last }
{
    match last {
        Some(last) => moment <= last,
        None => false,
    }
}

impl Mote {
    ghost use Rattle.mote_node.specs.Turn.{new_node, node_with_sent, turn_of, with_collide};
    ghost use Rattle.mote_node.specs.Public.{node_in, wake_in, is_past_in, turn_given, turn_out_of};

    /// The mote with this number and program, before its first turn. Its event queue has room for this many events, 1
    /// to 128.
    ///
    /// # Errors
    /// Only `Memory`.
    #[tactic(auto, unfolding(crate::specs::Public::node_in, crate::specs::Turn::new_node))]
    pub fn new(alloc: Global, number: u16, program: &Program, queue: u16) -> Result<Mote, MoteError>
        requires some_room { 1 ≤ queue }
        requires limit { queue ≤ 128 }
        ensures new { let t = tree_of program.now in
            IfOk result (λ mote. node_in t mote ≡ Some (new_node t number queue)) }
        ensures err { IfErr result (λ error. error ≡ MoteError.Memory) }
    {
        let Ok(kernel) = Kernel::new(alloc, program, number, queue) else {
            return Err(MoteError::Memory);
        };
        let Ok(kernel) = Box::new(alloc, kernel) else {
            return Err(MoteError::Memory);
        };
        Ok(Mote {
            alloc,
            kernel,
            last: None,
            wake: Some(0),
            collide: false,
            failed: false,
        })
    }

    /// The number of the mote.
    #[tactic(auto, unfolding(crate::specs::Public::node_in))]
    pub fn number(&self) -> u16
        ensures node { (t : Tree) → IfSome (node_in t self.now) (λ n. result ≡ n.mote.state.mote) }
    {
        self.kernel.number()
    }

    /// Sets whether packets that arrive together are lost. Before the first call of this function they aren't lost.
    #[tactic(auto, unfolding(crate::specs::Public::node_in))]
    pub fn set_collide(&mut self, collide: bool)
        ensures node { (t : Tree) → node_in t self.new ≡ option_map (with_collide collide) (node_in t self.old) }
    {
        self.collide = collide;
    }

    /// The number of packets that the mote has sent, which is the number of its next packet.
    #[tactic(auto, unfolding(crate::specs::Public::node_in))]
    pub fn sent(&self) -> u64
        ensures node { (t : Tree) → IfSome (node_in t self.now) (λ n. result ≡ n.mote.state.sent) }
    {
        self.kernel.sent()
    }

    /// Sets the number of the mote's next packet.
    #[tactic(auto, unfolding(crate::specs::Public::node_in))]
    pub fn set_sent(&mut self, sent: u64)
        ensures node { (t : Tree) → node_in t self.new ≡ option_map (node_with_sent sent) (node_in t self.old) }
    {
        self.kernel.set_sent(sent);
    }

    /// The mote's next wake: 0 before its first turn, and none once it has halted or failed.
    #[tactic(auto, unfolding(crate::specs::Public::node_in))]
    pub fn wake(&self) -> Option<u64>
        ensures value { (t : Tree) → result ≡ wake_in (node_in t self.now) }
    {
        self.wake
    }

    /// Takes a turn at this moment with the packets that arrive, in the order of `arrivals`. The first turn boots the
    /// mote.
    ///
    /// # Errors
    /// In this order: `Failed` if an earlier turn ran out of memory (the mote has failed for good); `Past` if the
    /// moment isn't later than the last turn (nothing changes then); `Memory` if an allocation failed.
    #[tactic(auto, unfolding(crate::specs::Public::node_in, crate::specs::Turn::turn_of))]
    pub fn turn(
        &mut self,
        program: &Program,
        moment: u64,
        arrivals: &[Arrival],
    ) -> Result<TurnOut, MoteError>
        requires moment_bounded { moment ≤ 2 ^ 40 }
        ensures ok { let t = tree_of program.now in
            IfOk result (λ out. option_map (turn_given out) (node_in t self.new)
            ≡ option_map (turn_of moment arrivals.now) (node_in t self.old)) }

        ensures failed { let t = tree_of program.now in (result ≡ Err MoteError.Failed) ↔ (node_in t self.old ≡ None) }
        ensures past { let t = tree_of program.now in
            (result ≡ Err MoteError.Past) ↔ IsTrue (is_past_in moment (node_in t self.old)) }
        ensures unchanged { result ≡ Err MoteError.Past → self.new ≡ self.old }

        // The mote has failed for good, whatever its program.
        ensures fails { (t : Tree) → result ≡ Err MoteError.Memory → node_in t self.new ≡ None }
        ensures stays_failed { result ≡ Err MoteError.Failed → self.new ≡ self.old }
    {
        let mut out = Out::new(self.alloc);
        let wake = self.turn_into(program, moment, arrivals, &mut out)?;
        let Out { lines, sends } = out;
        Ok(TurnOut { lines, sends, wake })
    }

    /// Takes a turn in the same way as `turn`, and returns the next wake. The lines and packets replace the contents
    /// of `out` and reuse its memory. After an error the contents of `out` are unspecified.
    ///
    /// # Errors
    /// The same as those of `turn`.
    #[inline(always)]
    #[tactic(auto, unfolding(crate::specs::Public::node_in, crate::specs::Turn::turn_of))]
    pub fn turn_into(
        &mut self,
        program: &Program,
        moment: u64,
        arrivals: &[Arrival],
        out: &mut Out,
    ) -> Result<Option<u64>, MoteError>
        requires moment_bounded { moment ≤ 2 ^ 40 }
        ensures ok { let t = tree_of program.now in
            IfOk result (λ wake. option_map (turn_given (turn_out_of out.new wake)) (node_in t self.new)
            ≡ option_map (turn_of moment arrivals.now) (node_in t self.old)) }

        ensures failed { let t = tree_of program.now in (result ≡ Err MoteError.Failed) ↔ (node_in t self.old ≡ None) }
        ensures past { let t = tree_of program.now in
            (result ≡ Err MoteError.Past) ↔ IsTrue (is_past_in moment (node_in t self.old)) }
        ensures unchanged { result ≡ Err MoteError.Past → self.new ≡ self.old }

        // The mote has failed for good, whatever its program.
        ensures fails { (t : Tree) → result ≡ Err MoteError.Memory → node_in t self.new ≡ None }
        ensures stays_failed { result ≡ Err MoteError.Failed → self.new ≡ self.old }
    {
        if self.failed {
            return Err(MoteError::Failed);
        }
        if is_past(moment, self.last) {
            return Err(MoteError::Past);
        }
        out.lines.clear();
        out.sends.clear();
        let turned = turn_in_net(
            &mut *self.kernel,
            program,
            self.collide,
            moment,
            arrivals,
            out,
        );
        match turned {
            Ok(()) => {
                self.last = Some(moment);
                self.wake = wake_after(&*self.kernel, moment);
                Ok(self.wake)
            }
            Err(_) => {
                self.failed = true;
                self.wake = None;
                Err(MoteError::Memory)
            }
        }
    }
}
