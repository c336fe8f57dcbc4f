//! The kernel of a mote.

ghost use Rattle.std.specs.Prelude.{◌≡◌, ◌≤◌, ◌^◌, OnOk, IfOk, IfErr, IfSome, Some, if◌then◌else◌, option_map};
ghost use Rattle.program_tree.specs.Code.{Tree};
ghost use Rattle.program_tree.specs.Program.{tree_of};
ghost use Rattle.mote_timers.specs.TimerLists.{next_expiration_of};
ghost use Rattle.process_kernel.specs.KernelModel.{unbooted, with_poll, with_packet, with_sent, has_room, is_pending};

use crate::machine::{Machine, Stop};
use program_tree::{Proc, Program};
use radio_packet::Arrival;
use std::alloc::Global;
use std::error::Error;
use std::{fmt, mem};
use trace_lines::Out;

/// The end of a boot or of a kernel run.
#[derive(Clone, Copy, Debug, PartialEq, Eq)]
pub enum Ran {
    /// The work that is left: the number of queued events, and one more if a poll is requested.
    Left(u16),
    Halted,
}

/// The reason why a call of a kernel failed.
#[derive(Clone, Copy, Debug, PartialEq, Eq)]
pub enum KernelError {
    /// Out of memory: an allocation failed.
    Memory = 1,
    /// An earlier call ran out of memory.
    Failed = 2,
}

impl fmt::Display for KernelError {
    ghost use Rattle.process_kernel.specs.KernelErrors.{text_of_kernel_error};

    ghost output = { λ e. Some (text_of_kernel_error e) };

    fn fmt<W: fmt::Write>(&self, f: &mut fmt::Formatter<W>) -> fmt::Result {
        match self {
            KernelError::Memory => f.write_str("no memory for the kernel"),
            KernelError::Failed => f.write_str("the kernel has failed before"),
        }
    }
}

impl Error for KernelError {}

/// The process kernel of a mote (`process.c`, `etimer.c` and `ctimer.c` of Contiki). It is booted once and then run,
/// always with the same program. `new` allocates all its memory, except for the lines and packets of its runs, and for
/// the thread of a process that is called for the first time since its start. If such an allocation fails, `out` keeps
/// its contents, perhaps with more appended, and all later calls of the kernel fail. Nothing is promised about the
/// processes, events and timers that a failed kernel still has.
pub struct Kernel {
    booted: bool,
    halted: bool,
    failed: bool,
    machine: Machine,
}

/// Implemented by hand: for the checker, a function that owns a kernel then drops it with a single call.
impl Drop for Kernel {
    fn drop(self) {
        let Kernel {
            machine: _,
            booted: _,
            halted: _,
            failed: _,
        } = self;
    }
}

impl Kernel {
    ghost use Rattle.process_kernel.specs.Public.{kernel_in, MatchesOutcome, FailsAs, BeginsWith, Closes, GoesOn};
    ghost use Rattle.process_kernel.specs.KernelModel.{boot_given, run_given, runs_of};

    /// Makes the kernel of the mote with this number. The kernel isn't booted, and its queue has room for this many
    /// events, 1 to 128.
    ///
    /// # Errors
    ///
    /// `Memory`: out of memory.
    #[tactic(auto, unfolding(crate::specs::Public::kernel_in, crate::specs::KernelModel::unbooted))]
    pub fn new(
        alloc: Global,
        program: &Program,
        mote: u16,
        queue: u16,
    ) -> Result<Kernel, KernelError>
        requires some_room { 1 ≤ queue }
        requires limit { queue ≤ 128 }
        ensures ok { IfOk result (λ k. kernel_in (tree_of program.now) k
            ≡ Some (unbooted (tree_of program.now) mote queue)) }
        ensures err { IfErr result (λ e. e ≡ KernelError.Memory) }
    {
        match Machine::new(alloc, program, mote, queue) {
            Ok(machine) => Ok(Kernel {
                machine,
                booted: false,
                halted: false,
                failed: false,
            }),
            Err(_) => Err(KernelError::Memory),
        }
    }

    /// Boots the mote at this moment: starts the system processes, and then the processes that the program names.
    /// Appends lines and packets to `out`.
    ///
    /// # Errors
    ///
    /// `Memory`: out of memory, so the kernel fails from then on. `Failed`: the kernel ran out of memory before.
    pub fn boot(&mut self, program: &Program, now: u64, out: &mut Out) -> Result<Ran, KernelError>
        requires moment_bounded { now ≤ 2 ^ 40 }
        ensures tells { let t = tree_of program.now in
            MatchesOutcome (boot_given now) (kernel_in t self.old) out.old result (kernel_in t self.new) out.new }
    {
        if self.failed {
            return Err(KernelError::Failed);
        }
        if self.halted {
            return Ok(Ran::Halted);
        }
        mem::swap(&mut self.machine.out, out);
        self.machine.begin(now);
        let ran = self.machine.boot(program);
        mem::swap(&mut self.machine.out, out);
        self.close(ran)
    }

    /// Makes one kernel run at this moment. Its lines and packets are appended to those of the machine.
    fn run_on(&mut self, program: &Program, now: u64) -> Result<Ran, KernelError>
        requires moment_bounded { now ≤ 2 ^ 40 }
        ensures matches { let t = tree_of program.now in
            MatchesOutcome (run_given now) (kernel_in t self.old) self.old.machine.out result
            (kernel_in t self.new) self.new.machine.out }
        ensures begins { BeginsWith self.old.machine.out self.new.machine.out }
    {
        if self.failed {
            return Err(KernelError::Failed);
        }
        if self.halted {
            return Ok(Ran::Halted);
        }
        self.machine.begin(now);
        let ran = self.machine.run_kernel(program);
        self.close(ran)
    }

    /// Makes one kernel run at this moment: the polls if a poll is requested, and the oldest event of the queue.
    /// Appends lines and packets to `out`.
    ///
    /// # Errors
    ///
    /// `Memory`: out of memory, so the kernel fails from then on. `Failed`: the kernel ran out of memory before.
    pub fn run(&mut self, program: &Program, now: u64, out: &mut Out) -> Result<Ran, KernelError>
        requires moment_bounded { now ≤ 2 ^ 40 }
        ensures tells { let t = tree_of program.now in
            MatchesOutcome (run_given now) (kernel_in t self.old) out.old result (kernel_in t self.new) out.new }
    {
        mem::swap(&mut self.machine.out, out);
        let ran = self.run_on(program, now);
        mem::swap(&mut self.machine.out, out);
        ran
    }

    /// Makes at most `most` kernel runs at this moment, until a run leaves no work or the mote halts. Their lines and
    /// packets are appended to those of the machine.
    fn run_all_on(&mut self, program: &Program, now: u64, most: u8) -> Result<(), KernelError>
        requires moment_bounded { now ≤ 2 ^ 40 }
        ensures ok { let t = tree_of program.now in
            OnOk result (GoesOn (runs_of most now) (kernel_in t self.old) self.old.machine.out
            (kernel_in t self.new) self.new.machine.out) }
        ensures err { let t = tree_of program.now in
            IfErr result (λ e. FailsAs (kernel_in t self.old) self.old.machine.out e
            (kernel_in t self.new) self.new.machine.out) }
    {
        'runs: for _run in 0..most {
            match self.run_on(program, now)? {
                Ran::Halted => return Ok(()),
                Ran::Left(left) => {
                    if left == 0 {
                        return Ok(());
                    }
                }
            }
        }
        Ok(())
    }

    /// Makes at most `most` kernel runs at this moment, until a run leaves no work or the mote halts. This has the
    /// same effect as a call of `run` for each of them. Appends lines and packets to `out`, even if one of the runs is
    /// out of memory.
    ///
    /// # Errors
    ///
    /// `Memory`: one of the runs was out of memory, so the kernel fails from then on. `Failed`: the kernel ran out of
    /// memory before.
    pub fn run_all(
        &mut self,
        program: &Program,
        now: u64,
        most: u8,
        out: &mut Out,
    ) -> Result<(), KernelError>
        requires moment_bounded { now ≤ 2 ^ 40 }
        ensures ok { let t = tree_of program.now in
            OnOk result (GoesOn (runs_of most now) (kernel_in t self.old) out.old (kernel_in t self.new) out.new) }
        ensures err { let t = tree_of program.now in
            IfErr result (λ e. FailsAs (kernel_in t self.old) out.old e (kernel_in t self.new) out.new) }
    {
        mem::swap(&mut self.machine.out, out);
        let ran = self.run_all_on(program, now, most);
        mem::swap(&mut self.machine.out, out);
        ran
    }

    /// Asks for a poll of a process if it is running or called.
    #[tactic(auto, unfolding(crate::specs::Public::kernel_in, crate::specs::KernelModel::with_poll, crate::specs::Posts::process_poll, crate::specs::ProcessList::with_needs_poll))]
    pub fn poll(&mut self, process: Proc)
        ensures model { (t : Tree)
            → kernel_in t self.new ≡ option_map (λ m. with_poll m process) (kernel_in t self.old) }
    {
        self.machine.poll(process);
    }

    /// Returns `true` if an event is queued or a poll is requested.
    #[tactic(auto, unfolding(crate::specs::Public::kernel_in))]
    pub fn pending(&self) -> bool
        ensures model { (t : Tree) → IfSome (kernel_in t self.now) (λ m. result ≡ is_pending m) }
    {
        self.machine.queue.len() > 0 || self.machine.poll_requested
    }

    /// The earliest moment at which a timer on the timer list is due; `None` if the list is empty.
    #[tactic(auto, unfolding(crate::specs::Public::kernel_in))]
    pub fn next_expiration(&self) -> Option<u64>
        ensures model { (t : Tree) → IfSome (kernel_in t self.now) (λ m. result ≡ next_expiration_of m.state.timers) }
    {
        self.machine.view.timers.next_expiration()
    }

    /// Appends a packet to the receive ring. Returns `true` if the ring had room; a full ring is unchanged.
    #[tactic(auto, unfolding(crate::specs::Public::kernel_in, crate::specs::KernelModel::with_packet))]
    pub fn accept_packet(&mut self, packet: Arrival) -> bool
        ensures room { (t : Tree) → IfSome (kernel_in t self.old) (λ m. result ≡ has_room m) }
        ensures after { (t : Tree) → kernel_in t self.new
            ≡ option_map (λ m. if has_room m then with_packet m packet else m) (kernel_in t self.old) }
    {
        self.machine.accept_packet(packet)
    }

    /// The number of the kernel's mote.
    #[tactic(auto, unfolding(crate::specs::Public::kernel_in))]
    pub fn number(&self) -> u16
        ensures model { (t : Tree) → IfSome (kernel_in t self.now) (λ m. result ≡ m.state.mote) }
    {
        self.machine.view.mote
    }

    /// The number of packets that the mote has sent, which is the number of its next packet.
    #[tactic(auto, unfolding(crate::specs::Public::kernel_in))]
    pub fn sent(&self) -> u64
        ensures model { (t : Tree) → IfSome (kernel_in t self.now) (λ m. result ≡ m.state.sent) }
    {
        self.machine.sent
    }

    /// Sets the number of the mote's next packet.
    #[tactic(auto, unfolding(crate::specs::Public::kernel_in))]
    pub fn set_sent(&mut self, sent: u64)
        ensures model { (t : Tree) → kernel_in t self.new ≡ option_map (λ m. with_sent m sent) (kernel_in t self.old) }
    {
        self.machine.sent = sent;
    }

    /// Returns `true` if the mote was booted.
    #[tactic(auto, unfolding(crate::specs::Public::kernel_in))]
    pub fn is_booted(&self) -> bool
        ensures model { (t : Tree) → IfSome (kernel_in t self.now) (λ m. result ≡ m.booted) }
    {
        self.booted
    }

    /// Returns `true` if the mote has halted. It doesn't run any more then.
    #[tactic(auto, unfolding(crate::specs::Public::kernel_in))]
    pub fn is_halted(&self) -> bool
        ensures model { (t : Tree) → IfSome (kernel_in t self.now) (λ m. result ≡ m.halted) }
    {
        self.halted
    }

    /// Records the end of a boot or a run, and returns its result.
    fn close(&mut self, ran: Result<u16, Stop>) -> Result<Ran, KernelError>
        ensures closes { Closes self.old ran result self.new }
    {
        self.booted = true;
        match ran {
            Ok(left) => Ok(Ran::Left(left)),
            Err(Stop::Halted) => {
                self.halted = true;
                Ok(Ran::Halted)
            }
            Err(Stop::Memory) => {
                self.failed = true;
                Err(KernelError::Memory)
            }
        }
    }
}
