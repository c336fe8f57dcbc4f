//! A kernel run (`process_run` of `process.c`).

ghost use Rattle.std.specs.Prelude.{◌≡◌, ◌≤◌, ◌+◌, ◌^◌, if◌then◌else◌, length};
ghost use Rattle.program_tree.specs.Code.{Tree};
ghost use Rattle.process_kernel.specs.Views.{Follows, kernel_state_of, Grows};
ghost use Rattle.process_kernel.specs.ProcessList.{numbered_from};
ghost use Rattle.process_kernel.specs.KernelModel.{begun_of};
ghost use Rattle.process_kernel.specs.Process.{process_run};

use crate::machine::{Machine, Stop};
use crate::process::Member;
use program_tree::Program;
use protothread::Fuel;

/// The number of units of work of a boot, and of each kernel run.
pub const UNITS: u32 = 10_000;

impl Machine {
    /// Makes one kernel run. Returns how much work is left.
    ///
    /// # Errors
    /// `Halted` if the mote halts meanwhile; `Memory` if an allocation fails.
    #[tactic(auto, unfolding(crate::specs::Process::process_run))]
    pub fn run_kernel(&mut self, program: &Program) -> Result<u16, Stop>
        ensures follows { Follows program.now self.old result self.new process_run }
    {
        self.poll_due(program)?;
        self.deliver_front(program)?;
        Ok(self.left())
    }

    /// Begins a boot or a run at this moment.
    #[tactic(auto, unfolding(crate::specs::KernelModel::begun_of))]
    pub fn begin(&mut self, moment: u64)
        requires moment_bounded { moment ≤ 2 ^ 40 }
        ensures exact { (t : Tree) → kernel_state_of t self.new ≡ begun_of (kernel_state_of t self.old) moment }
        ensures grows { Grows self.old.out self.new.out }
    {
        self.view.moment = moment;
        self.fuel = Fuel::new(UNITS);
        self.started = self.members.len() as u32;
        self.number_members();
    }

    /// Numbers the incarnations on the process list from 0 on.
    fn number_members(&mut self)
        ensures exact { (t : Tree) → kernel_state_of t self.new
            ≡ record (kernel_state_of t self.old) { members = numbered_from 0 self.old.members.items } }
        ensures grows { Grows self.old.out self.new.out }
    {
        if !self.is_numbered {
            number(&mut self.members);
            self.is_numbered = true;
        }
    }

    /// Counts the work that is left: the queued events, and one more if a poll is requested.
    pub fn left(&self) -> u16
        ensures count { result ≡ length self.now.queue.events + (if self.now.poll_requested then 1 else 0) }
    {
        self.queue.len() as u16 + u16::from(self.poll_requested)
    }
}

/// Numbers the members again, beginning with the first.
fn number(members: &mut [Member])
    requires bounded { length members.old ≤ 67 }
    ensures numbered { members.new ≡ numbered_from 0 members.old }
{
    for place in 0..members.len() {
        members[place].incarnation = place as u32;
    }
}
