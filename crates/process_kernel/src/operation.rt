//! The operations of the current process: starts, kills and exits, and the walk over the process list.

ghost use Rattle.std.specs.Prelude.{◌≡◌};
ghost use Rattle.program_tree.specs.Program.{code_of};
ghost use Rattle.protothread.specs.Places.{remainder_of};
ghost use Rattle.process_kernel.specs.Process.{walk_of, process_number as named_number, last_run_of, exit_process};
ghost use Rattle.process_kernel.specs.Process.{process_start, process_exit};
ghost use Rattle.process_kernel.specs.Views.{Follows, remainder_model};
ghost use Rattle.process_kernel.specs.Operations.{posted, act_of, perform_of};

use crate::event::system_event;
use crate::machine::{Machine, Stop};
use crate::process::Member;
use crate::table::is_same;
use program_tree::{Event, Proc, ProcessText, Program, SystemEvent};
use protothread::{Op, Thread};
use trace_lines::What;

/// An event that a program posts. It has no sender.
fn posted(number: u8, word: u16) -> Event
    ensures value { result ≡ posted number word }
{
    Event {
        number,
        word,
        sender: 0,
    }
}

/// The number by which EXITED names a process.
fn process_number(process: Proc) -> u16
    ensures value { result ≡ named_number process }
{
    match process {
        Proc::Own(number) => u16::from(number),
        Proc::Etimer => 256,
        Proc::Ctimer => 257,
        Proc::Radio => 258,
    }
}

impl Machine {
    /// Performs an operation for the current process, and informs its thread of the result.
    ///
    /// # Errors
    /// `Halted` if the mote halts meanwhile; `Memory` if an allocation fails.
    #[cycle(kernel)]
    #[tactic(auto, unfolding(crate::specs::Operations::perform_of))]
    pub fn perform(
        &mut self,
        program: &Program,
        text: &ProcessText,
        thread: &mut Thread,
        current: u8,
        op: &Op,
    ) -> Result<(), Stop>
        ensures follows { Follows program.now self.old (remainder_model (code_of text.now) thread.new result) self.new
            (λ calls state. perform_of calls state (remainder_of (code_of text.now) thread.old) current op.now) }
    {
        match op {
            Op::Post(target, number, word) => {
                let is_full = self.post(*target, posted(*number, *word))?;
                self.answer(thread, current, is_full);
                Ok(())
            }
            _ => self.act(program, current, op),
        }
    }

    /// Performs an operation that has no result.
    #[cycle(kernel)]
    #[tactic(auto, unfolding(crate::specs::Operations::act_of))]
    fn act(&mut self, program: &Program, current: u8, op: &Op) -> Result<(), Stop>
        ensures follows { Follows program.now self.old result self.new
            (λ calls state. act_of calls state current op.now) }
    {
        match op {
            Op::Post(..) => {}
            Op::Synch(process, number, word) => {
                return self.call(program, *process, &posted(*number, *word));
            }
            Op::Poll(process) => self.poll(*process),
            Op::Start(process) => return self.start(program, *process),
            Op::Kill(process) => return self.kill(program, *process, current),
            Op::Set(timer, interval) => self.set_timer(program, *timer, *interval, current),
            Op::Reset(timer) => self.reset_timer(program, *timer, current),
            Op::RestartTimer(timer) => self.restart_timer(program, *timer, current),
            Op::Stop(timer) => self.stop_timer(*timer),
            Op::Send(value) => return self.send(*value),
            Op::Print(value) => return self.write(What::Print(Proc::Own(current), *value)),
            Op::Take(semaphore) => self.take_semaphore(*semaphore),
            Op::Signal(semaphore) => self.signal_semaphore(*semaphore),
        }
        Ok(())
    }

    /// Starts a process. If it isn't on the process list, it is put at the front of the list and called with INIT
    /// (`process_start` of `process.c`). If it is busy, only a line is written.
    ///
    /// # Errors
    /// `Halted` if the mote halts meanwhile; `Memory` if an allocation fails.
    #[cycle(kernel)]
    #[tactic(auto, unfolding(crate::specs::Process::process_start))]
    pub fn start(&mut self, program: &Program, process: Proc) -> Result<(), Stop>
        ensures follows { Follows program.now self.old result self.new
            (λ calls state. process_start calls state process) }
    {
        if self.is_busy(process) {
            return self.write(What::Busy(process));
        }
        if self.has_process(process) && !self.is_listed(process) {
            self.enlist(process)?;
            self.call(program, process, &system_event(SystemEvent::Init, 0))
        } else {
            Ok(())
        }
    }

    /// Kills a process: if it isn't busy, it is exited on behalf of the current process. If it is busy, the kernel only
    /// writes a line.
    #[cycle(kernel)]
    #[tactic(auto, unfolding(crate::specs::Process::process_exit))]
    fn kill(&mut self, program: &Program, process: Proc, current: u8) -> Result<(), Stop>
        ensures follows { Follows program.now self.old result self.new
            (λ calls state. process_exit calls state process current) }
    {
        if self.is_busy(process) {
            self.write(What::Busy(process))
        } else {
            self.exit(program, process, Proc::Own(current))
        }
    }

    /// Exits a process on behalf of another process, or of itself. The other processes are informed first
    /// (`exit_process` of `process.c`).
    ///
    /// # Errors
    /// `Halted` if the mote halts meanwhile; `Memory` if an allocation fails.
    #[cycle(kernel)]
    #[tactic(auto, unfolding(crate::specs::Process::exit_process))]
    pub fn exit(&mut self, program: &Program, process: Proc, behalf: Proc) -> Result<(), Stop>
        ensures follows { Follows program.now self.old result self.new
            (λ calls state. exit_process calls state process behalf) }
    {
        if !self.is_listed(process) {
            return Ok(());
        }
        let members = self.snapshot();
        self.begin_exit(process);
        let exited = system_event(SystemEvent::Exited, process_number(process));
        self.walk(program, &exited, process, members.as_slice())?;
        if !is_same(process, behalf) {
            self.run_last(program, process)?;
        }
        self.leave(process)
    }

    /// Runs a process for the last time, with EXIT, because another process exits it.
    #[cycle(kernel)]
    #[tactic(auto, unfolding(crate::specs::Process::last_run_of))]
    fn run_last(&mut self, program: &Program, process: Proc) -> Result<(), Stop>
        ensures follows { Follows program.now self.old result self.new
            (λ calls state. last_run_of calls state process) }
    {
        self.spend()?;
        self.react(program, process, &system_event(SystemEvent::Exit, 0))?;
        Ok(())
    }

    /// Calls these incarnations, one after another, except those of one process. An incarnation that isn't on the
    /// process list when its turn comes is skipped.
    #[cycle(kernel)]
    fn walk(
        &mut self,
        program: &Program,
        event: &Event,
        skipped: Proc,
        members: &[Member],
    ) -> Result<(), Stop>
        ensures follows { Follows program.now self.old result self.new
            (λ calls. walk_of calls event.now skipped members.now) }
    {
        for member in members {
            if !is_same(member.process, skipped) && self.is_on_list(*member) {
                self.call(program, member.process, event)?;
            }
        }
        Ok(())
    }
}
