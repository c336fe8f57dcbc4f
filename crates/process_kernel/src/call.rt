//! The call of a process, and its reaction to the event.

ghost use Rattle.std.specs.Prelude.{◌≡◌, Some, slice_get};
ghost use Rattle.program_tree.specs.Program.{tree_of, code_of};
ghost use Rattle.protothread.specs.Places.{remainder_of};
ghost use Rattle.process_kernel.specs.Thread.{has_ended as is_an_end, handler_of, resume_of, own_of, react_of};
ghost use Rattle.process_kernel.specs.Ctimer.{callback_of, ctimer_process};
ghost use Rattle.process_kernel.specs.Views.{Follows, answer_model, part_of};

use crate::event::is_event;
use crate::machine::{Machine, Stop};
use crate::process::ProcessState;
use program_tree::{Event, Proc, ProcessText, Program, SystemEvent};
use protothread::{Part, PtState, Step, Thread};

fn has_ended(answer: PtState) -> bool
    ensures value { result ≡ is_an_end answer }
{
    match answer {
        PtState::Waiting => false,
        PtState::Yielded => false,
        PtState::Exited => true,
        PtState::Ended => true,
    }
}

impl Machine {
    /// Calls a process with an event. If the process isn't running, nothing happens (`call_process` of `process.c`).
    ///
    /// # Errors
    /// `Halted` if no unit of work is left, or if the mote halts in the call; `Memory` if an allocation fails.
    #[cycle(kernel)]
    #[tactic(auto, unfolding(crate::specs::Process::call_process, crate::specs::Process::answered))]
    pub fn call(&mut self, program: &Program, process: Proc, event: &Event) -> Result<(), Stop>
        ensures follows { Follows program.now self.old result self.new
            (λ calls state. calls.call state process event.now) }
    {
        if !self.is_running(process) {
            return Ok(());
        }
        self.spend()?;
        self.set_state(process, ProcessState::Called);
        let answer = self.react(program, process, event)?;
        if has_ended(answer) || is_event(SystemEvent::Exit, event) {
            self.exit(program, process, process)
        } else {
            self.set_state(process, ProcessState::Running);
            Ok(())
        }
    }

    /// Lets a process react to an event.
    ///
    /// # Errors
    /// `Halted` if the mote halts meanwhile; `Memory` if an allocation fails.
    #[cycle(kernel)]
    #[inline(always)]
    #[tactic(auto, unfolding(crate::specs::Thread::react_of))]
    pub fn react(
        &mut self,
        program: &Program,
        process: Proc,
        event: &Event,
    ) -> Result<PtState, Stop>
        ensures follows { Follows program.now self.old result self.new
            (λ calls state. react_of calls state process event.now) }
    {
        match process {
            Proc::Own(number) => self.react_as_own(program, number, event),
            Proc::Etimer => {
                self.react_as_etimer(event)?;
                Ok(PtState::Yielded)
            }
            Proc::Ctimer => {
                self.react_as_ctimer(program, event)?;
                Ok(PtState::Yielded)
            }
            Proc::Radio => {
                self.react_as_radio(program, event)?;
                Ok(PtState::Yielded)
            }
        }
    }

    /// Runs the handler that a process of the program has for the event, and then resumes the body of this process.
    #[cycle(kernel)]
    #[inline(always)]
    #[tactic(auto, unfolding(crate::specs::Thread::own_of))]
    fn react_as_own(
        &mut self,
        program: &Program,
        number: u8,
        event: &Event,
    ) -> Result<PtState, Stop>
        ensures follows { Follows program.now self.old result self.new
            (λ calls state. own_of calls state number event.now) }
    {
        if number >= program.processes() {
            return Ok(PtState::Ended);
        }
        let text = program.process(number);
        self.handle(program, text, number, event)?;
        self.resume(program, text, number, event)
    }

    /// Runs the event's handler, if there is one.
    #[cycle(kernel)]
    #[inline(always)]
    #[tactic(auto, unfolding(crate::specs::Thread::handler_of))]
    fn handle(
        &mut self,
        program: &Program,
        text: &ProcessText,
        number: u8,
        event: &Event,
    ) -> Result<(), Stop>
        ensures follows { Follows program.now self.old result self.new
            (λ calls state. handler_of calls state (code_of text.now) number event.now) }
    {
        if is_event(SystemEvent::Poll, event) {
            self.run_part(program, text, Part::OnPoll, number, event)
        } else if is_event(SystemEvent::Exit, event) {
            self.run_part(program, text, Part::OnExit, number, event)
        } else {
            Ok(())
        }
    }

    /// Resumes the body of a process of the program.
    #[cycle(kernel)]
    #[inline(always)]
    #[tactic(auto, unfolding(crate::specs::Thread::resume_of))]
    fn resume(
        &mut self,
        program: &Program,
        text: &ProcessText,
        number: u8,
        event: &Event,
    ) -> Result<PtState, Stop>
        requires text { slice_get (tree_of program.now).codes number ≡ Some (code_of text.now) }
        ensures follows { Follows program.now self.old result self.new
            (λ calls state. resume_of calls state (code_of text.now) number event.now) }
    {
        let mut body = self.take_thread(number)?;
        let answer = self.run(program, text, &mut body, number, event)?;
        self.put_thread(number, body);
        Ok(answer)
    }

    /// Lets the ctimer process react to an event: a callback that waits for this timer is removed from the callback
    /// list and runs.
    #[cycle(kernel)]
    #[tactic(auto, unfolding(crate::specs::Ctimer::ctimer_process))]
    fn react_as_ctimer(&mut self, program: &Program, event: &Event) -> Result<(), Stop>
        ensures follows { Follows program.now self.old result self.new
            (λ calls state. ctimer_process calls state event.now) }
    {
        if !is_event(SystemEvent::Timer, event) {
            return Ok(());
        }
        if !self.takes_callback(event.word) {
            return Ok(());
        }
        self.call_back(program, event)
    }

    /// Runs the callback of a timer on behalf of the timer's process.
    #[cycle(kernel)]
    #[tactic(auto, unfolding(crate::specs::Ctimer::callback_of))]
    fn call_back(&mut self, program: &Program, event: &Event) -> Result<(), Stop>
        ensures follows { Follows program.now self.old result self.new
            (λ calls state. callback_of calls state event.now) }
    {
        let timer = event.word;
        if timer >= program.timers() {
            return Ok(());
        }
        let number = program.timer_process(timer);
        let text = program.process(number);
        self.run_part(program, text, Part::Callback(timer as u8), number, event)
    }

    /// Runs a handler or a callback of a process from its beginning.
    #[cycle(kernel)]
    #[inline(always)]
    fn run_part(
        &mut self,
        program: &Program,
        text: &ProcessText,
        part: Part,
        process: u8,
        event: &Event,
    ) -> Result<(), Stop>
        ensures follows { Follows program.now self.old result self.new
            (λ calls state. part_of calls state (code_of text.now) part process event.now) }
    {
        if part.is_empty(text) {
            return Ok(());
        }
        self.run_fresh(program, text, part, process, event)
    }

    /// Runs a part in a new thread. The function isn't inlined, because its stack frame contains the thread.
    #[cycle(kernel)]
    #[inline(never)]
    fn run_fresh(
        &mut self,
        program: &Program,
        text: &ProcessText,
        part: Part,
        process: u8,
        event: &Event,
    ) -> Result<(), Stop>
        ensures follows { Follows program.now self.old result self.new
            (λ calls state. part_of calls state (code_of text.now) part process event.now) }
    {
        let mut thread = Thread::fresh(part);
        self.run(program, text, &mut thread, process, event)?;
        Ok(())
    }

    /// Runs a thread of a process until it waits, yields, exits or ends.
    #[cycle(kernel)]
    #[tactic(auto, unfolding(crate::specs::Operations::run_of))]
    fn run(
        &mut self,
        program: &Program,
        text: &ProcessText,
        thread: &mut Thread,
        process: u8,
        event: &Event,
    ) -> Result<PtState, Stop>
        ensures follows { Follows program.now self.old (answer_model (code_of text.now) thread.new result) self.new
            (λ calls state. calls.run state (code_of text.now)
            (remainder_of (code_of text.now) thread.old) process event.now) }
    {
        loop {
            match self.advance(text, thread, process, event) {
                Step::Op(op) => self.perform(program, text, thread, process, &op)?,
                Step::Done(answer) => return Ok(answer),
                Step::Runaway => return Err(self.halt()),
            }
        }
    }
}
