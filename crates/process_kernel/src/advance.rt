//! Protothreads: their steps, and the results of their posts.

ghost use Rattle.std.specs.Prelude.{◌≡◌};
ghost use Rattle.program_tree.specs.Code.{Code, Tree};
ghost use Rattle.program_tree.specs.Program.{code_of};
ghost use Rattle.protothread.specs.Places.{remainder_of};
ghost use Rattle.protothread.specs.Step.{PaysFor};
ghost use Rattle.process_kernel.specs.Thread.{stepped_of};
ghost use Rattle.process_kernel.specs.Operations.{answer_of};
ghost use Rattle.process_kernel.specs.State.{Goes};
ghost use Rattle.process_kernel.specs.Views.{first_list_of, kernel_state_of, Grows, Continues};

use crate::machine::Machine;
use program_tree::{Event, ProcessText};
use protothread::{PtState, Step, Thread};

impl Machine {
    /// Advances a thread of a process to its next operation or to its answer.
    #[inline(always)]
    #[tactic(auto, unfolding(crate::specs::Thread::stepped_of))]
    pub fn advance(
        &mut self,
        text: &ProcessText,
        thread: &mut Thread,
        process: u8,
        event: &Event,
    ) -> Step
        ensures exact { (t : Tree) → stepped_of (kernel_state_of t self.old) (code_of text.now)
            (remainder_of (code_of text.now) thread.old) process event.now
            ≡ record {
              step = result;
              remainder = remainder_of (code_of text.now) thread.new;
              state = kernel_state_of t self.new;
            } }
        ensures pays { PaysFor result self.old.fuel self.new.fuel }
        ensures first_list { first_list_of self.new ≡ first_list_of self.old }
        ensures grows { Grows self.old.out self.new.out }
    {
        let place = usize::from(process);
        if place >= self.variables.len() {
            return Step::Done(PtState::Ended);
        }
        thread.advance(
            text,
            event,
            &mut self.variables[place],
            &self.view,
            &mut self.fuel,
        )
    }

    /// Informs a thread of the result of its post: whether the queue was full.
    #[tactic(auto, unfolding(crate::specs::Operations::answer_of))]
    pub fn answer(&mut self, thread: &mut Thread, process: u8, is_full: bool)
        ensures exact { (t : Tree) (code : Code)
            → answer_of (kernel_state_of t self.old) (remainder_of code thread.old) process is_full
            ≡ Goes (remainder_of code thread.new) (kernel_state_of t self.new) }
        ensures continues { Continues self.old self.new }
        ensures grows { Grows self.old.out self.new.out }
    {
        let place = usize::from(process);
        if place < self.variables.len() {
            thread.answer(&mut self.variables[place], u16::from(is_full));
        }
    }
}
