//! The delivery of events (`do_event` of `process.c`).

ghost use Rattle.std.specs.Prelude.{◌≡◌, true};
ghost use Rattle.process_kernel.specs.Process.{give_of, visit_of, walk_broadcast, deliver_of, do_event};
ghost use Rattle.process_kernel.specs.Views.{Follows};

use crate::machine::{Machine, Stop};
use crate::process::Member;
use event_queue::Posted;
use program_tree::{Proc, Program, Target};
use trace_lines::What;

impl Machine {
    /// Removes the oldest event from the queue, if there is one, and delivers it.
    ///
    /// # Errors
    /// `Halted` if the mote halts meanwhile; `Memory` if an allocation fails.
    pub fn deliver_front(&mut self, program: &Program) -> Result<(), Stop>
        ensures follows { Follows program.now self.old result self.new
            (λ calls. do_event calls self.old.queue.events) }
    {
        match self.queue.take() {
            Some(posted) => self.deliver(program, &posted),
            None => Ok(()),
        }
    }

    /// Delivers an event to the process or processes to which it was posted.
    #[tactic(auto, unfolding(crate::specs::Process::deliver_of))]
    fn deliver(&mut self, program: &Program, posted: &Posted) -> Result<(), Stop>
        ensures follows { Follows program.now self.old result self.new
            (λ calls state. deliver_of calls state posted.now) }
    {
        match posted.target {
            Target::One(process) => {
                let is_there = self.is_listed(process);
                self.give(program, posted, process, is_there)
            }
            Target::All => self.broadcast(program, posted),
        }
    }

    /// Delivers an event to each member of the current process list.
    fn broadcast(&mut self, program: &Program, posted: &Posted) -> Result<(), Stop>
        ensures follows { Follows program.now self.old result self.new
            (λ calls. walk_broadcast calls posted.now self.old.members.items) }
    {
        if self.is_numbered {
            self.broadcast_to_first_list(program, posted)
        } else {
            self.broadcast_to_snapshot(program, posted)
        }
    }

    /// Delivers an event to each member of a list that hasn't changed since the boot or run began.
    fn broadcast_to_first_list(&mut self, program: &Program, posted: &Posted) -> Result<(), Stop>
        requires numbered { self.old.is_numbered ≡ true }
        ensures follows { Follows program.now self.old result self.new
            (λ calls. walk_broadcast calls posted.now self.old.members.items) }
    {
        for place in 0..self.members.len() {
            let member = self.first_member(place);
            self.give_in_turn(program, posted, member)?;
        }
        Ok(())
    }

    /// Delivers an event to each member of a list that has changed. The function is not inlined, because its frame
    /// contains a copy of the list.
    #[inline(never)]
    fn broadcast_to_snapshot(&mut self, program: &Program, posted: &Posted) -> Result<(), Stop>
        ensures follows { Follows program.now self.old result self.new
            (λ calls. walk_broadcast calls posted.now self.old.members.items) }
    {
        let members = self.snapshot();
        self.walk_broadcast(program, posted, members.as_slice())
    }

    /// Delivers an event for all processes to each of these members.
    fn walk_broadcast(
        &mut self,
        program: &Program,
        posted: &Posted,
        members: &[Member],
    ) -> Result<(), Stop>
        ensures follows { Follows program.now self.old result self.new
            (λ calls. walk_broadcast calls posted.now members.now) }
    {
        for member in members {
            self.give_in_turn(program, posted, *member)?;
        }
        Ok(())
    }

    /// Executes one incarnation's turn in the walk of an event for all processes. First the polls run, if a poll is
    /// requested. Then, if the incarnation is still on the list, its process gets the event; otherwise, only a line
    /// `drop` is written.
    #[inline(always)]
    #[tactic(auto, unfolding(crate::specs::Process::visit_of))]
    fn give_in_turn(
        &mut self,
        program: &Program,
        posted: &Posted,
        member: Member,
    ) -> Result<(), Stop>
        ensures follows { Follows program.now self.old result self.new
            (λ calls state. visit_of calls state posted.now member) }
    {
        self.poll_due(program)?;
        let is_there = self.is_on_list(member);
        self.give(program, posted, member.process, is_there)
    }

    /// Gives an event to a process, or drops it if the process isn't on the list.
    #[inline(always)]
    #[tactic(auto, unfolding(crate::specs::Process::give_of))]
    fn give(
        &mut self,
        program: &Program,
        posted: &Posted,
        process: Proc,
        is_there: bool,
    ) -> Result<(), Stop>
        ensures follows { Follows program.now self.old result self.new
            (λ calls state. give_of calls state posted.now process is_there) }
    {
        if !is_there {
            return self.write(What::Drop(posted.serial, process));
        }
        self.write(What::Take(posted.serial, process))?;
        self.call(program, process, &posted.event)
    }
}
