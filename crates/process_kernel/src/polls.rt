//! Polls (`do_poll` of `process.c`).

ghost use Rattle.std.specs.Prelude.{◌≡◌, true};
ghost use Rattle.process_kernel.specs.Views.{Follows};
ghost use Rattle.process_kernel.specs.ProcessList.{holds_member};
ghost use Rattle.process_kernel.specs.Process.{poll_turn_of, walk_polls, do_poll, do_poll_if_requested};

use crate::event::system_event;
use crate::machine::{Machine, Stop};
use crate::process::Member;
use program_tree::{Program, SystemEvent};

impl Machine {
    /// If a poll was requested, polls each listed process that needs a poll.
    ///
    /// # Errors
    /// `Halted` if the mote halts meanwhile; `Memory` if an allocation fails.
    #[inline(always)]
    #[tactic(auto, unfolding(crate::specs::Process::do_poll, crate::specs::Process::do_poll_if_requested))]
    pub fn poll_due(&mut self, program: &Program) -> Result<(), Stop>
        ensures follows { Follows program.now self.old result self.new do_poll_if_requested }
    {
        if !self.poll_requested {
            return Ok(());
        }
        self.poll_requested = false;
        self.poll_all(program)
    }

    /// Polls the members of the current process list, one after another.
    #[inline(never)]
    fn poll_all(&mut self, program: &Program) -> Result<(), Stop>
        ensures follows { Follows program.now self.old result self.new
            (λ calls. walk_polls calls self.old.members.items) }
    {
        if self.is_numbered {
            self.poll_first_list(program)
        } else {
            self.poll_snapshot(program)
        }
    }

    /// Polls the members of a list that hasn't changed since the boot or run began.
    #[inline(always)]
    fn poll_first_list(&mut self, program: &Program) -> Result<(), Stop>
        requires numbered { self.old.is_numbered ≡ true }
        ensures follows { Follows program.now self.old result self.new
            (λ calls. walk_polls calls self.old.members.items) }
    {
        for place in 0..self.members.len() {
            let member = self.first_member(place);
            let is_there = self.is_still_on_list(member);
            self.poll_in_turn(program, member, is_there)?;
        }
        Ok(())
    }

    /// Polls the members of a list that has changed. The function is not inlined, because its frame contains a copy of
    /// the list.
    #[inline(never)]
    fn poll_snapshot(&mut self, program: &Program) -> Result<(), Stop>
        ensures follows { Follows program.now self.old result self.new
            (λ calls. walk_polls calls self.old.members.items) }
    {
        let members = self.snapshot();
        self.walk_polls(program, members.as_slice())
    }

    /// Calls each of these incarnations that needs a poll when its turn comes.
    fn walk_polls(&mut self, program: &Program, members: &[Member]) -> Result<(), Stop>
        ensures follows { Follows program.now self.old result self.new (λ calls. walk_polls calls members.now) }
    {
        for member in members {
            let is_there = self.is_on_list(*member);
            self.poll_in_turn(program, *member, is_there)?;
        }
        Ok(())
    }

    /// Takes the turn of an incarnation in the polls: if it is on the list and needs a poll, it is called with POLL.
    #[inline(always)]
    #[tactic(auto, unfolding(crate::specs::Process::poll_turn_of))]
    fn poll_in_turn(
        &mut self,
        program: &Program,
        member: Member,
        is_there: bool,
    ) -> Result<(), Stop>
        requires membership { is_there ≡ holds_member self.old.members.items member }
        ensures follows { Follows program.now self.old result self.new
            (λ calls state. poll_turn_of calls state member) }
    {
        if !is_there {
            return Ok(());
        }
        if !self.process_needs_poll(member.process) {
            return Ok(());
        }
        self.set_needs_poll(member.process, false);
        self.call(program, member.process, &system_event(SystemEvent::Poll, 0))
    }
}
