//! The tables of processes.

ghost use Rattle.std.specs.Prelude.{◌≡◌, ◌||◌, true, nat_lt, length, slice_get, unwrap_or};
ghost use Rattle.program_tree.specs.Code.{Tree};
ghost use Rattle.process_kernel.specs.ProcessList.{place_of, is_same as are_same, holds_member, is_found_in};
ghost use Rattle.process_kernel.specs.ProcessList.{state_at as state_of_process, at_process, is_running_state};
ghost use Rattle.process_kernel.specs.ProcessList.{is_called_state, with_state, with_exiting, with_needs_poll};
ghost use Rattle.process_kernel.specs.ProcessList.{is_alive as lives};
ghost use Rattle.process_kernel.specs.Views.{first_list_of, kernel_state_of, Grows, Continues, OnlyAdds};

use crate::machine::Machine;
use crate::process::{Member, ProcessState};
use program_tree::Proc;

/// The place of a process in the tables. Three tests are faster than a `match`, which is a jump table at each use.
#[inline(always)]
pub fn place_of(process: Proc) -> usize
    ensures value { result ≡ place_of process }
{
    let system = usize::from(matches!(process, Proc::Ctimer))
        + 2 * usize::from(matches!(process, Proc::Radio));
    if let Proc::Own(number) = process {
        usize::from(number) + 3
    } else {
        system
    }
}

/// Returns `true` if both are the same process.
pub fn is_same(left: Proc, right: Proc) -> bool
    ensures value { result ≡ are_same left right }
{
    place_of(left) == place_of(right)
}

/// The state at a place of the table. Past the end of the table, it is `Off`.
pub fn state_at(states: &[ProcessState], place: usize) -> ProcessState
    ensures value { result ≡ unwrap_or (slice_get states.now place) ProcessState.Off }
{
    states.get(place).copied().unwrap_or(ProcessState::Off)
}

/// Returns `true` if a process in this state has started and not ended: it is running or called.
pub fn is_alive(state: ProcessState) -> bool
    ensures value { result ≡ lives state }
{
    match state {
        ProcessState::Off => false,
        ProcessState::Running => true,
        ProcessState::Called => true,
    }
}

impl Machine {
    /// The state of a process; `Off` if the mote has no such process.
    pub fn process_state(&self, process: Proc) -> ProcessState
        ensures value { result ≡ state_of_process self.now.view.states.items process }
    {
        state_at(&self.view.states, place_of(process))
    }

    /// Returns `true` if a process is running: it has started, and isn't being called.
    pub fn is_running(&self, process: Proc) -> bool
        ensures value { result ≡ is_running_state (state_of_process self.now.view.states.items process) }
    {
        match self.process_state(process) {
            ProcessState::Off => false,
            ProcessState::Running => true,
            ProcessState::Called => false,
        }
    }

    /// Returns `true` if a process is being exited; `false` if the mote has no such process.
    pub fn is_exiting(&self, process: Proc) -> bool
        ensures value { result ≡ at_process self.now.exiting.items process }
    {
        self.exiting
            .get(place_of(process))
            .copied()
            .unwrap_or(false)
    }

    /// Returns `true` if the body of a process or one of its handlers is being executed, or the process is being
    /// exited.
    pub fn is_busy(&self, process: Proc) -> bool
        ensures value { result ≡ (is_called_state
            (state_of_process self.now.view.states.items process) || at_process self.now.exiting.items process) }
    {
        match self.process_state(process) {
            ProcessState::Off => self.is_exiting(process),
            ProcessState::Running => self.is_exiting(process),
            ProcessState::Called => true,
        }
    }

    /// Returns `true` if a process needs a poll; `false` if the mote has no such process.
    pub fn process_needs_poll(&self, process: Proc) -> bool
        ensures value { result ≡ at_process self.now.needs_poll.items process }
    {
        self.needs_poll
            .get(place_of(process))
            .copied()
            .unwrap_or(false)
    }

    /// Returns `true` if the mote has such a process.
    pub fn has_process(&self, process: Proc) -> bool
        ensures value { result ≡ nat_lt (place_of process) (length self.now.view.states.items) }
    {
        place_of(process) < self.view.states.len()
    }

    /// Returns `true` if this incarnation is on the process list. If the incarnations are numbered, it is at the place
    /// with its number, or not on the list.
    #[inline(always)]
    #[tactic(auto, using(crate::proofs::Numbered::held_there, crate::proofs::Numbered::held_past))]
    pub fn is_on_list(&self, member: Member) -> bool
        ensures value { result ≡ holds_member self.now.members.items member }
    {
        if !self.is_numbered {
            return self.is_among_all(member);
        }
        let place = member.incarnation as usize;
        place < self.members.len() && is_same(member.process, self.members[place].process)
    }

    /// Returns `true` if an incarnation that was on the process list when the boot or run began is still on it. A list
    /// that is still numbered hasn't changed since then.
    #[inline(always)]
    pub fn is_still_on_list(&self, member: Member) -> bool
        requires was_listed { holds_member (first_list_of self.now) member ≡ true }
        ensures value { result ≡ holds_member self.now.members.items member }
    {
        if self.is_numbered {
            true
        } else {
            self.is_among_all(member)
        }
    }

    /// Returns `true` if this incarnation is on the process list. The function looks at each member.
    #[inline(never)]
    fn is_among_all(&self, member: Member) -> bool
        ensures value { result ≡ holds_member self.now.members.items member }
    {
        self.members.iter().any(|x| member.incarnation == x.incarnation
            && place_of(member.process) == place_of(x.process))
    }

    /// Returns `true` if some incarnation of the process is on the process list.
    pub fn is_listed(&self, process: Proc) -> bool
        ensures value { result ≡ is_found_in self.now.members.items process }
    {
        self.members
            .iter()
            .any(|x| place_of(process) == place_of(x.process))
    }

    /// Sets the state of a process. If the mote has no such process, nothing changes.
    #[tactic(auto, unfolding(crate::specs::ProcessList::with_state))]
    pub fn set_state(&mut self, process: Proc, state: ProcessState)
        ensures exact { (t : Tree)
            → kernel_state_of t self.new ≡ with_state (kernel_state_of t self.old) process state }
        ensures continues { Continues self.old self.new }
        ensures grows { Grows self.old.out self.new.out }
    {
        let place = place_of(process);
        if place < self.view.states.len() {
            self.view.set_state(place, state);
        }
    }

    /// Records whether a process is being exited. If the mote has no such process, nothing changes.
    #[tactic(auto, unfolding(crate::specs::ProcessList::with_exiting))]
    pub fn set_exiting(&mut self, process: Proc, exiting: bool)
        ensures exact { (t : Tree)
            → kernel_state_of t self.new ≡ with_exiting (kernel_state_of t self.old) process exiting }
        ensures continues { Continues self.old self.new }
        ensures grows { Grows self.old.out self.new.out }
    {
        let place = place_of(process);
        if place < self.exiting.len() {
            self.exiting[place] = exiting;
        }
    }

    /// Records whether a process needs a poll. If the mote has no such process, nothing changes.
    #[tactic(auto, unfolding(crate::specs::ProcessList::with_needs_poll))]
    pub fn set_needs_poll(&mut self, process: Proc, needs_poll: bool)
        ensures exact { (t : Tree)
            → kernel_state_of t self.new ≡ with_needs_poll (kernel_state_of t self.old) process needs_poll }
        ensures continues { Continues self.old self.new }
        ensures adds { OnlyAdds self.old self.new }
    {
        let place = place_of(process);
        if place < self.needs_poll.len() {
            self.needs_poll[place] = needs_poll;
        }
    }
}
