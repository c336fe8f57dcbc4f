//! The process list, its changes, and the threads of its processes.

ghost use Rattle.std.specs.Prelude.{◌≡◌, ◌<◌, ◌+◌, ◌∷◌, false, not, OnOk, IfOk, Some, filter, length, slice_get};
ghost use Rattle.program_tree.specs.Code.{Tree, Code};
ghost use Rattle.protothread.specs.Places.{remainder_of};
ghost use Rattle.process_kernel.specs.ProcessList.{is_same as are_same, place_of, is_found_in, put_remainder};
ghost use Rattle.process_kernel.specs.ProcessList.{enlist_of, exiting_of, unlisted_of, leave_of, numbered_from};
ghost use Rattle.process_kernel.specs.ProcessList.{with_fresh_body, with_fresh_process};
ghost use Rattle.process_kernel.specs.Thread.{remainder_at};
ghost use Rattle.process_kernel.specs.Views.{remainder_of_body, first_list_of, kernel_state_of, StepMatches, Grows};
ghost use Rattle.process_kernel.specs.Views.{Continues};

use crate::machine::{MOST_PROCESSES, Machine, Stop};
use crate::process::{Member, ProcessState};
use crate::table::is_same;
use arrayvec::ArrayVec;
use program_tree::Proc;
use protothread::{Part, Thread};
use std::alloc::AllocError;
use std::mem;
use trace_lines::What;

impl Machine {
    /// The current process list.
    pub fn snapshot(&self) -> ArrayVec<Member, MOST_PROCESSES>
        ensures members { result.items ≡ self.now.members.items }
    {
        let mut members = ArrayVec::new();
        members.try_extend_from_slice(&self.members).unwrap();
        members
    }

    /// The incarnation at this place of the process list when the boot or run began.
    #[inline(always)]
    pub fn first_member(&self, place: usize) -> Member
        requires in_range { place < length (first_list_of self.now) }
        ensures member { slice_get (first_list_of self.now) place ≡ Some result }
    {
        if self.is_numbered {
            self.members[place]
        } else {
            self.first_list[place]
        }
    }

    /// Copies the process list of the beginning of a boot or run, before the list changes for the first time.
    fn keep_first_list(&mut self) -> Result<(), AllocError>
        ensures exact { (t : Tree) → kernel_state_of t self.new ≡ kernel_state_of t self.old }
        ensures unnumbered { OnOk result (self.new.is_numbered ≡ false) }
        ensures first { OnOk result (self.new.first_list.items ≡ first_list_of self.old) }
        ensures members { self.new.members ≡ self.old.members }
        ensures view { self.new.view ≡ self.old.view }
        ensures units { self.new.fuel ≡ self.old.fuel }
        ensures out { self.new.out ≡ self.old.out }
    {
        if self.is_numbered {
            self.first_list.clear();
            self.first_list.extend_from_slice(&self.members)?;
            self.is_numbered = false;
        }
        Ok(())
    }

    /// Puts a thread back as the body of a process.
    #[inline(always)]
    #[tactic(auto, using(crate::proofs::Remainders::remainders_set, crate::proofs::Remainders::remainders_set_past), unfolding(crate::specs::ProcessList::put_remainder))]
    pub fn put_thread(&mut self, process: u8, thread: Box<Thread>)
        ensures exact { (t : Tree) (code : Code) → slice_get t.codes process ≡ Some code
            → kernel_state_of t self.new ≡ put_remainder (kernel_state_of t self.old) process
            (remainder_of code thread.value) }
        ensures continues { Continues self.old self.new }
        ensures grows { Grows self.old.out self.new.out }
    {
        let place = usize::from(process);
        if place < self.threads.len() {
            self.threads[place] = Some(thread);
        }
    }

    /// Takes the body of a process out of the table, if it is there. A body that isn't in the table is fresh.
    #[inline(always)]
    #[tactic(auto, using(crate::proofs::Remainders::remainders_get, crate::proofs::Remainders::remainders_past, crate::proofs::Remainders::remainders_fresh, crate::proofs::Remainders::fresh_past))]
    fn lift_thread(&mut self, process: u8) -> Option<Box<Thread>>
        ensures exact { (t : Tree) (code : Code) → slice_get t.codes process ≡ Some code
            → remainder_of_body code result ≡ remainder_at (kernel_state_of t self.old) code process }
        ensures after { (t : Tree) → kernel_state_of t self.new ≡
            with_fresh_body (kernel_state_of t self.old) process }
        ensures continues { Continues self.old self.new }
        ensures grows { Grows self.old.out self.new.out }
    {
        let place = usize::from(process);
        if place < self.threads.len() {
            mem::replace(&mut self.threads[place], None)
        } else {
            None
        }
    }

    /// Takes the body of a process, and leaves a fresh body instead.
    ///
    /// # Errors
    ///
    /// Out of memory for a fresh body. A fresh body is allocated only if no body is in the table: at the first call
    /// since the start of the process, or while its body is taken out.
    #[inline(always)]
    pub fn take_thread(&mut self, process: u8) -> Result<Box<Thread>, AllocError>
        ensures exact { (t : Tree) (code : Code) → slice_get t.codes process ≡ Some code
            → IfOk result (λ thread. remainder_of code thread.value
            ≡ remainder_at (kernel_state_of t self.old) code process) }
        ensures after { (t : Tree) → kernel_state_of t self.new ≡
            with_fresh_body (kernel_state_of t self.old) process }
        ensures continues { Continues self.old self.new }
        ensures grows { Grows self.old.out self.new.out }
    {
        match self.lift_thread(process) {
            Some(thread) => Ok(thread),
            None => Ok(Box::new(*self.threads.allocator(), Thread::fresh(Part::Body))?),
        }
    }

    /// Makes the body of a process fresh.
    #[tactic(auto, using(crate::proofs::Remainders::remainders_fresh, crate::proofs::Remainders::fresh_past))]
    fn refresh_body(&mut self, process: u8)
        ensures exact { (t : Tree) → kernel_state_of t self.new ≡
            with_fresh_body (kernel_state_of t self.old) process }
        ensures continues { Continues self.old self.new }
        ensures grows { Grows self.old.out self.new.out }
    {
        let place = usize::from(process);
        if place < self.threads.len() {
            self.threads[place] = None;
        }
    }

    /// Gives a process of the program a fresh body.
    fn refresh(&mut self, process: Proc)
        ensures exact { (t : Tree)
            → kernel_state_of t self.new ≡ with_fresh_process (kernel_state_of t self.old) process }
        ensures continues { Continues self.old self.new }
        ensures grows { Grows self.old.out self.new.out }
    {
        match process {
            Proc::Own(number) => self.refresh_body(number),
            Proc::Etimer | Proc::Ctimer | Proc::Radio => {}
        }
    }

    /// Puts a new incarnation at the front of the list. Incarnations without a number left count as out of memory.
    fn list_first(&mut self, process: Proc) -> Result<(), AllocError>
        requires process_exists { place_of process < length self.old.view.states.items }
        requires away { is_found_in self.old.members.items process ≡ false }
        ensures exact { (t : Tree) → OnOk result
            (kernel_state_of t self.new ≡ record (kernel_state_of t self.old) {
              members = record { process = process; incarnation = self.old.started } ∷ self.old.members.items;
              started = self.old.started + 1;
            }) }
        ensures continues { OnOk result (Continues self.old self.new) }
        ensures grows { Grows self.old.out self.new.out }
    {
        let incarnation = self.started;
        let Some(started) = incarnation.checked_add(1) else {
            return Err(AllocError);
        };
        self.keep_first_list()?;
        self.members.insert(
            0,
            Member {
                process,
                incarnation,
            },
        )?;
        self.started = started;
        Ok(())
    }

    /// Adds a new incarnation at the front of the list. It is running, and its body is fresh.
    ///
    /// # Errors
    /// `Memory` if an allocation for the list or for the line fails. The error is never `Halted`.
    #[tactic(auto, unfolding(crate::specs::ProcessList::enlist_of))]
    pub fn enlist(&mut self, process: Proc) -> Result<(), Stop>
        requires process_exists { place_of process < length self.old.view.states.items }
        requires away { is_found_in self.old.members.items process ≡ false }
        ensures exact { (t : Tree) → StepMatches result (kernel_state_of t self.new)
            (enlist_of (kernel_state_of t self.old) process) }
        ensures continues { OnOk result (Continues self.old self.new) }
        ensures grows { Grows self.old.out self.new.out }
    {
        self.list_first(process)?;
        self.set_state(process, ProcessState::Running);
        self.refresh(process);
        self.write(What::Start(process))
    }

    /// Begins the exit of a process.
    #[tactic(auto, unfolding(crate::specs::ProcessList::exiting_of))]
    pub fn begin_exit(&mut self, process: Proc)
        ensures exact { (t : Tree) → kernel_state_of t self.new ≡ exiting_of (kernel_state_of t self.old) process }
        ensures continues { Continues self.old self.new }
        ensures grows { Grows self.old.out self.new.out }
    {
        self.set_state(process, ProcessState::Off);
        self.set_exiting(process, true);
    }

    /// Removes a process from the list.
    #[tactic(auto, unfolding(crate::specs::ProcessList::unlisted_of))]
    fn unlist(&mut self, process: Proc) -> Result<(), AllocError>
        ensures exact { (t : Tree)
            → OnOk result (kernel_state_of t self.new ≡ unlisted_of (kernel_state_of t self.old) process) }
        ensures continues { OnOk result (Continues self.old self.new) }
        ensures grows { Grows self.old.out self.new.out }
    {
        self.keep_first_list()?;
        self.members
            .retain(|member| !is_same(member.process, process));
        Ok(())
    }

    /// Ends the exit of a process: the process leaves the list.
    ///
    /// # Errors
    /// `Memory` if an allocation for the list or for the line fails. The error is never `Halted`.
    #[tactic(auto, unfolding(crate::specs::ProcessList::leave_of))]
    pub fn leave(&mut self, process: Proc) -> Result<(), Stop>
        ensures exact { (t : Tree)
            → StepMatches result (kernel_state_of t self.new) (leave_of (kernel_state_of t self.old) process) }
        ensures continues { OnOk result (Continues self.old self.new) }
        ensures grows { Grows self.old.out self.new.out }
    {
        self.set_exiting(process, false);
        self.unlist(process)?;
        self.write(What::Leave(process))
    }
}
