//! The timer operations of a program, and the etimer process.

ghost use Rattle.std.specs.Prelude.{◌≡◌, ◌<◌, OnOk, if◌then◌else◌};
ghost use Rattle.program_tree.specs.Code.{Tree};
ghost use Rattle.program_tree.specs.Program.{tree_of};
ghost use Rattle.mote_timers.specs.Numbers.{with_member, without_member};
ghost use Rattle.process_kernel.specs.Ctimer.{waits_for};
ghost use Rattle.process_kernel.specs.Etimer.{is_callback as is_of_callback, owner_of, add_timer, etimer_set};
ghost use Rattle.process_kernel.specs.Etimer.{etimer_reset, etimer_restart, etimer_stop, fired_of, pass_of, purge_of};
ghost use Rattle.process_kernel.specs.Etimer.{etimer_process};
ghost use Rattle.process_kernel.specs.Views.{kernel_state_of, StepMatches, Grows, Continues};

use crate::event::{is_event, system_event};
use crate::machine::{Machine, Stop};
use program_tree::{Event, Proc, Program, SystemEvent, Target};

fn is_callback(program: &Program, timer: u16) -> bool
    ensures value { result ≡ is_of_callback (tree_of program.now) timer }
{
    timer < program.timers() && program.is_callback(timer)
}

/// The process that gets the event of a timer: the process that sets the timer, or the ctimer process for a callback
/// timer.
fn owner(program: &Program, timer: u16, current: u8) -> Proc
    ensures value { result ≡ owner_of (tree_of program.now) timer current }
{
    if is_callback(program, timer) {
        Proc::Ctimer
    } else {
        Proc::Own(current)
    }
}

impl Machine {
    /// Adds the callback of a timer to the callback list, if the timer has one.
    fn put_callback(&mut self, program: &Program, timer: u16)
        requires is_timer { timer < self.old.view.timer_count }
        ensures exact { kernel_state_of (tree_of program.now) self.new
            ≡ record (kernel_state_of (tree_of program.now) self.old) {
              callbacks = if is_of_callback
                  (tree_of program.now) timer then with_member timer self.old.callbacks.members else
                  self.old.callbacks.members;
            } }
        ensures continues { Continues self.old self.new }
        ensures grows { Grows self.old.out self.new.out }
    {
        if is_callback(program, timer) {
            self.callbacks.put(timer);
        }
    }

    /// Records that a timer was set: the timer's callback, if there is one, waits for the timer, and the etimer
    /// process is to be polled.
    #[tactic(auto, unfolding(crate::specs::Etimer::add_timer))]
    fn timer_is_set(&mut self, program: &Program, timer: u16)
        requires is_timer { timer < self.old.view.timer_count }
        ensures exact { kernel_state_of (tree_of program.now) self.new
            ≡ add_timer (kernel_state_of (tree_of program.now) self.old) timer }
        ensures continues { Continues self.old self.new }
        ensures grows { Grows self.old.out self.new.out }
    {
        self.put_callback(program, timer);
        self.poll(Proc::Etimer);
    }

    /// Sets a timer to an interval in moments that begins now (`etimer_set` of `etimer.c`). The owner of an event
    /// timer is now the process `current`; the owner of a callback timer is the ctimer process. If the mote has no
    /// timer with this number, nothing changes.
    #[tactic(auto, unfolding(crate::specs::Etimer::etimer_set))]
    pub fn set_timer(&mut self, program: &Program, timer: u16, interval: u16, current: u8)
        ensures exact { kernel_state_of (tree_of program.now) self.new
            ≡ etimer_set (kernel_state_of (tree_of program.now) self.old) timer interval current }
        ensures continues { Continues self.old self.new }
        ensures grows { Grows self.old.out self.new.out }
    {
        if timer < self.view.timer_count {
            let owner = owner(program, timer, current);
            self.view
                .timers
                .set(timer, owner, interval, self.view.moment);
            self.timer_is_set(program, timer);
        }
    }

    /// Sets a timer again. Its interval begins at the moment at which the timer was due or is due (`etimer_reset` of
    /// `etimer.c`). The process `current` becomes the timer's owner; for a callback timer, the ctimer process does. If
    /// the mote has no such timer, nothing changes.
    #[tactic(auto, unfolding(crate::specs::Etimer::etimer_reset))]
    pub fn reset_timer(&mut self, program: &Program, timer: u16, current: u8)
        ensures exact { kernel_state_of (tree_of program.now) self.new
            ≡ etimer_reset (kernel_state_of (tree_of program.now) self.old) timer current }
        ensures continues { Continues self.old self.new }
        ensures grows { Grows self.old.out self.new.out }
    {
        if timer < self.view.timer_count {
            self.view
                .timers
                .reset(timer, owner(program, timer, current));
            self.timer_is_set(program, timer);
        }
    }

    /// Sets a timer again. Its interval, which doesn't change, begins now (`etimer_restart` of `etimer.c`). The
    /// process `current` becomes the timer's owner; for a callback timer, the ctimer process does. If the mote has no
    /// such timer, nothing changes.
    #[tactic(auto, unfolding(crate::specs::Etimer::etimer_restart))]
    pub fn restart_timer(&mut self, program: &Program, timer: u16, current: u8)
        ensures exact { kernel_state_of (tree_of program.now) self.new
            ≡ etimer_restart (kernel_state_of (tree_of program.now) self.old) timer current }
        ensures continues { Continues self.old self.new }
        ensures grows { Grows self.old.out self.new.out }
    {
        if timer < self.view.timer_count {
            let owner = owner(program, timer, current);
            self.view.timers.restart(timer, owner, self.view.moment);
            self.timer_is_set(program, timer);
        }
    }

    /// Stops a timer, and removes its callback from the callback list (`etimer_stop` of `etimer.c`). If the mote has
    /// no such timer, nothing changes.
    #[tactic(auto, unfolding(crate::specs::Etimer::etimer_stop))]
    pub fn stop_timer(&mut self, timer: u16)
        ensures exact { (t : Tree) → kernel_state_of t self.new ≡ etimer_stop (kernel_state_of t self.old) timer }
        ensures continues { Continues self.old self.new }
        ensures grows { Grows self.old.out self.new.out }
    {
        if timer < self.view.timer_count {
            self.view.timers.stop(timer);
            self.callbacks.remove(timer);
        }
    }

    /// Removes the callback of a timer from the callback list. Returns `true` if it was on the list.
    pub fn takes_callback(&mut self, timer: u16) -> bool
        ensures waited { (t : Tree) → result ≡ waits_for (kernel_state_of t self.old) timer }
        ensures after { (t : Tree) → kernel_state_of t self.new
            ≡ (if result then record (kernel_state_of t self.old)
            { callbacks = without_member timer self.old.callbacks.members } else kernel_state_of t self.old) }
        ensures continues { Continues self.old self.new }
        ensures grows { Grows self.old.out self.new.out }
    {
        if timer < self.view.timer_count && self.callbacks.holds(timer) {
            self.callbacks.remove(timer)
        } else {
            false
        }
    }

    /// Posts the event of each timer that is due. After each event that is accepted, the walk begins again at the
    /// front of the list.
    #[tactic(auto, unfolding(crate::specs::Etimer::pass_of))]
    fn post_due_timers(&mut self) -> Result<(), Stop>
        ensures exact { (t : Tree)
            → StepMatches result (kernel_state_of t self.new) (pass_of (kernel_state_of t self.old)) }
        ensures continues { OnOk result (Continues self.old self.new) }
        ensures grows { Grows self.old.out self.new.out }
    {
        let mut after = None;
        while let Some((timer, owner)) = self.view.timers.next_due(self.view.moment, after) {
            let is_full = self.post(Target::One(owner), system_event(SystemEvent::Timer, timer))?;
            if is_full {
                self.poll(Proc::Etimer);
                after = Some(timer);
            } else {
                self.view.timers.fire(timer);
                after = None;
            }
        }
        Ok(())
    }

    /// When a process of the program exits, removes its timers from the timer list. They keep their owner.
    #[tactic(auto, unfolding(crate::specs::Etimer::purge_of))]
    fn purge(&mut self, process: u16)
        ensures exact { (t : Tree) → kernel_state_of t self.new ≡ purge_of (kernel_state_of t self.old) process }
        ensures continues { Continues self.old self.new }
        ensures grows { Grows self.old.out self.new.out }
    {
        if process < 256 {
            self.view.timers.purge(Proc::Own(process as u8));
        }
    }

    /// Lets the etimer process react to an event.
    ///
    /// # Errors
    /// `Halted` if the mote has accepted 2^62 events; `Memory` if the allocation for a line fails.
    #[tactic(auto, unfolding(crate::specs::Etimer::etimer_process))]
    pub fn react_as_etimer(&mut self, event: &Event) -> Result<(), Stop>
        ensures exact { (t : Tree) → StepMatches result (kernel_state_of t self.new)
            (etimer_process (kernel_state_of t self.old) event.now) }
        ensures continues { OnOk result (Continues self.old self.new) }
        ensures grows { Grows self.old.out self.new.out }
    {
        if is_event(SystemEvent::Poll, event) {
            return self.post_due_timers();
        }
        if is_event(SystemEvent::Exited, event) {
            self.purge(event.word);
        }
        Ok(())
    }
}
