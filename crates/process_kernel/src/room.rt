//! The memory of a kernel, allocated when the kernel is made.

ghost use Rattle.std.specs.Prelude.{◌≡◌, ◌≤◌, ◌+◌, false, [], IfOk, OnOk, length, map, replicate};
ghost use Rattle.mote_timers.specs.TimerLists.{new_timers};
ghost use Rattle.program_tree.specs.Program.{tree_of};
ghost use Rattle.protothread.specs.declared.part.Part.TheVariants.{Body};
ghost use Rattle.protothread.specs.Remainder.{fresh_of};
ghost use Rattle.process_kernel.specs.KernelModel.{unbooted};
ghost use Rattle.process_kernel.specs.Views.{kernel_state_of, remainders_of};

use crate::look::KernelView;
use crate::machine::Machine;
use crate::process::ProcessState;
use crate::ring::Ring;
use event_queue::EventQueue;
use mote_timers::{Callbacks, Timers};
use program_tree::Program;
use protothread::{Fuel, Semaphore, Thread, Vars};
use std::alloc::{AllocError, Global};
use trace_lines::Out;

/// A fresh body for each process. No body is allocated before its process is called.
fn fresh_bodies(alloc: Global, program: &Program) -> Result<Vec<Option<Box<Thread>>>, AllocError>
    ensures fresh { IfOk result (λ threads. remainders_of (tree_of program.now).codes threads.items
        ≡ map (λ c. fresh_of c Body) (tree_of program.now).codes) }
{
    let mut threads = Vec::with_capacity(alloc, usize::from(program.processes()))?;
    for _process in 0..program.processes() {
        threads.push(None)?;
    }
    Ok(threads)
}

fn first_variables(alloc: Global, program: &Program) -> Result<Vec<Vars>, AllocError>
    ensures variables { IfOk result (λ variables. variables.items ≡ map (λ c. c.starts) (tree_of program.now).codes) }
{
    let mut variables = Vec::with_capacity(alloc, usize::from(program.processes()))?;
    for process in 0..program.processes() {
        variables.push(Vars::new(program.process(process)))?;
    }
    Ok(variables)
}

fn first_semaphores(alloc: Global, program: &Program) -> Result<Vec<Semaphore>, AllocError>
    ensures semaphores { IfOk result (λ semaphores. semaphores.items ≡ (tree_of program.now).counts) }
{
    let mut semaphores = Vec::new(alloc);
    for count in program.semaphores() {
        semaphores.push(Semaphore::new(*count))?;
    }
    Ok(semaphores)
}

/// The view that a protothread of a mote with this number has before the boot.
fn first_view(alloc: Global, program: &Program, mote: u16) -> Result<KernelView, AllocError>
    ensures mote { IfOk result (λ view. (view.mote ≡ mote) × (view.moment ≡ 0)) }
    ensures timers { let n = length (tree_of program.now).timers in
        IfOk result (λ view. (view.timer_count ≡ n) × (view.timers ≡ new_timers n)) }
    ensures states { IfOk result (λ view. view.states.items
        ≡ replicate (length (tree_of program.now).processes + 3) ProcessState.Off) }
    ensures semaphores { IfOk result (λ view. view.semaphores.items ≡ (tree_of program.now).counts) }
{
    let timers = program.timers();
    let places = usize::from(program.processes()) + 3;
    Ok(KernelView {
        moment: 0,
        mote,
        timer_count: timers,
        semaphores: first_semaphores(alloc, program)?,
        timers: Timers::new(alloc, timers)?,
        states: vec![in alloc; ProcessState::Off; places]?,
    })
}

impl Machine {
    /// A kernel whose tables have no process yet.
    #[tactic(auto, unfolding(crate::specs::KernelModel::unbooted))]
    fn without_tables(
        alloc: Global,
        program: &Program,
        mote: u16,
        queue: u16,
    ) -> Result<Machine, AllocError>
        requires some_room { 1 ≤ queue }
        requires limit { queue ≤ 128 }
        ensures state { let t = tree_of program.now in
            IfOk result (λ m. kernel_state_of t m ≡ record
            (unbooted t mote queue).state {
              exiting = [];
              needs_poll = [];
              remainders = remainders_of t.codes [];
              variables = [];
            }) }
    {
        Ok(Machine {
            queue: EventQueue::new(alloc, queue)?,
            ring: Ring::new(alloc)?,
            callbacks: Callbacks::new(alloc, program.timers())?,
            view: first_view(alloc, program, mote)?,
            exiting: Vec::new(alloc),
            first_list: Vec::new(alloc),
            needs_poll: Vec::new(alloc),
            members: Vec::new(alloc),
            variables: Vec::new(alloc),
            threads: Vec::new(alloc),
            started: 0,
            is_numbered: false,
            poll_requested: false,
            sent: 0,
            fuel: Fuel::new(0),
            out: Out::new(alloc),
        })
    }

    /// Makes the tables of the processes, none of which is listed, and room for a list of all processes. The data that
    /// a run uses are allocated one after another, right after the timers and the states, so that they are close
    /// together.
    fn make_tables(&mut self, alloc: Global, program: &Program) -> Result<(), AllocError>
        ensures tables { let t = tree_of program.now in let n = length t.processes + 3 in
            OnOk result (kernel_state_of t self.new
            ≡ record (kernel_state_of t self.old) {
              exiting = replicate n false;
              needs_poll = replicate n false;
              remainders = map (λ c. fresh_of c Body) t.codes;
              variables = map (λ c. c.starts) t.codes;
              members = [];
            }) }
    {
        let places = usize::from(program.processes()) + 3;
        self.needs_poll = vec![in alloc; false; places]?;
        self.members = Vec::with_capacity(alloc, places)?;
        self.threads = fresh_bodies(alloc, program)?;
        self.variables = first_variables(alloc, program)?;
        self.exiting = vec![in alloc; false; places]?;
        self.first_list = Vec::with_capacity(alloc, places)?;
        Ok(())
    }

    /// The kernel of a mote that was never booted.
    ///
    /// # Errors
    /// `AllocError` if an allocation fails.
    #[tactic(auto, unfolding(crate::specs::KernelModel::unbooted))]
    pub fn new(
        alloc: Global,
        program: &Program,
        mote: u16,
        queue: u16,
    ) -> Result<Machine, AllocError>
        requires some_room { 1 ≤ queue }
        requires limit { queue ≤ 128 }
        ensures state { IfOk result (λ m. kernel_state_of (tree_of program.now) m
            ≡ (unbooted (tree_of program.now) mote queue).state) }
    {
        let mut machine = Machine::without_tables(alloc, program, mote, queue)?;
        machine.make_tables(alloc, program)?;
        Ok(machine)
    }
}
