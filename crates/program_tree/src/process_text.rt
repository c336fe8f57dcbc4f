//! The text of each process of a program.
//!
//! The fields are public for the crates that read and print programs. The facts in the ghost fields hold for each
//! value.
ghost use Rattle.std.specs.Prelude.{◌≡◌, ◌+◌, ◌<◌, ◌≤◌, length, map, slice_get, IsTrue, IfSome, option_map};
ghost use Rattle.std.specs.Option.{ForSome};
ghost use Rattle.std.specs.List.{All};
ghost use Rattle.program_tree.specs.Scope.{block_fits, threads_fit, earlier_threads};
ghost use Rattle.program_tree.specs.FlatBlock.{tree_in};
ghost use Rattle.program_tree.specs.Tree.{IsWithinLimits};

use crate::flat_block::FlatBlock;
use crate::names::Names;

/// The text that a process runs: its variables with their first values, its timers, its threads, and its blocks.
#[derive(Drop)]
pub struct ProcessText {
    pub number: u8,
    pub variables: Names,
    pub starts: Vec<u16>,
    pub first_timer: u8,
    pub etimers: Names,
    pub ctimers: Names,
    pub callbacks: Vec<FlatBlock>,
    pub threads: Names,
    pub thread_blocks: Vec<FlatBlock>,
    pub on_poll: Option<FlatBlock>,
    pub on_exit: Option<FlatBlock>,
    pub body: FlatBlock,
    ghost few_variables: { length variables ≤ 64 },
    ghost paired: { length starts.items ≡ length variables },
    ghost few_timers: { first_timer + length etimers + length ctimers ≤ 64 },
    ghost each_callback: { length callbacks.items ≡ length ctimers },
    ghost few_threads: { length threads ≤ 7 },
    ghost each_thread: { length thread_blocks.items ≡ length threads },
    ghost body_within: { IsWithinLimits (tree_in body) },
    ghost callbacks_within: { All (λ b. IsWithinLimits (tree_in b)) callbacks.items },
    ghost threads_within: { All (λ b. IsWithinLimits (tree_in b)) thread_blocks.items },
    ghost on_poll_within: { ForSome on_poll (λ b. IsWithinLimits (tree_in b)) },
    ghost on_exit_within: { ForSome on_exit (λ b. IsWithinLimits (tree_in b)) },
    ghost spawns_earlier: { IsTrue (threads_fit earlier_threads 0 (map tree_in thread_blocks.items)) },
}

impl ProcessText {
    ghost use Rattle.program_tree.specs.Code.{callback_at};
    ghost use Rattle.program_tree.specs.ProcessText.{code_of};

    /// The number of the process.
    pub fn number(&self) -> u8
        ensures number { result ≡ (code_of self.now).number }
    {
        self.number
    }

    /// The names of the variables, in the order of their declaration.
    pub fn variables(&self) -> &Names
        ensures variables { result.now ≡ (code_of self.now).variables }
    {
        &self.variables
    }

    /// The first values of the variables, in the order of their declaration.
    pub fn starts(&self) -> &[u16]
        ensures value { result.now ≡ (code_of self.now).starts }
        ensures paired { length result.now ≡ length (code_of self.now).variables }
        ensures bounded { length result.now ≤ 64 }
    {
        &self.starts
    }

    /// The body. Like each block of a process, it has at most 4,096 statements, and its blocks are nested at most 32
    /// deep.
    pub fn body(&self) -> &FlatBlock
        ensures value { tree_in result.now ≡ (code_of self.now).body }
        ensures within { IsWithinLimits (tree_in result.now) }
    {
        &self.body
    }

    /// The block that runs before the body at POLL, if the process has one.
    pub fn on_poll(&self) -> Option<&FlatBlock>
        ensures value { option_map (λ b. tree_in b.now) result ≡ (code_of self.now).on_poll }
        ensures within { IfSome result (λ b. IsWithinLimits (tree_in b.now)) }
    {
        self.on_poll.as_ref()
    }

    /// The block that runs before the body at EXIT, if the process has one.
    pub fn on_exit(&self) -> Option<&FlatBlock>
        ensures value { option_map (λ b. tree_in b.now) result ≡ (code_of self.now).on_exit }
        ensures within { IfSome result (λ b. IsWithinLimits (tree_in b.now)) }
    {
        self.on_exit.as_ref()
    }

    /// The number of threads. A process has at most 7, and each thread spawns only threads before itself.
    pub fn threads(&self) -> u8
        ensures value { result ≡ length (code_of self.now).thread_bodies }
        ensures bounded { result ≤ 7 }
        ensures within { All (λ b. IsWithinLimits b) (code_of self.now).thread_bodies }
        ensures earlier { IsTrue (threads_fit earlier_threads 0 (code_of self.now).thread_bodies) }
    {
        self.thread_blocks.len() as u8
    }

    /// The block of a thread, by the thread's number, if there is such a thread. The block spawns only threads before
    /// that thread.
    pub fn thread(&self, number: u8) -> Option<&FlatBlock>
        ensures value { option_map (λ b. tree_in b.now) result ≡ slice_get (code_of self.now).thread_bodies number }
        ensures number_bounded { IfSome result (λ b. number < 7) }
        ensures within { IfSome result (λ b. IsWithinLimits (tree_in b.now)) }
        ensures earlier { IfSome result (λ b. IsTrue (block_fits (earlier_threads number) (tree_in b.now))) }
    {
        self.thread_blocks.get(usize::from(number))
    }

    /// The block of a callback timer, by the timer's number in the program, if the timer is one of this process.
    pub fn callback(&self, timer: u8) -> Option<&FlatBlock>
        ensures value { option_map (λ b. tree_in b.now) result ≡ callback_at (code_of self.now) timer }
        ensures within { IfSome result (λ b. IsWithinLimits (tree_in b.now)) }
    {
        let before = usize::from(self.first_timer) + self.etimers.len();
        self.callbacks.get(usize::from(timer).checked_sub(before)?)
    }
}
