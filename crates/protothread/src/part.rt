//! The parts of a process's text that a thread can run.
ghost use Rattle.std.specs.Prelude.{◌≡◌, ◌↔◌, IsTrue, true, [], option_map};
ghost use Rattle.program_tree.specs.Flat.{IsFlat};
ghost use Rattle.program_tree.specs.FlatBlock.{tree_in};
ghost use Rattle.program_tree.specs.Program.{code_of};
ghost use Rattle.program_tree.specs.Scope.{block_fits, earlier_threads};
ghost use Rattle.protothread.specs.Calls.{before_number};
ghost use Rattle.protothread.specs.Places.{body_or_end, part_body, thread_body};

use program_tree::{FlatBlock, Instruction, ProcessText};

/// A block of a process's text that a thread runs. A block that the text lacks counts as empty.
#[derive(Clone, Copy, Debug, PartialEq, Eq)]
pub enum Part {
    Body,
    OnPoll,
    OnExit,
    /// The block of a callback timer, by its number.
    Callback(u8),
}

/// The flat code of a block; empty if there is no block.
fn code_of_block(block: Option<&FlatBlock>) -> &[Instruction]
    ensures is_flat { IsFlat (body_or_end (option_map (λ b. tree_in b.now) block.entry)) result.now }
{
    match block {
        Some(block) => block.code(),
        None => &[],
    }
}

/// The flat code of a thread of the process; empty if there is no such thread.
pub(crate) fn thread_code(text: &ProcessText, thread: u8) -> &[Instruction]
    ensures flat { IsFlat (thread_body (code_of text.now) thread) result.now }
    ensures earlier { block_fits (earlier_threads (before_number thread)) (thread_body (code_of text.now) thread)
        ≡ true }
{
    code_of_block(text.thread(thread))
}

impl Part {
    ghost use Rattle.protothread.specs.Remainder.{whole_of};

    /// The flat code of the part. Callers ask for the body most often, so this function tests for it first.
    #[inline(always)]
    pub(crate) fn code(self, text: &ProcessText) -> &[Instruction]
        ensures is_flat { IsFlat (part_body (code_of text.now) self) result.now }
    {
        if let Part::Body = self {
            text.body().code()
        } else {
            self.code_of_any(text)
        }
    }

    /// The flat code of any part.
    #[inline(never)]
    fn code_of_any(self, text: &ProcessText) -> &[Instruction]
        ensures is_flat { IsFlat (part_body (code_of text.now) self) result.now }
    {
        match self {
            Part::Body => text.body().code(),
            Part::OnPoll => code_of_block(text.on_poll()),
            Part::OnExit => code_of_block(text.on_exit()),
            Part::Callback(timer) => code_of_block(text.callback(timer)),
        }
    }

    /// Returns whether the part has no statements.
    pub fn is_empty(self, text: &ProcessText) -> bool
        ensures decides { IsTrue result ↔ (whole_of (code_of text.now) self ≡ []) }
    {
        self.code(text).is_empty()
    }
}
