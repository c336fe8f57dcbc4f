//! The reading of a process's blocks: those of its callback timers and threads, `onpoll`, `onexit` and the body.
ghost use Rattle.std.specs.Prelude.{◌≡◌, ◌≤◌, true, ◌∷◌, [], length, map, IfOk, OnOk, option_map};
ghost use Rattle.std.specs.List.{All};
ghost use Rattle.std.specs.Option.{ForSome};
ghost use Rattle.program_reader.specs.CodeParts.{IsNamedBlock, ReadsBlocks, ReadsHandler, ReadsBody};
ghost use Rattle.program_tree.specs.Grammar.{at_simple, at_thread, block_marks, ctimer_marks, thread_marks};
ghost use Rattle.program_tree.specs.InScope.{name_in, number_in};
ghost use Rattle.program_reader.specs.Head.{FailsIn};
ghost use Rattle.program_reader.specs.Machine as machine;
ghost use Rattle.program_reader.specs.Machine.{new_name};
ghost use Rattle.program_tree.specs.Scope.{block_fits, threads_fit, earlier_threads};
ghost use Rattle.program_reader.specs.Kept.{KeepsTimers};
ghost use Rattle.program_reader.specs.Steps.{read_scope, context_of, fixed, Reads, Fails, Numbered, Fits};
ghost use Rattle.program_tree.specs.FlatBlock.{tree_in};
ghost use Rattle.program_tree.specs.Tree.{a_timer, a_thread, body_map, IsWithinLimits};
ghost use Rattle.program_tree.specs.declared.keyword.Keyword.TheVariants as word;

use crate::declarations::Kind;
use crate::fault::ReadFailure;
use crate::reader::Reader;
use crate::scope::Context;
use program_tree::flat_block::FlatBlock;
use program_tree::keyword::Keyword;

/// The context of the block of a callback, `onpoll` or `onexit`.
const SIMPLE: Context<'static> = Context {
    level: 0,
    simple: true,
    thread: None,
};

impl Reader<'_> {
    /// Reads a block of a process, and makes its flat code.
    fn flat_block(&mut self, place: &Context) -> Result<FlatBlock, ReadFailure>
        requires outermost { place.now.level ≡ 0 }
        ensures names { fixed self.new.scope ≡ fixed self.old.scope }
        ensures no_longer { OnOk result (length self.new.cursor ≤ length self.old.cursor) }
        ensures within { IfOk result (λ b. IsWithinLimits (tree_in b)) }
        ensures ok { IfOk result (λ b. Reads (read_scope self.old.scope) (read_scope self.new.scope)
            (machine.block (context_of place.now))
            (λ n ms. block_marks (context_of place.now) (body_map (name_in n) (tree_in b)) ms) self.old.cursor
            self.new.cursor) }
        ensures numbered { IfOk result (λ b. Numbered (read_scope self.old.scope).names
            (λ n. body_map (number_in n) (body_map (name_in n) (tree_in b))) (tree_in b)) }
        ensures fits { IfOk result (λ b. Fits (read_scope self.old.scope).names (context_of place.now).thread
            (λ w. block_fits w (tree_in b))) }
        ensures err { Fails (read_scope self.old.scope) (machine.block (context_of place.now)) self.old.cursor result }
    {
        let block = self.block(place)?;
        let flat = FlatBlock::new(self.alloc, block)?;
        Ok(flat)
    }

    /// Reads the name and the block of a callback timer.
    #[tactic(auto, using(crate::proofs::BlockLaws::ctimer_steps))]
    fn ctimer(&mut self) -> Result<FlatBlock, ReadFailure>
        ensures no_longer { OnOk result (length self.new.cursor ≤ length self.old.cursor) }
        ensures etimers { OnOk result (self.new.scope.etimers ≡ self.old.scope.etimers) }
        ensures within { IfOk result (λ b. IsWithinLimits (tree_in b)) }
        ensures ok { IfOk result (λ b. IsNamedBlock a_timer (λ f. new_name a_timer ∷ machine.block at_simple ∷ f)
            (λ x. at_simple) (tree_in b)
            (read_scope self.old.scope) (read_scope self.new.scope) self.old.cursor self.new.cursor) }
        ensures err { FailsIn (read_scope self.old.scope) (new_name a_timer ∷ machine.block at_simple ∷ [])
            self.old.cursor result }
    {
        self.cursor
            .new_name(self.alloc, &mut self.scope, Kind::Ctimer)?;
        let block = self.flat_block(&SIMPLE)?;
        Ok(block)
    }

    /// Reads the callback timers of a process, and returns their blocks.
    #[tactic(auto, using(crate::proofs::BlockLaws::blocks_steps))]
    pub(crate) fn ctimers(&mut self) -> Result<Vec<FlatBlock>, ReadFailure>
        ensures no_longer { OnOk result (length self.new.cursor ≤ length self.old.cursor) }
        ensures etimers { OnOk result (self.new.scope.etimers ≡ self.old.scope.etimers) }
        ensures within { IfOk result (λ blocks. All (λ b. IsWithinLimits (tree_in b)) blocks.items) }
        ensures ok { IfOk result (λ blocks. ReadsBlocks a_timer machine.from_ctimers machine.from_threads ctimer_marks
            (map tree_in blocks.items)
            (read_scope self.old.scope) (read_scope self.new.scope) self.old.cursor self.new.cursor) }
        ensures err { FailsIn (read_scope self.old.scope) (machine.from_ctimers ∷ []) self.old.cursor result }
    {
        let mut blocks = Vec::new(self.alloc);
        'ctimers: while self.cursor.accept(Keyword::Ctimer) {
            let block = self.ctimer()?;
            blocks.push(block)?;
        }
        Ok(blocks)
    }

    /// Reads the name and the block of a thread, which can spawn the threads before it.
    #[tactic(auto, using(crate::proofs::BlockLaws::thread_steps))]
    fn thread(&mut self) -> Result<FlatBlock, ReadFailure>
        ensures no_longer { OnOk result (length self.new.cursor ≤ length self.old.cursor) }
        ensures timers { OnOk result (KeepsTimers self.old.scope self.new.scope) }
        ensures within { IfOk result (λ b. IsWithinLimits (tree_in b)) }
        ensures earlier { IfOk result (λ b. block_fits (earlier_threads (length self.old.scope.threads)) (tree_in b)
            ≡ true) }
        ensures ok { IfOk result (λ b. IsNamedBlock a_thread (λ f. machine.new_thread ∷ f) at_thread (tree_in b)
            (read_scope self.old.scope) (read_scope self.new.scope) self.old.cursor self.new.cursor) }
        ensures err { FailsIn (read_scope self.old.scope) (machine.new_thread ∷ []) self.old.cursor result }
    {
        let name = self
            .cursor
            .new_name(self.alloc, &mut self.scope, Kind::Thread)?;
        let place = Context {
            level: 0,
            simple: false,
            thread: Some(name),
        };
        let block = self.flat_block(&place)?;
        Ok(block)
    }

    /// Reads the threads of a process, and returns their blocks.
    #[tactic(auto, using(crate::proofs::BlockLaws::blocks_steps))]
    pub(crate) fn threads(&mut self) -> Result<Vec<FlatBlock>, ReadFailure>
        requires none_yet { self.old.scope.threads ≡ [] }
        ensures no_longer { OnOk result (length self.new.cursor ≤ length self.old.cursor) }
        ensures timers { OnOk result (KeepsTimers self.old.scope self.new.scope) }
        ensures within { IfOk result (λ blocks. All (λ b. IsWithinLimits (tree_in b)) blocks.items) }
        ensures earlier { IfOk result (λ blocks. threads_fit earlier_threads 0 (map tree_in blocks.items) ≡ true) }
        ensures ok { IfOk result (λ blocks. ReadsBlocks a_thread machine.from_threads machine.from_on_poll thread_marks
            (map tree_in blocks.items)
            (read_scope self.old.scope) (read_scope self.new.scope) self.old.cursor self.new.cursor) }
        ensures err { FailsIn (read_scope self.old.scope) (machine.from_threads ∷ []) self.old.cursor result }
    {
        let mut blocks = Vec::new(self.alloc);
        'threads: while self.cursor.accept(Keyword::Thread) {
            let block = self.thread()?;
            blocks.push(block)?;
        }
        Ok(blocks)
    }

    /// Reads the block that runs at POLL, if there is one.
    #[tactic(auto, using(crate::proofs::BlockLaws::on_poll_steps))]
    pub(crate) fn on_poll(&mut self) -> Result<Option<FlatBlock>, ReadFailure>
        ensures fixed { fixed self.new.scope ≡ fixed self.old.scope }
        ensures within { IfOk result (λ block. ForSome block (λ b. IsWithinLimits (tree_in b))) }
        ensures ok { IfOk result (λ block. ReadsHandler word.OnPoll machine.from_on_poll machine.from_on_exit
            (option_map tree_in block)
            (read_scope self.old.scope) (read_scope self.new.scope) self.old.cursor self.new.cursor) }
        ensures err { FailsIn (read_scope self.old.scope) (machine.from_on_poll ∷ []) self.old.cursor result }
    {
        if !self.cursor.accept(Keyword::OnPoll) {
            return Ok(None);
        }
        let block = self.flat_block(&SIMPLE)?;
        Ok(Some(block))
    }

    /// Reads the block that runs at EXIT, if there is one.
    #[tactic(auto, using(crate::proofs::BlockLaws::on_exit_steps))]
    pub(crate) fn on_exit(&mut self) -> Result<Option<FlatBlock>, ReadFailure>
        ensures fixed { fixed self.new.scope ≡ fixed self.old.scope }
        ensures within { IfOk result (λ block. ForSome block (λ b. IsWithinLimits (tree_in b))) }
        ensures ok { IfOk result (λ block. ReadsHandler word.OnExit machine.from_on_exit machine.from_body
            (option_map tree_in block)
            (read_scope self.old.scope) (read_scope self.new.scope) self.old.cursor self.new.cursor) }
        ensures err { FailsIn (read_scope self.old.scope) (machine.from_on_exit ∷ []) self.old.cursor result }
    {
        if !self.cursor.accept(Keyword::OnExit) {
            return Ok(None);
        }
        let block = self.flat_block(&SIMPLE)?;
        Ok(Some(block))
    }

    /// Reads the body.
    #[tactic(auto, using(crate::proofs::BlockLaws::body_steps))]
    pub(crate) fn body(&mut self) -> Result<FlatBlock, ReadFailure>
        ensures fixed { fixed self.new.scope ≡ fixed self.old.scope }
        ensures within { IfOk result (λ b. IsWithinLimits (tree_in b)) }
        ensures ok { IfOk result (λ b. ReadsBody (tree_in b) (read_scope self.old.scope) (read_scope self.new.scope)
            self.old.cursor self.new.cursor) }
        ensures err { FailsIn (read_scope self.old.scope) (machine.from_body ∷ []) self.old.cursor result }
    {
        if !self.cursor.accept(Keyword::Body) {
            return Err(self.cursor.unexpected_token());
        }
        let place = Context {
            level: 0,
            simple: false,
            thread: None,
        };
        let block = self.flat_block(&place)?;
        Ok(block)
    }
}
