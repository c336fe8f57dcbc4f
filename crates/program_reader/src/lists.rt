//! The reading of the lists of declarations in a program and in a code.
ghost use Rattle.std.specs.Prelude.{◌≡◌, ◌≤◌, Some, ◌∷◌, [], length, IfOk, OnOk};
ghost use Rattle.program_tree.specs.Grammar.{event_marks, semaphore_marks, variable_marks, etimer_marks};
ghost use Rattle.program_reader.specs.Head.{FailsIn, ReadsNames, ReadsValues};
ghost use Rattle.program_reader.specs.Machine.{first, from_events, from_semaphores, from_variables, from_etimers};
ghost use Rattle.program_reader.specs.Machine.{from_ctimers};
ghost use Rattle.program_reader.specs.Kept.{KeepsTimers};
ghost use Rattle.program_reader.specs.Steps.{read_scope};
ghost use Rattle.program_tree.specs.Tokens as token;
ghost use Rattle.program_tree.specs.Tree.{an_event, a_semaphore, a_variable, a_timer};
ghost use Rattle.program_tree.specs.declared.keyword.Keyword.TheVariants as word;

use crate::declarations::Kind;
use crate::fault::ReadFailure;
use crate::reader::Reader;
use program_tree::keyword::Keyword;

impl Reader<'_> {
    /// Reads the events that a program declares.
    #[tactic(auto, using(crate::proofs::ListLaws::list_steps))]
    pub(crate) fn events(&mut self) -> Result<(), ReadFailure>
        ensures no_longer { OnOk result (length self.new.cursor ≤ length self.old.cursor) }
        ensures ok { OnOk result
            (ReadsNames an_event from_events from_semaphores event_marks (read_scope self.old.scope)
            (read_scope self.new.scope) self.old.cursor self.new.cursor) }
        ensures err { FailsIn (read_scope self.old.scope) (from_events ∷ []) self.old.cursor result }
    {
        'events: while self.cursor.accept(Keyword::Event) {
            self.listed(Kind::Event)?;
        }
        Ok(())
    }

    /// Reads the semaphores, and returns their first counts.
    #[tactic(auto, using(crate::proofs::ListLaws::list_steps))]
    pub(crate) fn semaphores(&mut self) -> Result<Vec<u16>, ReadFailure>
        ensures no_longer { OnOk result (length self.new.cursor ≤ length self.old.cursor) }
        ensures behind { OnOk result (first self.new.cursor ≡ Some (token.Keyword word.Semaphore) → ⊥) }
        ensures ok { IfOk result (λ values. ReadsValues a_semaphore from_semaphores from_semaphores semaphore_marks
            values.items (read_scope self.old.scope) (read_scope self.new.scope) self.old.cursor self.new.cursor) }
        ensures err { FailsIn (read_scope self.old.scope) (from_semaphores ∷ []) self.old.cursor result }
    {
        let mut values = Vec::new(self.alloc);
        'semaphores: while self.cursor.accept(Keyword::Semaphore) {
            self.with_value(Kind::Semaphore, &mut values)?;
        }
        Ok(values)
    }

    /// Reads the variables of a process, and returns their first values.
    #[tactic(auto, using(crate::proofs::ListLaws::list_steps))]
    pub(crate) fn variables(&mut self) -> Result<Vec<u16>, ReadFailure>
        ensures no_longer { OnOk result (length self.new.cursor ≤ length self.old.cursor) }
        ensures timers { OnOk result (KeepsTimers self.old.scope self.new.scope) }
        ensures ok { IfOk result (λ values. ReadsValues a_variable from_variables from_etimers variable_marks
            values.items (read_scope self.old.scope) (read_scope self.new.scope) self.old.cursor self.new.cursor) }
        ensures err { FailsIn (read_scope self.old.scope) (from_variables ∷ []) self.old.cursor result }
    {
        let mut values = Vec::new(self.alloc);
        'variables: while self.cursor.accept(Keyword::Var) {
            self.with_value(Kind::Variable, &mut values)?;
        }
        Ok(values)
    }

    /// Reads the event timers of a process, which are before its callback timers.
    #[tactic(auto, using(crate::proofs::ListLaws::list_steps))]
    pub(crate) fn etimers(&mut self) -> Result<(), ReadFailure>
        requires etimers_first { self.old.scope.ctimers ≡ [] }
        ensures no_longer { OnOk result (length self.new.cursor ≤ length self.old.cursor) }
        ensures ctimers { OnOk result (self.new.scope.ctimers ≡ []) }
        ensures ok { OnOk result (ReadsNames a_timer from_etimers from_ctimers etimer_marks (read_scope self.old.scope)
            (read_scope self.new.scope) self.old.cursor self.new.cursor) }
        ensures err { FailsIn (read_scope self.old.scope) (from_etimers ∷ []) self.old.cursor result }
    {
        'etimers: while self.cursor.accept(Keyword::Etimer) {
            self.listed(Kind::Etimer)?;
        }
        Ok(())
    }
}
