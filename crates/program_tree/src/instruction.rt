//! The instructions of flat code.
ghost use Rattle.std.specs.Prelude.{◌≡◌, IfOk};
ghost use Rattle.program_tree.specs.Tree.{assign};
ghost use Rattle.program_tree.specs.Meaning.{action_of, expression_of};
ghost use Rattle.program_tree.specs.Formula.{term_of};
ghost use Rattle.program_tree.specs.Flat.{acts, tests, task_of};

use crate::formula::{Formula, Term, as_term};
use crate::tree::{Action, Expr, Operator};
use std::alloc::{AllocError, Global};

/// The place after the last statement of a block. No statement has this place.
pub(crate) const END: u16 = u16::MAX;

/// A statement in flat code, with the places at which a thread continues after it. A place is the number of a
/// statement in its block, from 0, in the order of the text.
#[derive(Drop)]
pub enum Instruction {
    /// A statement without blocks, and the place after it.
    Act(Action, u16),
    /// An assignment to a variable, and the place after it.
    Assign(u8, Formula, u16),
    /// The assignment of a term to a variable, and the place after it.
    AssignTerm(u8, Term, u16),
    /// The assignment of an operator with a variable and a number, and the place after it.
    AssignNumber(u8, Operator, u8, u16, u16),
    /// An `if` or a `while`: the place if the test holds, and the place if it fails.
    Test(Formula, u16, u16),
    /// An `if` or a `while` whose test is a term.
    TestTerm(Term, u16, u16),
    /// An `if` or a `while` whose test is an operator with a variable and a number.
    TestNumber(Operator, u8, u16, u16, u16),
}

impl Instruction {
    /// The instruction of an `if` or a `while` whose test is a term.
    fn of_term_test(term: Term, holds: u16, fails: u16) -> Instruction
        ensures same_task { task_of result ≡ tests (term_of term) holds fails }
    {
        match term {
            Term::WithNumber(operator, left, number) => {
                Instruction::TestNumber(operator, left, number, holds, fails)
            }
            _ => Instruction::TestTerm(term, holds, fails),
        }
    }

    /// The instruction of the assignment of a term. `after` is the place after it.
    fn of_term_assignment(variable: u8, term: Term, after: u16) -> Instruction
        ensures same_task { task_of result ≡ acts (assign variable (term_of term)) after }
    {
        match term {
            Term::WithNumber(operator, left, number) => {
                Instruction::AssignNumber(variable, operator, left, number, after)
            }
            _ => Instruction::AssignTerm(variable, term, after),
        }
    }

    /// The instruction of an `if` or a `while`: the place if the test holds, and the place if it fails.
    ///
    /// # Errors
    /// `AllocError` if an allocation fails.
    pub(crate) fn of_test(
        alloc: Global,
        test: &Expr,
        holds: u16,
        fails: u16,
    ) -> Result<Instruction, AllocError>
        ensures same_task { IfOk result (λ i. task_of i ≡ tests (expression_of test.now) holds fails) }
    {
        match as_term(test) {
            Some(term) => Ok(Instruction::of_term_test(term, holds, fails)),
            None => Ok(Instruction::Test(Formula::new(alloc, test)?, holds, fails)),
        }
    }

    /// The instruction of an assignment. `after` is the place after it.
    ///
    /// # Errors
    /// `AllocError` if an allocation fails.
    fn of_assignment(
        alloc: Global,
        variable: u8,
        value: &Expr,
        after: u16,
    ) -> Result<Instruction, AllocError>
        ensures same_task { IfOk result (λ i. task_of i ≡ acts (assign variable (expression_of value.now)) after) }
    {
        match as_term(value) {
            Some(term) => Ok(Instruction::of_term_assignment(variable, term, after)),
            None => Ok(Instruction::Assign(variable, Formula::new(alloc, value)?, after)),
        }
    }

    /// The instruction of a statement without blocks. `after` is the place after the statement.
    ///
    /// # Errors
    /// `AllocError` if an allocation fails.
    pub(crate) fn of_action(
        alloc: Global,
        action: &Action,
        after: u16,
    ) -> Result<Instruction, AllocError>
        ensures same_task { IfOk result (λ i. task_of i ≡ acts (action_of action.now) after) }
    {
        match action {
            Action::Assign(variable, value) => {
                Instruction::of_assignment(alloc, *variable, value, after)
            }
            _ => Ok(Instruction::Act(action.clone_in(alloc)?, after)),
        }
    }
}
