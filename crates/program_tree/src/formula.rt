//! Expressions in flat code.
ghost use Rattle.std.specs.Prelude.{◌≡◌, IfOk, IfSome};
ghost use Rattle.program_tree.specs.Tree.{binary, variable};
ghost use Rattle.program_tree.specs.Meaning.{expression_of};
ghost use Rattle.program_tree.specs.Formula.{term_of, formula_of};

use crate::event_name::TestedEvent;
use crate::tree::{Expr, Operator};
use std::alloc::{AllocError, Global};

/// An expression of a frequent form. It has at most one operator, and its value needs only the variables and the
/// event. The left operand of an operator is a variable.
#[derive(Clone, Copy)]
pub enum Term {
    Number(u16),
    Variable(u8),
    /// The word of the event.
    Word,
    /// 1 if the current event is this one, otherwise 0.
    Is(TestedEvent),
    /// 1 if the current event is TIMER of this timer, otherwise 0.
    Fired(u8),
    /// An operator with a variable and a number.
    WithNumber(Operator, u8, u16),
    /// An operator with two variables.
    WithVariable(Operator, u8, u8),
    /// An operator with a variable and the word of the event.
    WithWord(Operator, u8),
}

/// An expression in flat code that isn't a term. The frequent ones have one or two operators between terms: their values
/// need no walk over a tree.
#[derive(Drop)]
pub enum Formula {
    /// An operator with two terms.
    Pair(Operator, Term, Term),
    /// An operator whose left operand is an operator with two terms, and whose right operand is a term. The inner
    /// operator is the second of the two.
    Chain(Operator, Operator, Term, Term, Term),
    Tree(Expr),
}

/// The term of an operator with a variable and this right operand, if there is such a term.
fn with_variable(operator: Operator, left: u8, right: &Expr) -> Option<Term>
    ensures meaning { IfSome result
        (λ t. term_of t ≡ binary operator (variable left) (expression_of right.now)) }
{
    match right {
        Expr::Number(number) => Some(Term::WithNumber(operator, left, *number)),
        Expr::Variable(right) => Some(Term::WithVariable(operator, left, *right)),
        Expr::Word => Some(Term::WithWord(operator, left)),
        _ => None,
    }
}

/// The term of an operator with these operands, if there is such a term.
fn joined(operator: Operator, left: &Expr, right: &Expr) -> Option<Term>
    ensures meaning { IfSome result
        (λ t. term_of t ≡ binary operator (expression_of left.now) (expression_of right.now)) }
{
    match left {
        Expr::Variable(left) => with_variable(operator, *left, right),
        _ => None,
    }
}

/// The term that an expression is, if it is one.
pub(crate) fn as_term(expression: &Expr) -> Option<Term>
    ensures meaning { IfSome result (λ t. term_of t ≡ expression_of expression.now) }
{
    match expression {
        Expr::Number(number) => Some(Term::Number(*number)),
        Expr::Variable(variable) => Some(Term::Variable(*variable)),
        Expr::Word => Some(Term::Word),
        Expr::Is(named) => Some(Term::Is(*named)),
        Expr::Fired(timer) => Some(Term::Fired(*timer)),
        Expr::Binary(operator, left, right) => joined(*operator, left, right),
        _ => None,
    }
}

/// The formula of an operator with these operands, if both are terms.
fn pair(operator: Operator, left: &Expr, right: &Expr) -> Option<Formula>
    ensures meaning { IfSome result
        (λ f. formula_of f ≡ binary operator (expression_of left.now) (expression_of right.now)) }
{
    let left = as_term(left)?;
    let right = as_term(right)?;
    Some(Formula::Pair(operator, left, right))
}

/// The formula of an operator with these operands, if the left one is an operator with two terms and the right one is a
/// term.
fn chain(operator: Operator, left: &Expr, right: &Expr) -> Option<Formula>
    ensures meaning { IfSome result
        (λ f. formula_of f ≡ binary operator (expression_of left.now) (expression_of right.now)) }
{
    match left {
        Expr::Binary(inner, first, second) => {
            let first = as_term(first)?;
            let second = as_term(second)?;
            let right = as_term(right)?;
            Some(Formula::Chain(operator, *inner, first, second, right))
        }
        _ => None,
    }
}

/// The formula of an operator with these operands, if it has a frequent form.
fn operation(operator: Operator, left: &Expr, right: &Expr) -> Option<Formula>
    ensures meaning { IfSome result
        (λ f. formula_of f ≡ binary operator (expression_of left.now) (expression_of right.now)) }
{
    match pair(operator, left, right) {
        Some(formula) => Some(formula),
        None => chain(operator, left, right),
    }
}

/// The formula of an expression of a frequent form.
fn short(expression: &Expr) -> Option<Formula>
    ensures meaning { IfSome result (λ f. formula_of f ≡ expression_of expression.now) }
{
    match expression {
        Expr::Binary(operator, left, right) => operation(*operator, left, right),
        _ => None,
    }
}

impl Formula {
    /// The formula of an expression. Instructions keep terms without one.
    ///
    /// # Errors
    /// `AllocError` if an allocation fails.
    pub(crate) fn new(alloc: Global, expression: &Expr) -> Result<Formula, AllocError>
        ensures same_expression { IfOk result (λ f. formula_of f ≡ expression_of expression.now) }
    {
        match short(expression) {
            Some(formula) => Ok(formula),
            None => Ok(Formula::Tree(expression.clone_in(alloc)?)),
        }
    }
}
