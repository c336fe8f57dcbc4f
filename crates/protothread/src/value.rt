//! The values of expressions.
ghost use Rattle.std.specs.Prelude.{◌≡◌, ◌==◌, IfSome};
ghost use Rattle.std.specs.List.{list_any};
ghost use Rattle.program_tree.specs.Events.{system_number};
ghost use Rattle.program_tree.specs.Meaning.{expression_of};
ghost use Rattle.program_tree.specs.Formula.{term_of, formula_of};
ghost use Rattle.program_tree.specs.Tree.{number, variable, binary};
ghost use Rattle.program_tree.specs.declared.event.Event.{Event};
ghost use Rattle.protothread.specs.Looks.{Looks};
ghost use Rattle.protothread.specs.Value.{applied, is_event as has_number_and_word, value};

use crate::look::Look;
use crate::vars::Vars;
use program_tree::{Event, Expr, Formula, Operator, SystemEvent, Term};

/// The value of an operator applied to two values.
#[inline(always)]
fn apply(operator: Operator, left: u16, right: u16) -> u16
    ensures value { result ≡ applied operator left right }
{
    match operator {
        Operator::Add => left.wrapping_add(right),
        Operator::Subtract => left.wrapping_sub(right),
        Operator::Multiply => left.wrapping_mul(right),
        Operator::Divide => { if right == 0 { 0 } else { left / right } }
        Operator::Remainder => { if right == 0 { 0 } else { left % right } }
        Operator::Equal => u16::from(left == right),
        Operator::Unequal => u16::from(left != right),
        Operator::Less => u16::from(left < right),
        Operator::AtMost => u16::from(left <= right),
        Operator::Greater => u16::from(left > right),
        Operator::AtLeast => u16::from(left >= right),
        Operator::And => u16::from(left != 0 && right != 0),
        Operator::Or => u16::from(left != 0 || right != 0),
    }
}

/// Returns whether the event is this system event with this word.
fn is_event(event: &Event, system: SystemEvent, word: u8) -> bool
    ensures value { result ≡ has_number_and_word event.now (system_number system) word }
{
    event.number == system.number() && event.word == u16::from(word)
}

/// Returns whether a timer has expired. The contract refers to the list of the expired timers.
fn has_expired<L: Look>(look: &L, timer: u8) -> bool
    ensures value { result ≡ list_any (λ t. timer == t) (L.looks look.now).expired }
{
    look.expired(u16::from(timer))
}

/// Returns whether a process is running or called. The contract refers to the list of these processes.
fn is_running<L: Look>(look: &L, process: u8) -> bool
    ensures value { result ≡ list_any (λ p. process == p) (L.looks look.now).running }
{
    look.running(process)
}

/// The value of an operand, if it is a number or a variable. Most operands are one of these.
#[inline(always)]
fn plain_value(operand: &Expr, vars: &Vars) -> Option<u16>
    ensures value { (event : Event) (looks : Looks)
        → IfSome result (λ found. found ≡ value vars.now event looks (expression_of operand.now)) }
{
    match operand {
        Expr::Number(number) => Some(*number),
        Expr::Variable(variable) => Some(vars.value(*variable)),
        _ => None,
    }
}

/// The value of an operand, if it is a number, a variable or the event's word.
#[inline(always)]
fn plain_or_word(operand: &Expr, vars: &Vars, event: &Event) -> Option<u16>
    ensures value { (looks : Looks) → IfSome result
        (λ found. found ≡ value vars.now event.now looks (expression_of operand.now)) }
{
    match operand {
        Expr::Number(number) => Some(*number),
        Expr::Variable(variable) => Some(vars.value(*variable)),
        Expr::Word => Some(event.word),
        _ => None,
    }
}

/// The value of an expression, if it has one of the frequent forms. They have at most one operator and need only the
/// variables and the event. The function is inlined, so that the tests and assignments of most statements cost little.
#[inline(always)]
fn short_value(expression: &Expr, vars: &Vars, event: &Event) -> Option<u16>
    ensures value { (looks : Looks) → IfSome result
        (λ found. found ≡ value vars.now event.now looks (expression_of expression.now)) }
{
    match expression {
        Expr::Number(number) => Some(*number),
        Expr::Variable(variable) => Some(vars.value(*variable)),
        Expr::Word => Some(event.word),
        Expr::Is(named) => Some(u16::from(event.number == named.number())),
        Expr::Fired(timer) => Some(u16::from(is_event(event, SystemEvent::Timer, *timer))),
        Expr::Binary(operator, left, right) => {
            let left = plain_value(left, vars)?;
            let right = plain_or_word(right, vars, event)?;
            Some(apply(*operator, left, right))
        }
        _ => None,
    }
}

/// The same as `short_value`, but not inlined.
#[inline(never)]
fn short_value_by_call(expression: &Expr, vars: &Vars, event: &Event) -> Option<u16>
    ensures value { (looks : Looks) → IfSome result
        (λ found. found ≡ value vars.now event.now looks (expression_of expression.now)) }
{
    short_value(expression, vars, event)
}

/// The value of an expression of any form.
fn evaluate_tree<L: Look>(expression: &Expr, vars: &Vars, event: &Event, look: &L) -> u16
    ensures value { result ≡ value vars.now event.now (L.looks look.now) (expression_of expression.now) }
{
    match expression {
        Expr::Number(number) => *number,
        Expr::Variable(variable) => vars.value(*variable),
        Expr::Word => event.word,
        Expr::Sender => event.sender,
        Expr::Moment => look.now(),
        Expr::Mote => look.mote(),
        Expr::Is(named) => u16::from(event.number == named.number()),
        Expr::Fired(timer) => u16::from(is_event(event, SystemEvent::Timer, *timer)),
        Expr::Gone(process) => u16::from(is_event(event, SystemEvent::Exited, *process)),
        Expr::Expired(timer) => u16::from(has_expired(look, *timer)),
        Expr::Running(process) => u16::from(is_running(look, *process)),
        Expr::Count(semaphore) => look.count(*semaphore),
        Expr::Not(inner) => u16::from(evaluate_tree(inner, vars, event, look) == 0),
        Expr::Binary(operator, left, right) => {
            let left = match short_value(left, vars, event) {
                Some(left) => left,
                None => evaluate_tree(left, vars, event, look),
            };
            let right = match short_value(right, vars, event) {
                Some(right) => right,
                None => evaluate_tree(right, vars, event, look),
            };
            apply(*operator, left, right)
        }
    }
}

/// The value of an operator with a variable and a number.
#[inline(always)]
pub(crate) fn value_with_number(operator: Operator, left: u8, right: u16, vars: &Vars) -> u16
    ensures value { (event : Event) (looks : Looks)
        → result ≡ value vars.now event looks (binary operator (variable left) (number right)) }
{
    apply(operator, vars.value(left), right)
}

/// The value of a term.
#[inline(always)]
pub(crate) fn term_value(term: &Term, vars: &Vars, event: &Event) -> u16
    ensures value { (looks : Looks) → result ≡ value vars.now event.now looks (term_of term.now) }
{
    match term {
        Term::Number(number) => *number,
        Term::Variable(variable) => vars.value(*variable),
        Term::Word => event.word,
        Term::Is(named) => u16::from(event.number == named.number()),
        Term::Fired(timer) => u16::from(is_event(event, SystemEvent::Timer, *timer)),
        Term::WithNumber(operator, left, number) => apply(*operator, vars.value(*left), *number),
        Term::WithVariable(operator, left, right) => {
            apply(*operator, vars.value(*left), vars.value(*right))
        }
        Term::WithWord(operator, left) => apply(*operator, vars.value(*left), event.word),
    }
}

/// The value of an operator with two terms.
#[inline(never)]
fn pair_value(operator: Operator, left: &Term, right: &Term, vars: &Vars, event: &Event) -> u16
    ensures value { (looks : Looks)
        → result ≡ value vars.now event.now looks (binary operator (term_of left.now) (term_of right.now)) }
{
    let left = term_value(left, vars, event);
    let right = term_value(right, vars, event);
    apply(operator, left, right)
}

/// The value of an operator whose left operand is an operator with two terms, and whose right operand is a term.
#[inline(never)]
fn chain_value(
    operator: Operator,
    inner: Operator,
    first: &Term,
    second: &Term,
    last: &Term,
    vars: &Vars,
    event: &Event,
) -> u16
    ensures value { (looks : Looks)
        → result ≡ value vars.now event.now looks
        (binary operator (binary inner (term_of first.now) (term_of second.now)) (term_of last.now)) }
{
    let first = term_value(first, vars, event);
    let second = term_value(second, vars, event);
    let last = term_value(last, vars, event);
    apply(operator, apply(inner, first, second), last)
}

/// The value of an expression in flat code that isn't a term.
#[inline(always)]
pub(crate) fn formula_value<L: Look>(formula: &Formula, vars: &Vars, event: &Event, look: &L) -> u16
    ensures value { result ≡ value vars.now event.now (L.looks look.now) (formula_of formula.now) }
{
    match formula {
        Formula::Pair(operator, left, right) => pair_value(*operator, left, right, vars, event),
        Formula::Chain(operator, inner, first, second, last) => {
            chain_value(*operator, *inner, first, second, last, vars, event)
        }
        Formula::Tree(expression) => evaluate_tree(expression, vars, event, look),
    }
}

/// The value of an expression that flat code keeps as a tree, in an operation or a wait.
#[inline(always)]
pub(crate) fn evaluate_by_call<L: Look>(
    expression: &Expr,
    vars: &Vars,
    event: &Event,
    look: &L,
) -> u16
    ensures value { result ≡ value vars.now event.now (L.looks look.now) (expression_of expression.now) }
{
    match short_value_by_call(expression, vars, event) {
        Some(value) => value,
        None => evaluate_tree(expression, vars, event, look),
    }
}
