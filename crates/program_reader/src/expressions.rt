//! The reading of expressions.
ghost use Rattle.std.specs.Prelude.{◌≡◌, ◌∷◌, [], ◌≤◌, Some, length, IfOk};
ghost use Rattle.program_reader.specs.Answers.{AnswersExpression};
ghost use Rattle.program_reader.specs.Head.{FailsIn};
ghost use Rattle.program_tree.specs.InScope.{name_in, number_in};
ghost use Rattle.program_reader.specs.Machine.{first, expression, operator, close};
ghost use Rattle.program_tree.specs.Scope.{expression_fits};
ghost use Rattle.program_reader.specs.Steps.{read_scope, context_of, ReadsSign, FailsSign, Numbered, Fits};
ghost use Rattle.program_tree.specs.Tokens as token;
ghost use Rattle.program_tree.specs.Meaning.{expression_of};
ghost use Rattle.program_tree.specs.Tree.{expression_map, binary};
ghost use Rattle.program_reader.specs.Values.{telling_keyword, ReadsSides};

use crate::cursor::{Cursor, Sign};
use crate::fault::ReadFailure;
use crate::reader::Reader;
use crate::scope::{Context, LEVELS};
use crate::value_word::{Telling, ValueWord};
use program_tree::class::Class;
use program_tree::error::ReadErrorKind;
use program_tree::keyword::Keyword;
use program_tree::token::Token;
use program_tree::tree::{Expr, Operator};
use std::alloc::{AllocError, Global};

/// The largest number that a program may contain.
const LARGEST: u32 = 65_535;

/// An operator with its two sides.
struct Sides {
    left: Expr,
    operator: Operator,
    right: Expr,
}

/// Implemented by hand: when the prover checks a function that owns two sides, it sees their drop as one call.
impl Drop for Sides {
    fn drop(self) {
        let Sides {
            left: _,
            operator: _,
            right: _,
        } = self;
    }
}

impl Sides {
    fn into_expression(self, alloc: Global) -> Result<Expr, AllocError>
        ensures expression { IfOk result (λ e. expression_of e ≡ binary self.operator (expression_of self.left)
            (expression_of self.right)) }
    {
        let Sides {
            left,
            operator,
            right,
        } = self;
        let left = Box::new(alloc, left)?;
        let right = Box::new(alloc, right)?;
        Ok(Expr::Binary(operator, left, right))
    }
}

impl Cursor<'_> {
    /// Reads the operator of an expression in parentheses.
    fn operator(&mut self) -> Result<Operator, ReadFailure>
        ensures no_longer { length self.new ≤ length self.old }
        ensures ok { IfOk result (λ o. ReadsSign operator (token.Op o) self.old self.new) }
        ensures err { FailsSign operator self.old result }
    {
        match self.peek() {
            Some(Token::Op(operator)) => {
                self.advance();
                Ok(operator)
            }
            _ => Err(self.unexpected_token()),
        }
    }
}

impl Reader<'_> {
    /// Reads a keyword that asks about something, and a name in parentheses.
    #[tactic(auto, using(crate::proofs::ExpressionSteps::word_steps))]
    fn question(&mut self, place: &Context, telling: Telling) -> Result<Expr, ReadFailure>
        requires at_keyword { first self.old.cursor ≡ Some (token.Keyword (telling_keyword telling)) }
        ensures answers_expression { AnswersExpression self.old self.new place.now result }
    {
        let class = telling.class();
        self.cursor.advance();
        self.cursor.sign(Sign::Open)?;
        let number = self.name(place, class)?;
        self.cursor.sign(Sign::Close)?;
        Ok(telling.value(number))
    }

    /// Reads `is`, and an event in parentheses.
    #[tactic(auto, using(crate::proofs::ExpressionSteps::word_steps))]
    fn is(&mut self, place: &Context) -> Result<Expr, ReadFailure>
        requires at_keyword { first self.old.cursor ≡ Some (token.Keyword Keyword.Is) }
        ensures answers_expression { AnswersExpression self.old self.new place.now result }
    {
        self.cursor.advance();
        self.cursor.sign(Sign::Open)?;
        let event = self.any(place)?;
        self.cursor.sign(Sign::Close)?;
        Ok(Expr::Is(event))
    }

    /// Reads an expression that begins with a keyword.
    #[tactic(auto, using(crate::proofs::ValueLaws::no_word))]
    fn word(&mut self, place: &Context, keyword: Keyword) -> Result<Expr, ReadFailure>
        requires at_keyword { first self.old.cursor ≡ Some (token.Keyword keyword) }
        ensures answers_expression { AnswersExpression self.old self.new place.now result }
    {
        match ValueWord::of(keyword) {
            Some(ValueWord::Alone(alone)) => {
                self.cursor.advance();
                Ok(alone.value())
            }
            Some(ValueWord::Telling(telling)) => self.question(place, telling),
            Some(ValueWord::Is) => self.is(place),
            None => Err(self.cursor.unexpected_token()),
        }
    }

    /// Reads `!` and the expression that it negates.
    #[cycle(expression)]
    #[tactic(auto, using(crate::proofs::ExpressionSteps::bang_start))]
    fn negation(&mut self, place: &Context) -> Result<Expr, ReadFailure>
        requires shallow { place.now.level ≤ LEVELS }
        requires at_bang { first self.old.cursor ≡ Some token.Bang }
        ensures answers_expression { AnswersExpression self.old self.new place.now result }
    {
        if place.level == LEVELS {
            return Err(self.cursor.fault(ReadErrorKind::TooDeep));
        }
        self.cursor.advance();
        let operand = self.expression(&place.inner())?;
        Ok(Expr::Not(Box::new(self.alloc, operand)?))
    }

    /// Reads the two sides of an operator, with the operator between them and the sign that closes them.
    #[cycle(expression)]
    fn sides(&mut self, place: &Context) -> Result<Sides, ReadFailure>
        requires shallow { place.now.level ≤ LEVELS }
        ensures no_longer { length self.new.cursor ≤ length self.old.cursor }
        ensures same { self.new.scope ≡ self.old.scope }
        ensures ok { IfOk result (λ x. ReadsSides (read_scope self.old.scope) (context_of place.now) x.operator
            (expression_of x.left) (expression_of x.right) self.old.cursor self.new.cursor) }
        ensures left_numbered { IfOk result (λ x. Numbered (read_scope self.old.scope).names
            (λ n. expression_map (number_in n) (expression_map (name_in n) (expression_of x.left)))
            (expression_of x.left)) }
        ensures right_numbered { IfOk result (λ x. Numbered (read_scope self.old.scope).names
            (λ n. expression_map (number_in n) (expression_map (name_in n) (expression_of x.right)))
            (expression_of x.right)) }
        ensures left_fits { IfOk result (λ x. Fits (read_scope self.old.scope).names (context_of place.now).thread
            (λ w. expression_fits w (expression_of x.left))) }
        ensures right_fits { IfOk result (λ x. Fits (read_scope self.old.scope).names (context_of place.now).thread
            (λ w. expression_fits w (expression_of x.right))) }
        ensures err { FailsIn (read_scope self.old.scope)
            (expression (context_of place.now) ∷ operator ∷ expression (context_of place.now) ∷ close ∷ [])
            self.old.cursor result }
    {
        let left = self.expression(place)?;
        let operator = self.cursor.operator()?;
        let right = self.expression(place)?;
        self.cursor.sign(Sign::Close)?;
        Ok(Sides {
            left,
            operator,
            right,
        })
    }

    /// Reads an expression in parentheses.
    #[cycle(expression)]
    #[tactic(auto, using(crate::proofs::ExpressionSteps::open_start))]
    fn binary(&mut self, place: &Context) -> Result<Expr, ReadFailure>
        requires shallow { place.now.level ≤ LEVELS }
        requires at_open { first self.old.cursor ≡ Some token.Open }
        ensures answers_expression { AnswersExpression self.old self.new place.now result }
    {
        if place.level == LEVELS {
            return Err(self.cursor.fault(ReadErrorKind::TooDeep));
        }
        self.cursor.advance();
        let sides = self.sides(&place.inner())?;
        Ok(sides.into_expression(self.alloc)?)
    }

    /// Reads an expression in this context.
    #[cycle(expression)]
    #[tactic(auto, using(crate::proofs::ExpressionSteps::variable_start))]
    pub(crate) fn expression(&mut self, place: &Context) -> Result<Expr, ReadFailure>
        requires shallow { place.now.level ≤ LEVELS }
        ensures answers_expression { AnswersExpression self.old self.new place.now result }
    {
        match self.cursor.peek() {
            Some(Token::Number(number)) => {
                if number > LARGEST {
                    return Err(self.cursor.fault(ReadErrorKind::NumberTooLarge));
                }
                self.cursor.advance();
                Ok(Expr::Number(number as u16))
            }
            Some(Token::Name(_)) => Ok(Expr::Variable(self.name(place, Class::Variable)?)),
            Some(Token::Keyword(keyword)) => self.word(place, keyword),
            Some(Token::Bang) => self.negation(place),
            Some(Token::Open) => self.binary(place),
            _ => Err(self.cursor.unexpected_token()),
        }
    }
}
