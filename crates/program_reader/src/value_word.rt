//! The keywords of an expression, grouped by the operands after them.
ghost use Rattle.std.specs.Prelude.{◌≡◌, None, IfSome};
ghost use Rattle.program_tree.specs.Forms.{name, no_value, tells_of, word_of};
ghost use Rattle.program_reader.specs.Steps.{class_of};
ghost use Rattle.program_tree.specs.Meaning.{expression_of};
ghost use Rattle.program_reader.specs.Values.{alone_value, telling_class, telling_keyword, telling_value};
ghost use Rattle.program_reader.specs.Values.{value_keyword};

use program_tree::class::Class;
use program_tree::keyword::Keyword;
use program_tree::tree::Expr;

/// A keyword that is a value by itself.
#[derive(Clone, Copy)]
pub(crate) enum Alone {
    Word,
    Sender,
    Moment,
    Mote,
}

/// A keyword that asks about the thing whose name is in the parentheses after it.
#[derive(Clone, Copy)]
pub(crate) enum Telling {
    Fired,
    Expired,
    Gone,
    Running,
    Count,
}

/// A keyword of any of these kinds.
#[derive(Clone, Copy)]
pub(crate) enum ValueWord {
    Alone(Alone),
    Telling(Telling),
    Is,
}

impl Alone {
    pub(crate) fn value(self) -> Expr
        ensures expression { expression_of result ≡ alone_value self }
    {
        match self {
            Alone::Word => Expr::Word,
            Alone::Sender => Expr::Sender,
            Alone::Moment => Expr::Moment,
            Alone::Mote => Expr::Mote,
        }
    }
}

impl Telling {
    /// The class of the thing to which the name refers.
    pub(crate) fn class(self) -> Class
        ensures class { class_of result ≡ telling_class self }
        ensures form { word_of (telling_keyword self) ≡ tells_of (name (class_of result)) }
    {
        match self {
            Telling::Fired | Telling::Expired => Class::Timer,
            Telling::Gone | Telling::Running => Class::Process,
            Telling::Count => Class::Semaphore,
        }
    }

    pub(crate) fn value(self, number: u8) -> Expr
        ensures expression { expression_of result ≡ telling_value self number }
    {
        match self {
            Telling::Fired => Expr::Fired(number),
            Telling::Expired => Expr::Expired(number),
            Telling::Gone => Expr::Gone(number),
            Telling::Running => Expr::Running(number),
            Telling::Count => Expr::Count(number),
        }
    }
}

impl ValueWord {
    /// The kind of a keyword in an expression, if it is allowed there.
    pub(crate) fn of(keyword: Keyword) -> Option<ValueWord>
        ensures same_keyword { IfSome result (λ v. keyword ≡ value_keyword v) }
        ensures none { result ≡ None → word_of keyword ≡ no_value }
    {
        let word = match keyword {
            Keyword::Data => ValueWord::Alone(Alone::Word),
            Keyword::From => ValueWord::Alone(Alone::Sender),
            Keyword::Now => ValueWord::Alone(Alone::Moment),
            Keyword::Own => ValueWord::Alone(Alone::Mote),
            Keyword::Fired => ValueWord::Telling(Telling::Fired),
            Keyword::Expired => ValueWord::Telling(Telling::Expired),
            Keyword::Gone => ValueWord::Telling(Telling::Gone),
            Keyword::Running => ValueWord::Telling(Telling::Running),
            Keyword::Count => ValueWord::Telling(Telling::Count),
            Keyword::Is => ValueWord::Is,
            _ => return None,
        };
        Some(word)
    }
}
