//! The spelling of tokens.
ghost use Rattle.std.specs.Prelude.{◌≡◌, ◌++◌, OnOk, string_bytes};
ghost use Rattle.program_tree.specs.Canonical.{keyword_word, operator_sign, spelling};
ghost use Rattle.program_tree.specs.Tokens as token;
ghost use Rattle.program_tree.specs.TokenMeaning.{token_of};

use program_tree::keyword::Keyword;
use program_tree::token::Token;
use program_tree::tree::Operator;
use std::alloc::{AllocError, Global};

/// The word of a keyword.
fn keyword_word(keyword: Keyword) -> &'static str
    ensures value { result.now ≡ keyword_word keyword }
{
    match keyword {
        Keyword::Event => "event",
        Keyword::Semaphore => "semaphore",
        Keyword::Process => "process",
        Keyword::Autostart => "autostart",
        Keyword::Receiver => "receiver",
        Keyword::Code => "code",
        Keyword::Var => "var",
        Keyword::Etimer => "etimer",
        Keyword::Ctimer => "ctimer",
        Keyword::Thread => "thread",
        Keyword::OnPoll => "onpoll",
        Keyword::OnExit => "onexit",
        Keyword::Body => "body",
        Keyword::Print => "print",
        Keyword::Send => "send",
        Keyword::If => "if",
        Keyword::Else => "else",
        Keyword::While => "while",
        Keyword::WaitUntil => "wait_until",
        Keyword::WaitWhile => "wait_while",
        Keyword::Yield => "yield",
        Keyword::YieldUntil => "yield_until",
        Keyword::Spawn => "spawn",
        Keyword::Restart => "restart",
        Keyword::Exit => "exit",
        Keyword::Pause => "pause",
        Keyword::Acquire => "acquire",
        Keyword::Signal => "signal",
        Keyword::Post => "post",
        Keyword::Broadcast => "broadcast",
        Keyword::Synch => "synch",
        Keyword::Poll => "poll",
        Keyword::Start => "start",
        Keyword::Kill => "kill",
        Keyword::Set => "set",
        Keyword::Reset => "reset",
        Keyword::RestartTimer => "restart_timer",
        Keyword::Stop => "stop",
        Keyword::Into => "into",
        Keyword::Continue => "continue",
        Keyword::Msg => "msg",
        Keyword::Com => "com",
        Keyword::Packet => "packet",
        Keyword::Init => "init",
        Keyword::Exited => "exited",
        Keyword::Timer => "timer",
        Keyword::Data => "data",
        Keyword::From => "from",
        Keyword::Now => "now",
        Keyword::Own => "self",
        Keyword::Is => "is",
        Keyword::Fired => "fired",
        Keyword::Expired => "expired",
        Keyword::Gone => "gone",
        Keyword::Running => "running",
        Keyword::Count => "count",
        Keyword::Radio => "radio",
        Keyword::All => "all",
    }
}

/// The sign of an operator.
fn operator_sign(operator: Operator) -> &'static str
    ensures value { result.now ≡ operator_sign operator }
{
    match operator {
        Operator::Add => "+",
        Operator::Subtract => "-",
        Operator::Multiply => "*",
        Operator::Divide => "/",
        Operator::Remainder => "%",
        Operator::Equal => "==",
        Operator::Unequal => "!=",
        Operator::Less => "<",
        Operator::AtMost => "<=",
        Operator::Greater => ">",
        Operator::AtLeast => ">=",
        Operator::And => "&&",
        Operator::Or => "||",
    }
}

/// Adds the digits of a number.
fn push_number(alloc: Global, text: &mut String, number: u32) -> Result<(), AllocError>
    ensures appended { OnOk result (string_bytes text.new ≡ string_bytes text.old ++ spelling (token.Number number)) }
{
    let digits = format!(in alloc; "{number}")?;
    text.push_str(digits.as_str())
}

/// Adds a token to a text. A bad token adds nothing.
pub(crate) fn spell(alloc: Global, text: &mut String, token: &Token) -> Result<(), AllocError>
    ensures appended { OnOk result (string_bytes text.new ≡ string_bytes text.old ++ spelling (token_of token.now)) }
{
    match token {
        Token::Keyword(keyword) => text.push_str(keyword_word(*keyword)),
        Token::Semicolon => text.push_str(";"),
        Token::Comma => text.push_str(","),
        Token::Equals => text.push_str("="),
        Token::Bang => text.push_str("!"),
        Token::Open => text.push_str("("),
        Token::Close => text.push_str(")"),
        Token::OpenBrace => text.push_str("{"),
        Token::CloseBrace => text.push_str("}"),
        Token::Op(operator) => text.push_str(operator_sign(*operator)),
        Token::Name(name) => text.push_str(name),
        Token::Number(number) => push_number(alloc, text, *number),
        Token::Bad => Ok(()),
    }
}
