//! The statements without a block that begin with a keyword, grouped by the operands after the keyword.
ghost use Rattle.std.specs.Prelude.{◌≡◌, None, IfSome};
ghost use Rattle.program_tree.specs.Forms as form;
ghost use Rattle.program_tree.specs.Forms.{beginning, action, ends, takes, values};
ghost use Rattle.program_reader.specs.Plain.{IsNoAction, bare_keyword, bare_action, valued_keyword, valued_action};
ghost use Rattle.program_reader.specs.Plain.{about_keyword, about_class, about_action, plain_keyword};
ghost use Rattle.program_reader.specs.Steps.{class_of};
ghost use Rattle.program_tree.specs.Meaning.{action_of, expression_of};

use program_tree::class::Class;
use program_tree::keyword::Keyword;
use program_tree::tree::{Action, Expr};

/// A statement that consists only of its keyword.
#[derive(Clone, Copy)]
pub(crate) enum Bare {
    Yield,
    Restart,
    Exit,
    Pause,
}

/// A statement that consists of its keyword and a value.
#[derive(Clone, Copy)]
pub(crate) enum Valued {
    Print,
    Send,
    WaitUntil,
    WaitWhile,
    YieldUntil,
}

/// A statement that consists of its keyword and a name.
#[derive(Clone, Copy)]
pub(crate) enum About {
    Spawn,
    Acquire,
    Signal,
    Poll,
    Start,
    Kill,
    Reset,
    RestartTimer,
    Stop,
}

/// A statement of one of these forms.
#[derive(Clone, Copy)]
pub(crate) enum Plain {
    Bare(Bare),
    Valued(Valued),
    About(About),
    Post,
    Broadcast,
    Synch,
    Set,
}

impl Bare {
    pub(crate) fn keyword(self) -> Keyword
        ensures keyword { result ≡ bare_keyword self }
        ensures form { beginning result ≡ action ends }
    {
        match self {
            Bare::Yield => Keyword::Yield,
            Bare::Restart => Keyword::Restart,
            Bare::Exit => Keyword::Exit,
            Bare::Pause => Keyword::Pause,
        }
    }

    pub(crate) fn action(self) -> Action
        ensures action { action_of result ≡ bare_action self }
    {
        match self {
            Bare::Yield => Action::Yield,
            Bare::Restart => Action::Restart,
            Bare::Exit => Action::Exit,
            Bare::Pause => Action::Pause,
        }
    }
}

impl Valued {
    pub(crate) fn keyword(self) -> Keyword
        ensures keyword { result ≡ valued_keyword self }
        ensures form { beginning result ≡ action (values ends) }
    {
        match self {
            Valued::Print => Keyword::Print,
            Valued::Send => Keyword::Send,
            Valued::WaitUntil => Keyword::WaitUntil,
            Valued::WaitWhile => Keyword::WaitWhile,
            Valued::YieldUntil => Keyword::YieldUntil,
        }
    }

    pub(crate) fn action(self, value: Expr) -> Action
        ensures action { action_of result ≡ valued_action self (expression_of value) }
    {
        match self {
            Valued::Print => Action::Print(value),
            Valued::Send => Action::Send(value),
            Valued::WaitUntil => Action::WaitUntil(value),
            Valued::WaitWhile => Action::WaitWhile(value),
            Valued::YieldUntil => Action::YieldUntil(value),
        }
    }
}

impl About {
    pub(crate) fn keyword(self) -> Keyword
        ensures keyword { result ≡ about_keyword self }
        ensures form { beginning result ≡ action (takes (form.name (about_class self)) ends) }
    {
        match self {
            About::Spawn => Keyword::Spawn,
            About::Acquire => Keyword::Acquire,
            About::Signal => Keyword::Signal,
            About::Poll => Keyword::Poll,
            About::Start => Keyword::Start,
            About::Kill => Keyword::Kill,
            About::Reset => Keyword::Reset,
            About::RestartTimer => Keyword::RestartTimer,
            About::Stop => Keyword::Stop,
        }
    }

    /// The class of the thing to which the name refers.
    pub(crate) fn class(self) -> Class
        ensures class { class_of result ≡ about_class self }
    {
        match self {
            About::Spawn => Class::Thread,
            About::Acquire | About::Signal => Class::Semaphore,
            About::Poll | About::Start | About::Kill => Class::Process,
            About::Reset | About::RestartTimer | About::Stop => Class::Timer,
        }
    }

    pub(crate) fn action(self, number: u8) -> Action
        ensures action { action_of result ≡ about_action self number }
    {
        match self {
            About::Spawn => Action::Spawn(number),
            About::Acquire => Action::Acquire(number),
            About::Signal => Action::Signal(number),
            About::Poll => Action::Poll(number),
            About::Start => Action::Start(number),
            About::Kill => Action::Kill(number),
            About::Reset => Action::Reset(number),
            About::RestartTimer => Action::RestartTimer(number),
            About::Stop => Action::Stop(number),
        }
    }
}

impl Plain {
    /// The statement that begins with this keyword, if there is one.
    pub(crate) fn of(keyword: Keyword) -> Option<Plain>
        ensures same_keyword { IfSome result (λ p. keyword ≡ plain_keyword p) }
        ensures none { result ≡ None → IsNoAction (beginning keyword) }
    {
        let plain = match keyword {
            Keyword::Yield => Plain::Bare(Bare::Yield),
            Keyword::Restart => Plain::Bare(Bare::Restart),
            Keyword::Exit => Plain::Bare(Bare::Exit),
            Keyword::Pause => Plain::Bare(Bare::Pause),
            Keyword::Print => Plain::Valued(Valued::Print),
            Keyword::Send => Plain::Valued(Valued::Send),
            Keyword::WaitUntil => Plain::Valued(Valued::WaitUntil),
            Keyword::WaitWhile => Plain::Valued(Valued::WaitWhile),
            Keyword::YieldUntil => Plain::Valued(Valued::YieldUntil),
            Keyword::Spawn => Plain::About(About::Spawn),
            Keyword::Acquire => Plain::About(About::Acquire),
            Keyword::Signal => Plain::About(About::Signal),
            Keyword::Poll => Plain::About(About::Poll),
            Keyword::Start => Plain::About(About::Start),
            Keyword::Kill => Plain::About(About::Kill),
            Keyword::Reset => Plain::About(About::Reset),
            Keyword::RestartTimer => Plain::About(About::RestartTimer),
            Keyword::Stop => Plain::About(About::Stop),
            Keyword::Post => Plain::Post,
            Keyword::Broadcast => Plain::Broadcast,
            Keyword::Synch => Plain::Synch,
            Keyword::Set => Plain::Set,
            _ => return None,
        };
        Some(plain)
    }
}
