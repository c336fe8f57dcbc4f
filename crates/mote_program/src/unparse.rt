//! Unreading, which is the reverse of reading: a tree becomes tokens again, and each number becomes a name. This
//! module unreads expressions, statements and blocks.
ghost use Rattle.std.specs.Prelude.{◌≡◌, ◌-◌, ◌∷◌, ◌++◌, [], map, OnOk, slice_index_or, option_map};
ghost use Rattle.program_tree.specs.Meaning.{cast_of, sent_of, any_of};
ghost use Rattle.program_tree.specs.EventNames.{cast_map, sent_map, any_map};
ghost use Rattle.program_tree.specs.InScope.{name_in};
ghost use Rattle.mote_program.specs.Spelled.{names_in, cast_token, sent_token, any_token, telling};
ghost use Rattle.mote_program.specs.Spelled.{expression_tokens, into_tokens, bare, about, valued, action_tokens};
ghost use Rattle.mote_program.specs.Spelled.{statement_tokens, block_tokens};
ghost use Rattle.program_tree.specs.Classes.{class_of};
ghost use Rattle.program_tree.specs.Tokens as token;
ghost use Rattle.program_tree.specs.TokenMeaning.{token_of};
ghost use Rattle.program_tree.specs.Tree.{an_event, a_variable, expression_map, action_map};
ghost use Rattle.program_tree.specs.Meaning.{expression_of, action_of};
ghost use Rattle.program_tree.specs.Meaning.{statement_of, block_of};
ghost use Rattle.program_tree.specs.Tree.{statement_map, body_map, assign, post, broadcast};
ghost use Rattle.program_tree.specs.Tree.{synch, set};

use program_tree::class::Class;
use program_tree::event_name::{BroadcastEvent, PostedEvent, TestedEvent};
use program_tree::keyword::Keyword;
use program_tree::names::Names;
use program_tree::process_text::ProcessText;
use program_tree::program::Program;
use program_tree::token::Token;
use program_tree::tree::{Action, Block, Expr, Stmt};
use std::alloc::AllocError;

/// The name with this number, or an empty name if no name has this number. In a program, each number has a name.
pub(crate) fn name_at<'a>(names: &'a Names, place: usize) -> &'a str
    ensures name { result.now ≡ slice_index_or names.now place [] }
{
    if place < names.len() {
        names.get(place)
    } else {
        ""
    }
}

/// The name of a timer of a process, by the timer's number in the program.
fn timer_name<'a>(code: &'a ProcessText, timer: u8) -> &'a str
    ensures name { result.now ≡ slice_index_or (code.now.etimers ++ code.now.ctimers)
        (timer - code.now.first_timer) [] }
{
    let place = usize::from(timer.saturating_sub(code.first_timer));
    if place < code.etimers.len() {
        code.etimers.get(place)
    } else {
        name_at(&code.ctimers, place - code.etimers.len())
    }
}

/// A code, and the code's program, whose names are also in scope in the code.
#[derive(Clone, Copy)]
pub(crate) struct Scoped<'a> {
    pub program: &'a Program,
    pub code: &'a ProcessText,
}

impl<'a> Scoped<'a> {
    /// The name with this number, among the names of this class.
    fn name(&self, class: Class, number: u8) -> Token<'a>
        ensures token { token_of result ≡ token.Name (name_in (names_in self.now) (class_of class) number) }
    {
        let place = usize::from(number);
        let name = match class {
            Class::Event => name_at(&self.program.events, place),
            Class::Semaphore => name_at(&self.program.semaphores, place),
            Class::Process => name_at(&self.program.processes, place),
            Class::Variable => name_at(&self.code.variables, place),
            Class::Timer => timer_name(self.code, number),
            Class::Thread => name_at(&self.code.threads, place),
        };
        Token::Name(name)
    }

    fn cast(&self, event: BroadcastEvent) -> Token<'a>
        ensures token { token_of result ≡ cast_token (cast_map (name_in (names_in self.now) an_event) (cast_of event)) }
    {
        match event {
            BroadcastEvent::Continue => Token::Keyword(Keyword::Continue),
            BroadcastEvent::Msg => Token::Keyword(Keyword::Msg),
            BroadcastEvent::Com => Token::Keyword(Keyword::Com),
            BroadcastEvent::Packet => Token::Keyword(Keyword::Packet),
            BroadcastEvent::Declared(declared) => self.name(Class::Event, declared.place),
        }
    }

    fn sent(&self, event: PostedEvent) -> Token<'a>
        ensures token { token_of result ≡ sent_token (sent_map (name_in (names_in self.now) an_event) (sent_of event)) }
    {
        match event {
            PostedEvent::Cast(cast) => self.cast(cast),
            PostedEvent::Exit => Token::Keyword(Keyword::Exit),
        }
    }

    fn any(&self, event: TestedEvent) -> Token<'a>
        ensures token { token_of result ≡ any_token (any_map (name_in (names_in self.now) an_event) (any_of event)) }
    {
        match event {
            TestedEvent::Sent(sent) => self.sent(sent),
            TestedEvent::Init => Token::Keyword(Keyword::Init),
            TestedEvent::Poll => Token::Keyword(Keyword::Poll),
            TestedEvent::Exited => Token::Keyword(Keyword::Exited),
            TestedEvent::Timer => Token::Keyword(Keyword::Timer),
        }
    }
}

/// Adds one token.
pub(crate) fn add<'a>(out: &mut Vec<Token<'a>>, token: Token<'a>) -> Result<(), AllocError>
    ensures appended { OnOk result (map token_of out.new.items
        ≡ map token_of out.old.items ++ token_of token.entry ∷ []) }
{
    out.push(token)?;
    Ok(())
}

/// Adds some tokens.
pub(crate) fn add_all<'a>(out: &mut Vec<Token<'a>>, more: &[Token<'a>]) -> Result<(), AllocError>
    ensures appended { OnOk result (map token_of out.new.items ≡ map token_of out.old.items ++ map token_of more.now) }
{
    out.extend_from_slice(more)
}

/// Adds a keyword, and a token in parentheses after it.
fn telling<'a>(
    out: &mut Vec<Token<'a>>,
    keyword: Keyword,
    operand: Token<'a>,
) -> Result<(), AllocError>
    ensures appended { OnOk result (map token_of out.new.items ≡ map token_of out.old.items
        ++ telling keyword (token_of operand.entry)) }
{
    add_all(
        out,
        &[Token::Keyword(keyword), Token::Open, operand, Token::Close],
    )
}

impl<'a> Scoped<'a> {
    /// Adds an expression.
    fn expression(&self, expr: &Expr, out: &mut Vec<Token<'a>>) -> Result<(), AllocError>
        ensures appended { OnOk result (map token_of out.new.items ≡ map token_of out.old.items
            ++ expression_tokens (expression_map (name_in (names_in self.now)) (expression_of expr.now))) }
    {
        match expr {
            Expr::Number(number) => add(out, Token::Number(u32::from(*number))),
            Expr::Variable(variable) => add(out, self.name(Class::Variable, *variable)),
            Expr::Word => add(out, Token::Keyword(Keyword::Data)),
            Expr::Sender => add(out, Token::Keyword(Keyword::From)),
            Expr::Moment => add(out, Token::Keyword(Keyword::Now)),
            Expr::Mote => add(out, Token::Keyword(Keyword::Own)),
            Expr::Is(event) => telling(out, Keyword::Is, self.any(*event)),
            Expr::Fired(timer) => telling(out, Keyword::Fired, self.name(Class::Timer, *timer)),
            Expr::Expired(timer) => telling(out, Keyword::Expired, self.name(Class::Timer, *timer)),
            Expr::Gone(process) => telling(out, Keyword::Gone, self.name(Class::Process, *process)),
            Expr::Running(process) => {
                telling(out, Keyword::Running, self.name(Class::Process, *process))
            }
            Expr::Count(semaphore) => {
                telling(out, Keyword::Count, self.name(Class::Semaphore, *semaphore))
            }
            Expr::Not(operand) => {
                add(out, Token::Bang)?;
                self.expression(operand, out)
            }
            Expr::Binary(operator, left, right) => {
                add(out, Token::Open)?;
                self.expression(left, out)?;
                add(out, Token::Op(*operator))?;
                self.expression(right, out)?;
                add(out, Token::Close)
            }
        }
    }

    /// Adds a keyword and a semicolon.
    fn bare(&self, keyword: Keyword, out: &mut Vec<Token<'a>>) -> Result<(), AllocError>
        ensures appended { OnOk result (map token_of out.new.items ≡ map token_of out.old.items ++ bare keyword) }
    {
        add_all(out, &[Token::Keyword(keyword), Token::Semicolon])
    }

    /// Adds a keyword, a name and a semicolon.
    fn about(
        &self,
        keyword: Keyword,
        class: Class,
        number: u8,
        out: &mut Vec<Token<'a>>,
    ) -> Result<(), AllocError>
        ensures appended { OnOk result (map token_of out.new.items ≡ map token_of out.old.items
            ++ about keyword (name_in (names_in self.now) (class_of class) number)) }
    {
        let name = self.name(class, number);
        add_all(out, &[Token::Keyword(keyword), name, Token::Semicolon])
    }

    /// Adds a keyword, an expression and a semicolon.
    fn valued(
        &self,
        keyword: Keyword,
        value: &Expr,
        out: &mut Vec<Token<'a>>,
    ) -> Result<(), AllocError>
        ensures appended { OnOk result (map token_of out.new.items ≡ map token_of out.old.items
            ++ valued keyword (expression_map (name_in (names_in self.now)) (expression_of value.now))) }
    {
        add(out, Token::Keyword(keyword))?;
        self.expression(value, out)?;
        add(out, Token::Semicolon)
    }

    /// Adds a semicolon and, if a variable gets the result, `into` and the variable before it.
    fn into_end(&self, into: Option<u8>, out: &mut Vec<Token<'a>>) -> Result<(), AllocError>
        ensures appended { OnOk result (map token_of out.new.items ≡ map token_of out.old.items
            ++ into_tokens (option_map (name_in (names_in self.now) a_variable) into)) }
    {
        match into {
            None => add(out, Token::Semicolon),
            Some(variable) => {
                let name = self.name(Class::Variable, variable);
                add_all(
                    out,
                    &[Token::Keyword(Keyword::Into), name, Token::Semicolon],
                )
            }
        }
    }

    /// Adds some tokens and an expression.
    fn with_value(
        &self,
        front: &[Token<'a>],
        value: &Expr,
        out: &mut Vec<Token<'a>>,
    ) -> Result<(), AllocError>
        ensures appended { OnOk result (map token_of out.new.items ≡ map token_of out.old.items
            ++ (map token_of front.now ++ expression_tokens
            (expression_map (name_in (names_in self.now)) (expression_of value.now)))) }
    {
        add_all(out, front)?;
        self.expression(value, out)
    }

    fn post(
        &self,
        process: u8,
        event: PostedEvent,
        word: &Expr,
        into: Option<u8>,
        out: &mut Vec<Token<'a>>,
    ) -> Result<(), AllocError>
        ensures appended { OnOk result (map token_of out.new.items ≡ map token_of out.old.items
            ++ action_tokens (action_map (name_in (names_in self.now))
            (post process (sent_of event) (expression_of word.now) into))) }
    {
        let process = self.name(Class::Process, process);
        let event = self.sent(event);
        self.with_value(&[Token::Keyword(Keyword::Post), process, event], word, out)?;
        self.into_end(into, out)
    }

    fn broadcast(
        &self,
        event: BroadcastEvent,
        word: &Expr,
        into: Option<u8>,
        out: &mut Vec<Token<'a>>,
    ) -> Result<(), AllocError>
        ensures appended { OnOk result (map token_of out.new.items ≡ map token_of out.old.items
            ++ action_tokens (action_map (name_in (names_in self.now))
            (broadcast (cast_of event) (expression_of word.now) into))) }
    {
        let event = self.cast(event);
        self.with_value(&[Token::Keyword(Keyword::Broadcast), event], word, out)?;
        self.into_end(into, out)
    }

    fn synch(
        &self,
        process: u8,
        event: PostedEvent,
        word: &Expr,
        out: &mut Vec<Token<'a>>,
    ) -> Result<(), AllocError>
        ensures appended { OnOk result (map token_of out.new.items ≡ map token_of out.old.items
            ++ action_tokens (action_map (name_in (names_in self.now))
            (synch process (sent_of event) (expression_of word.now)))) }
    {
        let process = self.name(Class::Process, process);
        let event = self.sent(event);
        self.with_value(&[Token::Keyword(Keyword::Synch), process, event], word, out)?;
        add(out, Token::Semicolon)
    }

    fn set(&self, timer: u8, interval: &Expr, out: &mut Vec<Token<'a>>) -> Result<(), AllocError>
        ensures appended { OnOk result (map token_of out.new.items ≡ map token_of out.old.items
            ++ action_tokens (action_map (name_in (names_in self.now)) (set timer (expression_of interval.now)))) }
    {
        let timer = self.name(Class::Timer, timer);
        self.with_value(&[Token::Keyword(Keyword::Set), timer], interval, out)?;
        add(out, Token::Semicolon)
    }

    fn assign(&self, variable: u8, value: &Expr, out: &mut Vec<Token<'a>>) -> Result<(), AllocError>
        ensures appended { OnOk result (map token_of out.new.items ≡ map token_of out.old.items
            ++ action_tokens (action_map (name_in (names_in self.now)) (assign variable (expression_of value.now)))) }
    {
        let variable = self.name(Class::Variable, variable);
        self.with_value(&[variable, Token::Equals], value, out)?;
        add(out, Token::Semicolon)
    }

    /// Adds a statement that has no block.
    fn action(&self, action: &Action, out: &mut Vec<Token<'a>>) -> Result<(), AllocError>
        ensures appended { OnOk result (map token_of out.new.items ≡ map token_of out.old.items
            ++ action_tokens (action_map (name_in (names_in self.now)) (action_of action.now))) }
    {
        match action {
            Action::Assign(variable, value) => self.assign(*variable, value, out),
            Action::Print(value) => self.valued(Keyword::Print, value, out),
            Action::Send(value) => self.valued(Keyword::Send, value, out),
            Action::WaitUntil(value) => self.valued(Keyword::WaitUntil, value, out),
            Action::WaitWhile(value) => self.valued(Keyword::WaitWhile, value, out),
            Action::Yield => self.bare(Keyword::Yield, out),
            Action::YieldUntil(value) => self.valued(Keyword::YieldUntil, value, out),
            Action::Spawn(thread) => self.about(Keyword::Spawn, Class::Thread, *thread, out),
            Action::Restart => self.bare(Keyword::Restart, out),
            Action::Exit => self.bare(Keyword::Exit, out),
            Action::Pause => self.bare(Keyword::Pause, out),
            Action::Acquire(semaphore) => {
                self.about(Keyword::Acquire, Class::Semaphore, *semaphore, out)
            }
            Action::Signal(semaphore) => {
                self.about(Keyword::Signal, Class::Semaphore, *semaphore, out)
            }
            Action::Post(process, event, word, into) => {
                self.post(*process, *event, word, *into, out)
            }
            Action::Broadcast(event, word, into) => self.broadcast(*event, word, *into, out),
            Action::Synch(process, event, word) => self.synch(*process, *event, word, out),
            Action::Poll(process) => self.about(Keyword::Poll, Class::Process, *process, out),
            Action::Start(process) => self.about(Keyword::Start, Class::Process, *process, out),
            Action::Kill(process) => self.about(Keyword::Kill, Class::Process, *process, out),
            Action::Set(timer, interval) => self.set(*timer, interval, out),
            Action::Reset(timer) => self.about(Keyword::Reset, Class::Timer, *timer, out),
            Action::RestartTimer(timer) => {
                self.about(Keyword::RestartTimer, Class::Timer, *timer, out)
            }
            Action::Stop(timer) => self.about(Keyword::Stop, Class::Timer, *timer, out),
        }
    }

    /// Adds a statement.
    #[cycle(unparse)]
    fn statement(&self, statement: &Stmt, out: &mut Vec<Token<'a>>) -> Result<(), AllocError>
        ensures appended { OnOk result (map token_of out.new.items ≡ map token_of out.old.items
            ++ statement_tokens (statement_map (name_in (names_in self.now)) (statement_of statement.now))) }
    {
        match statement {
            Stmt::Do(action) => self.action(action, out),
            Stmt::If(test, then, otherwise) => {
                self.with_value(&[Token::Keyword(Keyword::If)], test, out)?;
                self.block(then, out)?;
                match otherwise {
                    None => Ok(()),
                    Some(block) => {
                        add(out, Token::Keyword(Keyword::Else))?;
                        self.block(block, out)
                    }
                }
            }
            Stmt::While(test, block) => {
                self.with_value(&[Token::Keyword(Keyword::While)], test, out)?;
                self.block(block, out)
            }
        }
    }

    /// Adds a block.
    #[cycle(unparse)]
    pub(crate) fn block(&self, block: &Block, out: &mut Vec<Token<'a>>) -> Result<(), AllocError>
        ensures appended { OnOk result (map token_of out.new.items ≡ map token_of out.old.items
            ++ block_tokens (body_map (name_in (names_in self.now)) (block_of block.now))) }
    {
        add(out, Token::OpenBrace)?;
        'statements: for statement in &block.statements {
            self.statement(statement, out)?;
        }
        add(out, Token::CloseBrace)
    }
}
