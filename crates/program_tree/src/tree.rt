//! The trees of a program: its expressions, statements and blocks, with each name resolved to its number.
ghost use Rattle.std.specs.Prelude.{◌≡◌, map, IfOk};
ghost use Rattle.program_tree.specs.Meaning.{expression_of, action_of, statement_of, block_of};
ghost use Rattle.program_tree.specs.Tree.{listed};

use crate::event_name::{BroadcastEvent, PostedEvent, TestedEvent};
use std::alloc::{AllocError, Global};

/// An operator that takes two values of 16 bits.
#[derive(Clone, Copy, Debug, PartialEq, Eq)]
pub enum Operator {
    Add,
    Subtract,
    Multiply,
    Divide,
    Remainder,
    Equal,
    Unequal,
    Less,
    AtMost,
    Greater,
    AtLeast,
    And,
    Or,
}

/// An expression. A variable has the number of its declaration in the process; a process or a semaphore has the number
/// of its declaration in the program. Timers of both kinds are numbered together through the whole program.
#[derive(Drop)]
pub enum Expr {
    Number(u16),
    Variable(u8),
    /// The word of the event.
    Word,
    /// The number of the mote that sent the event; 0, except for a packet from the radio.
    Sender,
    /// The current moment, modulo 65,536.
    Moment,
    /// The number of the mote on which the program runs.
    Mote,
    /// 1 if the current event is this one, otherwise 0.
    Is(TestedEvent),
    /// 1 if the current event is TIMER of this timer, otherwise 0.
    Fired(u8),
    /// 1 if no process owns the timer, otherwise 0.
    Expired(u8),
    /// 1 if the current event is EXITED of this process, otherwise 0.
    Gone(u8),
    /// 1 if the process is running or called, otherwise 0.
    Running(u8),
    /// The count of a semaphore.
    Count(u8),
    Not(Box<Expr>),
    Binary(Operator, Box<Expr>, Box<Expr>),
}

/// A statement that has no block.
#[derive(Drop)]
pub enum Action {
    /// A variable gets a value.
    Assign(u8, Expr),
    Print(Expr),
    Send(Expr),
    WaitUntil(Expr),
    WaitWhile(Expr),
    Yield,
    YieldUntil(Expr),
    /// Runs an earlier thread of the same process.
    Spawn(u8),
    Restart,
    Exit,
    Pause,
    Acquire(u8),
    Signal(u8),
    /// Posts an event with this word to a process. If a variable is given, it gets the result.
    Post(u8, PostedEvent, Expr, Option<u8>),
    Broadcast(BroadcastEvent, Expr, Option<u8>),
    Synch(u8, PostedEvent, Expr),
    Poll(u8),
    Start(u8),
    Kill(u8),
    /// Sets a timer to this interval.
    Set(u8, Expr),
    Reset(u8),
    RestartTimer(u8),
    Stop(u8),
}

/// A statement.
#[derive(Drop)]
#[cycle(statement)]
pub enum Stmt {
    Do(Action),
    If(Expr, Block, Option<Block>),
    While(Expr, Block),
}

/// The statements between two braces.
#[derive(Drop)]
#[cycle(statement)]
pub struct Block {
    pub statements: Vec<Stmt>,
}

impl Block {
    /// Makes a block of these statements.
    #[tactic(auto, using(crate::proofs::TreeLaws::listed_block))]
    pub fn new(statements: Vec<Stmt>) -> Block
        ensures statements { listed (block_of result) ≡ map statement_of statements.items }
    {
        Block { statements }
    }

    /// The statements, in order.
    #[tactic(auto, using(crate::proofs::TreeLaws::listed_block))]
    pub fn statements(&self) -> &[Stmt]
        ensures statements { map statement_of result.now ≡ listed (block_of self.now) }
    {
        &self.statements
    }
}

impl Expr {
    /// Returns a copy of the expression, or an error if an allocation fails.
    pub(crate) fn clone_in(&self, alloc: Global) -> Result<Expr, AllocError>
        ensures same_expression { IfOk result (λ e. expression_of e ≡ expression_of self.now) }
    {
        match self {
            Expr::Number(number) => Ok(Expr::Number(*number)),
            Expr::Variable(variable) => Ok(Expr::Variable(*variable)),
            Expr::Word => Ok(Expr::Word),
            Expr::Sender => Ok(Expr::Sender),
            Expr::Moment => Ok(Expr::Moment),
            Expr::Mote => Ok(Expr::Mote),
            Expr::Is(event) => Ok(Expr::Is(*event)),
            Expr::Fired(timer) => Ok(Expr::Fired(*timer)),
            Expr::Expired(timer) => Ok(Expr::Expired(*timer)),
            Expr::Gone(process) => Ok(Expr::Gone(*process)),
            Expr::Running(process) => Ok(Expr::Running(*process)),
            Expr::Count(semaphore) => Ok(Expr::Count(*semaphore)),
            Expr::Not(inner) => {
                let inner = inner.clone_in(alloc)?;
                Ok(Expr::Not(Box::new(alloc, inner)?))
            }
            Expr::Binary(operator, left, right) => {
                let left = left.clone_in(alloc)?;
                let right = right.clone_in(alloc)?;
                Ok(Expr::Binary(*operator, Box::new(alloc, left)?, Box::new(alloc, right)?))
            }
        }
    }
}

impl Action {
    /// Returns a copy of the action, or an error if an allocation fails.
    pub(crate) fn clone_in(&self, alloc: Global) -> Result<Action, AllocError>
        ensures same_action { IfOk result (λ a. action_of a ≡ action_of self.now) }
    {
        match self {
            Action::Assign(variable, value) => Ok(Action::Assign(
                *variable,
                value.clone_in(alloc)?,
            )),
            Action::Print(value) => Ok(Action::Print(value.clone_in(alloc)?)),
            Action::Send(value) => Ok(Action::Send(value.clone_in(alloc)?)),
            Action::WaitUntil(test) => Ok(Action::WaitUntil(test.clone_in(alloc)?)),
            Action::WaitWhile(test) => Ok(Action::WaitWhile(test.clone_in(alloc)?)),
            Action::Yield => Ok(Action::Yield),
            Action::YieldUntil(test) => Ok(Action::YieldUntil(test.clone_in(alloc)?)),
            Action::Spawn(thread) => Ok(Action::Spawn(*thread)),
            Action::Restart => Ok(Action::Restart),
            Action::Exit => Ok(Action::Exit),
            Action::Pause => Ok(Action::Pause),
            Action::Acquire(semaphore) => Ok(Action::Acquire(*semaphore)),
            Action::Signal(semaphore) => Ok(Action::Signal(*semaphore)),
            Action::Post(process, event, word, into) => {
                Ok(Action::Post(*process, *event, word.clone_in(alloc)?, *into))
            }
            Action::Broadcast(event, word, into) => {
                Ok(Action::Broadcast(*event, word.clone_in(alloc)?, *into))
            }
            Action::Synch(process, event, word) => {
                Ok(Action::Synch(*process, *event, word.clone_in(alloc)?))
            }
            Action::Poll(process) => Ok(Action::Poll(*process)),
            Action::Start(process) => Ok(Action::Start(*process)),
            Action::Kill(process) => Ok(Action::Kill(*process)),
            Action::Set(timer, interval) => Ok(Action::Set(*timer, interval.clone_in(alloc)?)),
            Action::Reset(timer) => Ok(Action::Reset(*timer)),
            Action::RestartTimer(timer) => Ok(Action::RestartTimer(*timer)),
            Action::Stop(timer) => Ok(Action::Stop(*timer)),
        }
    }
}
