//! The names in scope, grouped by class.
ghost use Rattle.std.specs.Prelude.{◌≡◌, ◌+◌, ◌<◌, ◌≤◌, length, ℕ, IfSome};

use program_tree::class::Class;
use program_tree::names::Names;
use std::alloc::Global;

/// The greatest depth to which blocks and expressions may be nested.
pub(crate) const LEVELS: usize = 32;

/// The thing to which a name refers, if the reader expects a certain class: nothing; something of this class, by its
/// number; or something of another class.
#[derive(Clone, Copy)]
pub(crate) enum Found {
    Unknown,
    Other,
    Here(u8),
}

/// The context of a block or an expression: the number of levels around it, whether it is in a simple block, and the
/// thread whose block it is in.
#[derive(Clone, Copy)]
pub(crate) struct Context<'a> {
    pub level: usize,
    pub simple: bool,
    pub thread: Option<&'a str>,
}

impl<'a> Context<'a> {
    ghost use Rattle.program_tree.specs.Grammar.{inner};
    ghost use Rattle.program_reader.specs.Steps.{context_of, class_of, is_own_thread};

    /// The context one level deeper.
    pub(crate) fn inner(&self) -> Context<'a>
        requires level_bounded { self.now.level < LEVELS }
        ensures context { context_of result ≡ inner (context_of self.now) }
        ensures level { result.level ≡ self.now.level + 1 }
    {
        Context {
            level: self.level + 1,
            simple: self.simple,
            thread: self.thread,
        }
    }

    /// Returns `true` if this is the name of the thread that is being read.
    fn is_own(&self, class: Class, name: &str) -> bool
        ensures value { result ≡ is_own_thread (context_of self.now).thread (class_of class) name.now }
    {
        match (class, self.thread) {
            (Class::Thread, Some(own)) => own == name,
            _ => false,
        }
    }
}

/// The names that are declared so far, the names that `autostart` lists, and the number of statements that have begun.
/// Variables, timers and threads are those of one code; `first_timer` is the number of timers that the program has
/// before them.
#[derive(Drop)]
pub(crate) struct Scope {
    pub events: Names,
    pub semaphores: Names,
    pub processes: Names,
    pub variables: Names,
    pub first_timer: usize,
    pub etimers: Names,
    pub ctimers: Names,
    pub threads: Names,
    pub starting: Names,
    pub statements: usize,
    ghost few_events: { length events ≤ 117 },
    ghost few_semaphores: { length semaphores ≤ 64 },
    ghost few_processes: { length processes ≤ 64 },
    ghost few_variables: { length variables ≤ 64 },
    ghost few_timers: { first_timer + length etimers + length ctimers ≤ 64 },
    ghost few_threads: { length threads ≤ 7 },
    ghost few_statements: { statements ≤ 4096 },
}

impl Scope {
    ghost use Rattle.program_tree.specs.Faults.{nothing_yet};
    ghost use Rattle.program_tree.specs.InScope.{is_in_scope};
    ghost use Rattle.program_tree.specs.InScope.{place_in_names};
    ghost use Rattle.program_tree.specs.Tree.{a_timer};
    ghost use Rattle.program_reader.specs.Steps.{read_scope, context_of, class_of, look, most_of, IsFound};

    pub(crate) fn new(alloc: Global) -> Scope
        ensures empty { read_scope result ≡ nothing_yet }
    {
        Scope {
            events: Names::new(alloc),
            semaphores: Names::new(alloc),
            processes: Names::new(alloc),
            variables: Names::new(alloc),
            first_timer: 0,
            etimers: Names::new(alloc),
            ctimers: Names::new(alloc),
            threads: Names::new(alloc),
            starting: Names::new(alloc),
            statements: 0,
        }
    }

    /// Returns `true` if the name refers to anything.
    pub(crate) fn contains(&self, name: &str) -> bool
        ensures value { result ≡ is_in_scope (read_scope self.now).names name.now }
    {
        self.events.place_of(name).is_some()
            || self.semaphores.place_of(name).is_some()
            || self.processes.place_of(name).is_some()
            || self.variables.place_of(name).is_some()
            || self.timer(name).is_some()
            || self.threads.place_of(name).is_some()
    }

    /// The place of a name among the timers of the code, if it is the name of one of them.
    fn timer(&self, name: &str) -> Option<usize>
        ensures place { result ≡ place_in_names (read_scope self.now).names.timers name.now }
        ensures within { IfSome result (λ i. i < length (read_scope self.now).names.timers) }
    {
        match self.etimers.place_of(name) {
            Some(place) => Some(place),
            None => {
                let place = self.ctimers.place_of(name)?;
                Some(self.etimers.len() + place)
            }
        }
    }

    /// The number of a timer of the code, by the timer's name.
    fn timer_number(&self, name: &str) -> Option<usize>
        ensures bounded { IfSome result (λ i. i < 64) }
        ensures value { result ≡ look (read_scope self.now).names a_timer name.now }
    {
        let place = self.timer(name)?;
        Some(self.first_timer + place)
    }

    /// The number of a name of this class, before it is converted to a byte.
    fn place_of(&self, class: Class, name: &str) -> Option<usize>
        ensures bounded { IfSome result (λ i. i < most_of (class_of class)) }
        ensures value { result ≡ look (read_scope self.now).names (class_of class) name.now }
    {
        match class {
            Class::Event => self.events.place_of(name),
            Class::Semaphore => self.semaphores.place_of(name),
            Class::Process => self.processes.place_of(name),
            Class::Variable => self.variables.place_of(name),
            Class::Timer => self.timer_number(name),
            Class::Thread => self.threads.place_of(name),
        }
    }

    /// The number of a name of this class.
    fn number_of(&self, class: Class, name: &str) -> Option<u8>
        ensures bounded { IfSome result (λ i. i < most_of (class_of class)) }
        ensures value { result ≡ look (read_scope self.now).names (class_of class) name.now }
    {
        let place = self.place_of(class, name)?;
        Some(place as u8)
    }

    /// Finds the thing to which a name refers, if the reader expects something of this class.
    #[tactic(auto, using(crate::proofs::ScopeLaws::find_steps))]
    pub(crate) fn find(&self, place: &Context, class: Class, name: &str) -> Found
        ensures bounded { (i : ℕ) → result ≡ Found.Here i → i < most_of (class_of class) }
        ensures value { IsFound (read_scope self.now).names (context_of place.now).thread (class_of class) name.now
            result }
    {
        match self.number_of(class, name) {
            Some(_) if place.is_own(class, name) => Found::Other,
            Some(number) => Found::Here(number),
            None if self.contains(name) => Found::Other,
            None => Found::Unknown,
        }
    }
}
