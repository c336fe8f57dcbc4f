//! The reader of a program: the tokens that are left, and the names that are in scope before them.
ghost use Rattle.std.specs.Prelude.{◌≡◌, ◌∷◌, ◌≤◌, ◌<◌, length, IfOk};
ghost use Rattle.program_tree.specs.Meaning.{cast_of, sent_of, any_of};
ghost use Rattle.program_tree.specs.EventNames.{cast_map, sent_map, any_map};
ghost use Rattle.program_tree.specs.Forms.{name, cast, sent, any};
ghost use Rattle.program_tree.specs.Grammar.{operand_mark};
ghost use Rattle.program_tree.specs.InScope.{name_in, number_in};
ghost use Rattle.program_reader.specs.Machine.{operand};
ghost use Rattle.program_tree.specs.Scope.{cast_fits, sent_fits, any_fits};
ghost use Rattle.program_reader.specs.Steps.{read_scope, context_of, class_of, most_of};
ghost use Rattle.program_reader.specs.Steps.{IsNameInScope, Reads, Fails, Numbered};
ghost use Rattle.program_reader.specs.Steps.{Fits};
ghost use Rattle.program_tree.specs.Tree.{an_event};

use crate::cursor::Cursor;
use crate::fault::ReadFailure;
use crate::scope::{Context, Found, Scope};
use program_tree::class::Class;
use program_tree::error::ReadErrorKind;
use program_tree::event_name::{BroadcastEvent, DeclaredEvent, PostedEvent, TestedEvent};
use program_tree::keyword::Keyword;
use program_tree::token::Token;
use std::alloc::Global;

/// The tokens that are left, and the names that are in scope before them.
#[derive(Drop)]
pub(crate) struct Reader<'a> {
    pub alloc: Global,
    pub cursor: Cursor<'a>,
    pub scope: Scope,
}

impl Reader<'_> {
    /// The number of the next name, if the name refers to something of this class.
    #[tactic(auto, using(crate::proofs::NameSteps::number_steps))]
    fn number(&self, place: &Context, class: Class) -> Result<u8, ReadFailure>
        ensures ok { IfOk result (λ i. IsNameInScope (read_scope self.now.scope).names (context_of place.now).thread
            (class_of class) i self.now.cursor) }
        ensures bounded { IfOk result (λ i. i < most_of (class_of class)) }
        ensures err { Fails (read_scope self.now.scope) (operand (context_of place.now) (name (class_of class)))
            self.now.cursor result }
    {
        match self.cursor.peek() {
            Some(Token::Name(name)) => match self.scope.find(place, class, name) {
                Found::Here(number) => Ok(number),
                Found::Other => Err(self.cursor.fault(ReadErrorKind::BadTarget)),
                Found::Unknown => Err(self.cursor.fault(ReadErrorKind::UnknownName)),
            },
            _ => Err(self.cursor.unexpected_token()),
        }
    }

    /// Reads a name that refers to something of this class, and returns its number.
    #[tactic(auto, using(crate::proofs::NameSteps::name_steps))]
    pub(crate) fn name(&mut self, place: &Context, class: Class) -> Result<u8, ReadFailure>
        ensures no_longer { length self.new.cursor ≤ length self.old.cursor }
        ensures same { self.new.scope ≡ self.old.scope }
        ensures ok { IfOk result (λ i. Reads (read_scope self.old.scope) (read_scope self.old.scope)
            (operand (context_of place.now) (name (class_of class)))
            (λ n ms. operand_mark (context_of place.now) (name (class_of class)) (name_in n (class_of class) i) ∷ ms)
            self.old.cursor self.new.cursor) }
        ensures bounded { IfOk result (λ i. i < most_of (class_of class)) }
        ensures numbered { IfOk result (λ i. Numbered (read_scope self.old.scope).names
            (λ n. number_in n (class_of class) (name_in n (class_of class) i)) i) }
        ensures fits { IfOk result (λ i. Fits (read_scope self.old.scope).names (context_of place.now).thread
            (λ w. w (class_of class) i)) }
        ensures err { Fails (read_scope self.old.scope) (operand (context_of place.now) (name (class_of class)))
            self.old.cursor result }
    {
        let number = self.number(place, class)?;
        self.cursor.advance();
        Ok(number)
    }

    /// Reads an event that may be broadcast.
    #[tactic(auto, using(crate::proofs::EventSteps::cast_name, crate::proofs::EventSteps::key_reads))]
    pub(crate) fn cast(&mut self, place: &Context) -> Result<BroadcastEvent, ReadFailure>
        ensures no_longer { length self.new.cursor ≤ length self.old.cursor }
        ensures same { self.new.scope ≡ self.old.scope }
        ensures ok { IfOk result (λ e. Reads (read_scope self.old.scope) (read_scope self.old.scope)
            (operand (context_of place.now) cast)
            (λ n ms. operand_mark (context_of place.now) cast (cast_map (name_in n an_event) (cast_of e)) ∷ ms)
            self.old.cursor self.new.cursor) }
        ensures numbered { IfOk result (λ e. Numbered (read_scope self.old.scope).names
            (λ n. cast_map (number_in n an_event) (cast_map (name_in n an_event) (cast_of e))) (cast_of e)) }
        ensures fits { IfOk result (λ e. Fits (read_scope self.old.scope).names (context_of place.now).thread
            (λ w. cast_fits w (cast_of e))) }
        ensures err { Fails (read_scope self.old.scope) (operand (context_of place.now) cast) self.old.cursor result }
    {
        match self.cursor.peek() {
            Some(Token::Name(_)) => {
                let place = self.name(place, Class::Event)?;
                Ok(BroadcastEvent::Declared(DeclaredEvent { place }))
            }
            Some(Token::Keyword(Keyword::Continue)) => {
                self.cursor.advance();
                Ok(BroadcastEvent::Continue)
            }
            Some(Token::Keyword(Keyword::Msg)) => {
                self.cursor.advance();
                Ok(BroadcastEvent::Msg)
            }
            Some(Token::Keyword(Keyword::Com)) => {
                self.cursor.advance();
                Ok(BroadcastEvent::Com)
            }
            Some(Token::Keyword(Keyword::Packet)) => {
                self.cursor.advance();
                Ok(BroadcastEvent::Packet)
            }
            _ => Err(self.cursor.unexpected_token()),
        }
    }

    /// Reads an event that may be posted to one process.
    pub(crate) fn sent(&mut self, place: &Context) -> Result<PostedEvent, ReadFailure>
        ensures no_longer { length self.new.cursor ≤ length self.old.cursor }
        ensures same { self.new.scope ≡ self.old.scope }
        ensures ok { IfOk result (λ e. Reads (read_scope self.old.scope) (read_scope self.old.scope)
            (operand (context_of place.now) sent)
            (λ n ms. operand_mark (context_of place.now) sent (sent_map (name_in n an_event) (sent_of e)) ∷ ms)
            self.old.cursor self.new.cursor) }
        ensures numbered { IfOk result (λ e. Numbered (read_scope self.old.scope).names
            (λ n. sent_map (number_in n an_event) (sent_map (name_in n an_event) (sent_of e))) (sent_of e)) }
        ensures fits { IfOk result (λ e. Fits (read_scope self.old.scope).names (context_of place.now).thread
            (λ w. sent_fits w (sent_of e))) }
        ensures err { Fails (read_scope self.old.scope) (operand (context_of place.now) sent) self.old.cursor result }
    {
        match self.cursor.peek() {
            Some(Token::Keyword(Keyword::Exit)) => {
                self.cursor.advance();
                Ok(PostedEvent::Exit)
            }
            _ => Ok(PostedEvent::Cast(self.cast(place)?)),
        }
    }

    /// Reads an event that a process may get.
    pub(crate) fn any(&mut self, place: &Context) -> Result<TestedEvent, ReadFailure>
        ensures no_longer { length self.new.cursor ≤ length self.old.cursor }
        ensures same { self.new.scope ≡ self.old.scope }
        ensures ok { IfOk result (λ e. Reads (read_scope self.old.scope) (read_scope self.old.scope)
            (operand (context_of place.now) any)
            (λ n ms. operand_mark (context_of place.now) any (any_map (name_in n an_event) (any_of e)) ∷ ms)
            self.old.cursor self.new.cursor) }
        ensures numbered { IfOk result (λ e. Numbered (read_scope self.old.scope).names
            (λ n. any_map (number_in n an_event) (any_map (name_in n an_event) (any_of e))) (any_of e)) }
        ensures fits { IfOk result (λ e. Fits (read_scope self.old.scope).names (context_of place.now).thread
            (λ w. any_fits w (any_of e))) }
        ensures err { Fails (read_scope self.old.scope) (operand (context_of place.now) any) self.old.cursor result }
    {
        match self.cursor.peek() {
            Some(Token::Keyword(Keyword::Init)) => {
                self.cursor.advance();
                Ok(TestedEvent::Init)
            }
            Some(Token::Keyword(Keyword::Poll)) => {
                self.cursor.advance();
                Ok(TestedEvent::Poll)
            }
            Some(Token::Keyword(Keyword::Exited)) => {
                self.cursor.advance();
                Ok(TestedEvent::Exited)
            }
            Some(Token::Keyword(Keyword::Timer)) => {
                self.cursor.advance();
                Ok(TestedEvent::Timer)
            }
            _ => Ok(TestedEvent::Sent(self.sent(place)?)),
        }
    }
}
