//! The reading of statements and blocks.
ghost use Rattle.std.specs.Prelude.{◌≡◌, ◌+◌, ◌≤◌, ◌<◌, false, ◌&&◌, drop, length, IfOk, OnOk, Some};
ghost use Rattle.std.proofs.Common.{option_map};
ghost use Rattle.program_reader.specs.Answers.{AnswersAction, AnswersStatement};
ghost use Rattle.program_tree.specs.Forms.{beginning, waits};
ghost use Rattle.program_tree.specs.Grammar.{into_marks, else_marks, block_marks};
ghost use Rattle.program_tree.specs.InScope.{name_in, number_in};
ghost use Rattle.program_reader.specs.Machine.{first, into_end, items, items_else, block};
ghost use Rattle.program_reader.specs.Plain.{BeginsPlain, bare_keyword, valued_keyword, about_keyword};
ghost use Rattle.program_tree.specs.Scope.{into_fits, other_fits, block_fits};
ghost use Rattle.program_reader.specs.Steps.{read_scope, context_of, fixed};
ghost use Rattle.program_reader.specs.Steps.{IsStatement, IsPlain, IsInside, BeginsStatement};
ghost use Rattle.program_reader.specs.Steps.{Finds, IsTarget, Reads, ReadsElse, Fails, Numbered, Fits};
ghost use Rattle.program_tree.specs.Tokens as token;
ghost use Rattle.program_tree.specs.Tree.{a_variable, body_map, otherwise_map, height};
ghost use Rattle.program_tree.specs.Meaning.{block_of, otherwise_of};
ghost use Rattle.program_tree.specs.Tree.{other_height, size, other_size};

use crate::cursor::Sign;
use crate::fault::ReadFailure;
use crate::plain::{About, Bare, Plain, Valued};
use crate::reader::Reader;
use crate::scope::{Context, Found, LEVELS};
use program_tree::class::Class;
use program_tree::error::ReadErrorKind;
use program_tree::keyword::Keyword;
use program_tree::token::Token;
use program_tree::tree::{Action, Block, Stmt};

/// The greatest number of statements that a program may have.
const STATEMENTS: usize = 4_096;

/// Returns `true` if a statement with this keyword isn't allowed in a simple block.
fn is_wait(keyword: Keyword) -> bool
    ensures value { result ≡ waits keyword }
{
    matches!(
        keyword,
        Keyword::WaitUntil
            | Keyword::WaitWhile
            | Keyword::Yield
            | Keyword::YieldUntil
            | Keyword::Spawn
            | Keyword::Restart
            | Keyword::Exit
            | Keyword::Pause
            | Keyword::Acquire
    )
}

impl Reader<'_> {
    /// Checks that a statement may begin with this keyword here.
    #[tactic(auto, using(crate::proofs::StatementSteps::may_begin_steps))]
    fn may_begin(&self, place: &Context, keyword: Keyword) -> Result<(), ReadFailure>
        requires at_keyword { first self.now.cursor ≡ Some (token.Keyword keyword) }
        requires statement { IsStatement (beginning keyword) }
        ensures no_wait { OnOk result ((place.now.simple && waits keyword) ≡ false) }
        ensures room { OnOk result (self.now.scope.statements < STATEMENTS) }
        ensures err { Fails (read_scope self.now.scope) (items (context_of place.now)) self.now.cursor result }
    {
        if place.simple && is_wait(keyword) {
            return Err(self.cursor.fault(ReadErrorKind::WaitInSimpleBlock));
        }
        if self.scope.statements >= STATEMENTS {
            return Err(self.cursor.fault(ReadErrorKind::TooMany));
        }
        Ok(())
    }

    /// Reads the keyword with which a statement begins, and counts the statement.
    #[tactic(auto, using(crate::proofs::StatementSteps::begin_ok))]
    fn begin(&mut self, place: &Context, keyword: Keyword) -> Result<(), ReadFailure>
        requires at_keyword { first self.old.cursor ≡ Some (token.Keyword keyword) }
        requires statement { IsStatement (beginning keyword) }
        ensures names { fixed self.new.scope ≡ fixed self.old.scope }
        ensures shorter { OnOk result (length self.new.cursor < length self.old.cursor) }
        ensures counts { OnOk result (self.old.scope.statements < self.new.scope.statements) }
        ensures ok { OnOk result
            (BeginsStatement (read_scope self.old.scope) (read_scope self.new.scope) (context_of place.now)
            keyword self.old.cursor self.new.cursor) }
        ensures err { Fails (read_scope self.old.scope) (items (context_of place.now)) self.old.cursor result }
    {
        self.may_begin(place, keyword)?;
        self.scope.statements += 1;
        self.cursor.advance();
        Ok(())
    }

    /// Checks that an assignment may begin with this variable, and returns the number of the variable.
    #[tactic(auto, using(crate::proofs::StatementSteps::may_assign_steps))]
    fn may_assign(&self, place: &Context, name: &str) -> Result<u8, ReadFailure>
        requires at_name { first self.now.cursor ≡ Some (token.Name name.now) }
        ensures finds { IfOk result (λ i. Finds (read_scope self.now.scope).names (context_of place.now).thread
            a_variable name.now i) }
        ensures room { OnOk result (self.now.scope.statements < STATEMENTS) }
        ensures err { Fails (read_scope self.now.scope) (items (context_of place.now)) self.now.cursor result }
    {
        match self.scope.find(place, Class::Variable, name) {
            Found::Unknown => Err(self.cursor.fault(ReadErrorKind::UnknownName)),
            _ if self.scope.statements >= STATEMENTS => {
                Err(self.cursor.fault(ReadErrorKind::TooMany))
            }
            Found::Other => Err(self.cursor.fault(ReadErrorKind::BadTarget)),
            Found::Here(number) => Ok(number),
        }
    }

    /// Reads the variable with which an assignment begins, and counts the statement.
    #[tactic(auto, using(crate::proofs::StatementSteps::target_steps))]
    fn target(&mut self, place: &Context, name: &str) -> Result<u8, ReadFailure>
        requires at_name { first self.old.cursor ≡ Some (token.Name name.now) }
        ensures names { fixed self.new.scope ≡ fixed self.old.scope }
        ensures shorter { OnOk result (length self.new.cursor < length self.old.cursor) }
        ensures counts { OnOk result (self.old.scope.statements < self.new.scope.statements) }
        ensures ok { IfOk result (λ i. IsTarget (read_scope self.old.scope) (read_scope self.new.scope)
            (context_of place.now) i self.old.cursor self.new.cursor) }
        ensures numbered { IfOk result (λ i. Numbered (read_scope self.old.scope).names
            (λ n. number_in n a_variable (name_in n a_variable i)) i) }
        ensures fits { IfOk result (λ i. Fits (read_scope self.old.scope).names (context_of place.now).thread
            (λ w. w a_variable i)) }
        ensures err { Fails (read_scope self.old.scope) (items (context_of place.now)) self.old.cursor result }
    {
        let variable = self.may_assign(place, name)?;
        self.scope.statements += 1;
        self.cursor.advance();
        Ok(variable)
    }

    /// Reads `;`, or reads `into`, a variable that gets the result, and `;`.
    #[tactic(auto, using(crate::proofs::StatementSteps::into_start))]
    fn into_end(&mut self, place: &Context) -> Result<Option<u8>, ReadFailure>
        ensures no_longer { length self.new.cursor ≤ length self.old.cursor }
        ensures same { self.new.scope ≡ self.old.scope }
        ensures ok { IfOk result (λ i. Reads (read_scope self.old.scope) (read_scope self.old.scope)
            (into_end (context_of place.now))
            (λ n ms. into_marks (option_map (name_in n a_variable) i) ms) self.old.cursor self.new.cursor) }
        ensures numbered { IfOk result (λ i. Numbered (read_scope self.old.scope).names
            (λ n. option_map (number_in n a_variable) (option_map (name_in n a_variable) i)) i) }
        ensures fits { IfOk result (λ i. Fits (read_scope self.old.scope).names (context_of place.now).thread
            (λ w. into_fits w i)) }
        ensures err { Fails (read_scope self.old.scope) (into_end (context_of place.now)) self.old.cursor result }
    {
        match self.cursor.peek() {
            Some(Token::Semicolon) => {
                self.cursor.advance();
                Ok(None)
            }
            Some(Token::Keyword(Keyword::Into)) => {
                self.cursor.advance();
                let variable = self.name(place, Class::Variable)?;
                self.cursor.sign(Sign::Semicolon)?;
                Ok(Some(variable))
            }
            _ => Err(self.cursor.unexpected_token()),
        }
    }

    /// Reads a statement that consists only of its keyword.
    fn bare(&mut self, place: &Context, bare: Bare) -> Result<Action, ReadFailure>
        requires at_keyword { first self.old.cursor ≡ Some (token.Keyword (bare_keyword bare)) }
        ensures answers_action { AnswersAction self.old self.new place.now result }
    {
        self.begin(place, bare.keyword())?;
        self.cursor.sign(Sign::Semicolon)?;
        Ok(bare.action())
    }

    /// Reads a statement that consists of its keyword and an expression.
    fn valued(&mut self, place: &Context, valued: Valued) -> Result<Action, ReadFailure>
        requires shallow { place.now.level ≤ LEVELS }
        requires at_keyword { first self.old.cursor ≡ Some (token.Keyword (valued_keyword valued)) }
        ensures answers_action { AnswersAction self.old self.new place.now result }
    {
        self.begin(place, valued.keyword())?;
        let value = self.expression(place)?;
        self.cursor.sign(Sign::Semicolon)?;
        Ok(valued.action(value))
    }

    /// Reads a statement that consists of its keyword and a name.
    fn about(&mut self, place: &Context, about: About) -> Result<Action, ReadFailure>
        requires at_keyword { first self.old.cursor ≡ Some (token.Keyword (about_keyword about)) }
        ensures answers_action { AnswersAction self.old self.new place.now result }
    {
        self.begin(place, about.keyword())?;
        let number = self.name(place, about.class())?;
        self.cursor.sign(Sign::Semicolon)?;
        Ok(about.action(number))
    }

    fn post(&mut self, place: &Context) -> Result<Action, ReadFailure>
        requires shallow { place.now.level ≤ LEVELS }
        requires at_keyword { first self.old.cursor ≡ Some (token.Keyword Keyword.Post) }
        ensures answers_action { AnswersAction self.old self.new place.now result }
    {
        self.begin(place, Keyword::Post)?;
        let process = self.name(place, Class::Process)?;
        let event = self.sent(place)?;
        let word = self.expression(place)?;
        let into = self.into_end(place)?;
        Ok(Action::Post(process, event, word, into))
    }

    fn broadcast(&mut self, place: &Context) -> Result<Action, ReadFailure>
        requires shallow { place.now.level ≤ LEVELS }
        requires at_keyword { first self.old.cursor ≡ Some (token.Keyword Keyword.Broadcast) }
        ensures answers_action { AnswersAction self.old self.new place.now result }
    {
        self.begin(place, Keyword::Broadcast)?;
        let event = self.cast(place)?;
        let word = self.expression(place)?;
        let into = self.into_end(place)?;
        Ok(Action::Broadcast(event, word, into))
    }

    fn synch(&mut self, place: &Context) -> Result<Action, ReadFailure>
        requires shallow { place.now.level ≤ LEVELS }
        requires at_keyword { first self.old.cursor ≡ Some (token.Keyword Keyword.Synch) }
        ensures answers_action { AnswersAction self.old self.new place.now result }
    {
        self.begin(place, Keyword::Synch)?;
        let process = self.name(place, Class::Process)?;
        let event = self.sent(place)?;
        let word = self.expression(place)?;
        self.cursor.sign(Sign::Semicolon)?;
        Ok(Action::Synch(process, event, word))
    }

    fn set(&mut self, place: &Context) -> Result<Action, ReadFailure>
        requires shallow { place.now.level ≤ LEVELS }
        requires at_keyword { first self.old.cursor ≡ Some (token.Keyword Keyword.Set) }
        ensures answers_action { AnswersAction self.old self.new place.now result }
    {
        self.begin(place, Keyword::Set)?;
        let timer = self.name(place, Class::Timer)?;
        let interval = self.expression(place)?;
        self.cursor.sign(Sign::Semicolon)?;
        Ok(Action::Set(timer, interval))
    }

    fn assign(&mut self, place: &Context, name: &str) -> Result<Action, ReadFailure>
        requires shallow { place.now.level ≤ LEVELS }
        requires at_name { first self.old.cursor ≡ Some (token.Name name.now) }
        ensures answers_action { AnswersAction self.old self.new place.now result }
    {
        let variable = self.target(place, name)?;
        self.cursor.sign(Sign::Equals)?;
        let value = self.expression(place)?;
        self.cursor.sign(Sign::Semicolon)?;
        Ok(Action::Assign(variable, value))
    }

    /// Reads a statement that begins with a keyword and has no block.
    #[tactic(auto, using(crate::proofs::PlainLaws::no_action))]
    fn action(&mut self, place: &Context, keyword: Keyword) -> Result<Action, ReadFailure>
        requires shallow { place.now.level ≤ LEVELS }
        requires at_keyword { first self.old.cursor ≡ Some (token.Keyword keyword) }
        requires plain { IsPlain (beginning keyword) }
        ensures answers_action { AnswersAction self.old self.new place.now result }
    {
        match Plain::of(keyword) {
            Some(Plain::Bare(bare)) => self.bare(place, bare),
            Some(Plain::Valued(valued)) => self.valued(place, valued),
            Some(Plain::About(about)) => self.about(place, about),
            Some(Plain::Post) => self.post(place),
            Some(Plain::Broadcast) => self.broadcast(place),
            Some(Plain::Synch) => self.synch(place),
            Some(Plain::Set) => self.set(place),
            None => Err(self.cursor.unexpected_token()),
        }
    }

    /// Reads a statement without a block.
    fn plain(&mut self, place: &Context) -> Result<Action, ReadFailure>
        requires shallow { place.now.level ≤ LEVELS }
        requires plain { BeginsPlain (first self.old.cursor) }
        ensures answers_action { AnswersAction self.old self.new place.now result }
    {
        match self.cursor.peek() {
            Some(Token::Name(name)) => self.assign(place, name),
            Some(Token::Keyword(keyword)) => self.action(place, keyword),
            _ => Err(self.cursor.unexpected_token()),
        }
    }

    #[cycle(statement)]
    fn branch(&mut self, place: &Context) -> Result<Stmt, ReadFailure>
        requires level_bounded { place.now.level ≤ LEVELS }
        requires at_keyword { first self.old.cursor ≡ Some (token.Keyword Keyword.If) }
        ensures answers_statement { AnswersStatement self.old self.new place.now result }
    {
        self.begin(place, Keyword::If)?;
        let test = self.expression(place)?;
        let then = self.block(place)?;
        let otherwise = self.otherwise(place)?;
        Ok(Stmt::If(test, then, otherwise))
    }

    #[cycle(statement)]
    fn repeat(&mut self, place: &Context) -> Result<Stmt, ReadFailure>
        requires level_bounded { place.now.level ≤ LEVELS }
        requires at_keyword { first self.old.cursor ≡ Some (token.Keyword Keyword.While) }
        ensures answers_statement { AnswersStatement self.old self.new place.now result }
    {
        self.begin(place, Keyword::While)?;
        let test = self.expression(place)?;
        let block = self.block(place)?;
        Ok(Stmt::While(test, block))
    }

    /// Reads a statement of a block.
    #[cycle(statement)]
    fn statement(&mut self, place: &Context) -> Result<Stmt, ReadFailure>
        requires level_bounded { place.now.level ≤ LEVELS }
        requires inside { IsInside (first self.old.cursor) }
        ensures answers_statement { AnswersStatement self.old self.new place.now result }
    {
        match self.cursor.peek() {
            Some(Token::Keyword(Keyword::If)) => self.branch(place),
            Some(Token::Keyword(Keyword::While)) => self.repeat(place),
            _ => Ok(Stmt::Do(self.plain(place)?)),
        }
    }

    /// Reads the part that may follow the first block of an `if`.
    #[cycle(statement)]
    #[tactic(auto, using(crate::proofs::Blocks::else_start))]
    fn otherwise(&mut self, place: &Context) -> Result<Option<Block>, ReadFailure>
        requires level_bounded { place.now.level ≤ LEVELS }
        ensures names { fixed self.new.scope ≡ fixed self.old.scope }
        ensures no_longer { OnOk result (length self.new.cursor ≤ length self.old.cursor) }
        ensures ok { IfOk result (λ o. ReadsElse (read_scope self.old.scope) (read_scope self.new.scope)
            (context_of place.now)
            (λ n ms. else_marks (context_of place.now) (otherwise_map (name_in n)
            (otherwise_of (option_map block_of o))) ms) self.old.cursor self.new.cursor) }
        ensures numbered { IfOk result (λ o. Numbered (read_scope self.old.scope).names
            (λ n. otherwise_map (number_in n) (otherwise_map (name_in n) (otherwise_of (option_map block_of o))))
            (otherwise_of (option_map block_of o))) }
        ensures fits { IfOk result (λ o. Fits (read_scope self.old.scope).names (context_of place.now).thread
            (λ w. other_fits w (otherwise_of (option_map block_of o)))) }
        ensures shallow { IfOk result (λ o. place.now.level + other_height (otherwise_of (option_map block_of o))
            ≤ LEVELS) }
        ensures counts { IfOk result (λ o. other_size (otherwise_of (option_map block_of o))
            + self.old.scope.statements ≤ self.new.scope.statements) }
        ensures err { Fails (read_scope self.old.scope) (items_else (context_of place.now)) self.old.cursor result }
    {
        match self.cursor.peek() {
            Some(Token::Keyword(Keyword::Else)) => {
                self.cursor.advance();
                let block = self.block(place)?;
                Ok(Some(block))
            }
            _ => Ok(None),
        }
    }

    /// Reads the opening brace of a block.
    #[tactic(auto, using(crate::proofs::Blocks::brace_deep))]
    fn opening_brace(&mut self, place: &Context) -> Result<(), ReadFailure>
        requires level_bounded { place.now.level ≤ LEVELS }
        ensures same { self.new.scope ≡ self.old.scope }
        ensures no_longer { length self.new.cursor ≤ length self.old.cursor }
        ensures found { OnOk result (first self.old.cursor ≡ Some token.OpenBrace) }
        ensures room { OnOk result (place.now.level < LEVELS) }
        ensures read { OnOk result (self.new.cursor ≡ drop 1 self.old.cursor) }
        ensures err { Fails (read_scope self.old.scope) (block (context_of place.now)) self.old.cursor result }
    {
        match self.cursor.peek() {
            Some(Token::OpenBrace) => {}
            _ => return Err(self.cursor.unexpected_token()),
        }
        if place.level == LEVELS {
            return Err(self.cursor.fault(ReadErrorKind::TooDeep));
        }
        self.cursor.advance();
        Ok(())
    }

    /// Reads a block in this context.
    #[cycle(statement)]
    pub(crate) fn block(&mut self, place: &Context) -> Result<Block, ReadFailure>
        requires level_bounded { place.now.level ≤ LEVELS }
        ensures names { fixed self.new.scope ≡ fixed self.old.scope }
        ensures no_longer { OnOk result (length self.new.cursor ≤ length self.old.cursor) }
        ensures ok { IfOk result (λ b. Reads (read_scope self.old.scope) (read_scope self.new.scope)
            (block (context_of place.now))
            (λ n ms. block_marks (context_of place.now) (body_map (name_in n) (block_of b)) ms) self.old.cursor
            self.new.cursor) }
        ensures numbered { IfOk result (λ b. Numbered (read_scope self.old.scope).names
            (λ n. body_map (number_in n) (body_map (name_in n) (block_of b))) (block_of b)) }
        ensures fits { IfOk result (λ b. Fits (read_scope self.old.scope).names (context_of place.now).thread
            (λ w. block_fits w (block_of b))) }
        ensures shallow { IfOk result (λ b. place.now.level + height (block_of b) ≤ LEVELS) }
        ensures counts { IfOk result (λ b. size (block_of b) + self.old.scope.statements ≤ self.new.scope.statements) }
        ensures err { Fails (read_scope self.old.scope) (block (context_of place.now)) self.old.cursor result }
    {
        self.opening_brace(place)?;
        let within = place.inner();
        let mut statements = Vec::new(self.alloc);
        'statements: loop {
            match self.cursor.peek() {
                Some(Token::CloseBrace) => {
                    self.cursor.advance();
                    return Ok(Block::new(statements));
                }
                _ => {
                    let statement = self.statement(&within)?;
                    statements.push(statement)?;
                }
            }
        }
    }
}
