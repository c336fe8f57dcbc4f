//! Unreading, which is the reverse of reading, for declarations, codes and whole programs.
ghost use Rattle.std.specs.Prelude.{◌≡◌, ◌++◌, [], length, map, IfOk, OnOk, slice_index_or, option_map};
ghost use Rattle.std.specs.List.{flat_map, zip};
ghost use Rattle.program_tree.specs.Program.{code_of, tree_of};
ghost use Rattle.program_tree.specs.ShapeOf.{block_with, code_with, codes_of_tree};
ghost use Rattle.mote_program.specs.Spelled.{names_in, block_tokens, listed_tokens, valued_tokens, named_tokens};
ghost use Rattle.mote_program.specs.Spelled.{handler_tokens, declared_tokens, runs_tokens, code_tokens};
ghost use Rattle.mote_program.specs.Spelled.{process_tokens, autostart_tokens, receiver_tokens, head_tokens};
ghost use Rattle.mote_program.specs.Spelled.{spelled_tokens};
ghost use Rattle.program_tree.specs.TokenMeaning.{token_of};
ghost use Rattle.program_tree.specs.FlatBlock.{tree_in};

use crate::unparse::{Scoped, add, add_all, name_at};
use program_tree::flat_block::FlatBlock;
use program_tree::keyword::Keyword;
use program_tree::names::Names;
use program_tree::program::Program;
use program_tree::token::Token;
use std::alloc::{AllocError, Global};

/// Adds declarations that consist only of names.
fn listed<'a>(
    keyword: Keyword,
    names: &'a Names,
    out: &mut Vec<Token<'a>>,
) -> Result<(), AllocError>
    ensures appended { OnOk result (map token_of out.new.items
        ≡ map token_of out.old.items ++ flat_map (listed_tokens keyword)
        names.now) }
{
    for place in 0..names.len() {
        let name = Token::Name(names.get(place));
        add_all(out, &[Token::Keyword(keyword), name, Token::Semicolon])?;
    }
    Ok(())
}

/// Adds declarations of names with their first values.
fn valued<'a>(
    keyword: Keyword,
    names: &'a Names,
    values: &[u16],
    out: &mut Vec<Token<'a>>,
) -> Result<(), AllocError>
    requires same_length { length values.now ≡ length names.now }
    ensures appended { OnOk result (map token_of out.new.items
        ≡ map token_of out.old.items ++ flat_map (valued_tokens keyword)
        (zip names.now values.now)) }
{
    for place in 0..names.len() {
        let name = Token::Name(names.get(place));
        let value = Token::Number(u32::from(values[place]));
        add_all(
            out,
            &[
                Token::Keyword(keyword),
                name,
                Token::Equals,
                value,
                Token::Semicolon,
            ],
        )?;
    }
    Ok(())
}

impl<'a> Scoped<'a> {
    /// Adds a block of the process.
    fn flat_block(&self, block: &FlatBlock, out: &mut Vec<Token<'a>>) -> Result<(), AllocError>
        ensures appended { OnOk result (map token_of out.new.items ≡ map token_of out.old.items
            ++ block_tokens (block_with (names_in self.now) (tree_in block.now))) }
    {
        self.block(block.block(), out)
    }

    /// Adds declarations of names with their blocks.
    fn blocks(
        &self,
        keyword: Keyword,
        names: &'a Names,
        blocks: &[FlatBlock],
        out: &mut Vec<Token<'a>>,
    ) -> Result<(), AllocError>
        requires same_length { length blocks.now ≡ length names.now }
        ensures appended { OnOk result (map token_of out.new.items ≡ map token_of out.old.items
            ++ flat_map (named_tokens keyword) (zip names.now
            (map (block_with (names_in self.now)) (map tree_in blocks.now)))) }
    {
        for place in 0..names.len() {
            let name = Token::Name(names.get(place));
            add_all(out, &[Token::Keyword(keyword), name])?;
            self.flat_block(&blocks[place], out)?;
        }
        Ok(())
    }

    /// Adds the block of `onpoll` or `onexit`, if there is one.
    fn handler(
        &self,
        keyword: Keyword,
        block: &Option<FlatBlock>,
        out: &mut Vec<Token<'a>>,
    ) -> Result<(), AllocError>
        ensures appended { OnOk result (map token_of out.new.items ≡ map token_of out.old.items
            ++ handler_tokens keyword (option_map (block_with (names_in self.now)) (option_map tree_in block.now))) }
    {
        match block {
            None => Ok(()),
            Some(block) => {
                add(out, Token::Keyword(keyword))?;
                self.flat_block(block, out)
            }
        }
    }

    /// Adds the declarations of the code.
    fn declared(&self, out: &mut Vec<Token<'a>>) -> Result<(), AllocError>
        ensures appended { OnOk result (map token_of out.new.items ≡ map token_of out.old.items
            ++ declared_tokens (code_with (names_in self.now) (code_of self.now.code.now))) }
    {
        let code = self.code;
        valued(Keyword::Var, &code.variables, &code.starts, out)?;
        listed(Keyword::Etimer, &code.etimers, out)?;
        self.blocks(Keyword::Ctimer, &code.ctimers, &code.callbacks, out)?;
        self.blocks(Keyword::Thread, &code.threads, &code.thread_blocks, out)
    }

    /// Adds the blocks that the process runs, and the last brace.
    fn runs(&self, out: &mut Vec<Token<'a>>) -> Result<(), AllocError>
        ensures appended { OnOk result (map token_of out.new.items ≡ map token_of out.old.items
            ++ runs_tokens (code_with (names_in self.now) (code_of self.now.code.now))) }
    {
        let code = self.code;
        self.handler(Keyword::OnPoll, &code.on_poll, out)?;
        self.handler(Keyword::OnExit, &code.on_exit, out)?;
        add(out, Token::Keyword(Keyword::Body))?;
        self.flat_block(&code.body, out)?;
        add(out, Token::CloseBrace)
    }

    /// Adds the code. `name` is the name of its process.
    fn code(&self, name: &'a str, out: &mut Vec<Token<'a>>) -> Result<(), AllocError>
        ensures appended { OnOk result (map token_of out.new.items ≡ map token_of out.old.items
            ++ code_tokens (name.now, code_with (names_in self.now) (code_of self.now.code.now))) }
    {
        add_all(
            out,
            &[
                Token::Keyword(Keyword::Code),
                Token::Name(name),
                Token::OpenBrace,
            ],
        )?;
        self.declared(out)?;
        self.runs(out)
    }
}

/// Adds the codes of all processes.
fn codes<'a>(program: &'a Program, out: &mut Vec<Token<'a>>) -> Result<(), AllocError>
    ensures appended { OnOk result (map token_of out.new.items ≡ map token_of out.old.items
        ++ flat_map code_tokens (codes_of_tree (tree_of program.now))) }
{
    for place in 0..program.codes.len() {
        let scoped = Scoped {
            program,
            code: &program.codes[place],
        };
        scoped.code(program.processes.get(place), out)?;
    }
    Ok(())
}

/// Adds the process line.
fn processes<'a>(names: &'a Names, out: &mut Vec<Token<'a>>) -> Result<(), AllocError>
    ensures appended { OnOk result (map token_of out.new.items
        ≡ map token_of out.old.items ++ process_tokens names.now) }
{
    let first = Token::Name(name_at(names, 0));
    add_all(out, &[Token::Keyword(Keyword::Process), first])?;
    for place in 1..names.len() {
        let name = Token::Name(names.get(place));
        add_all(out, &[Token::Comma, name])?;
    }
    add(out, Token::Semicolon)
}

/// Adds the processes that start at boot, if there are any.
fn autostart<'a>(
    names: &'a Names,
    numbers: &[u8],
    out: &mut Vec<Token<'a>>,
) -> Result<(), AllocError>
    ensures appended { OnOk result (map token_of out.new.items ≡ map token_of out.old.items
        ++ autostart_tokens (map (λ i. slice_index_or names.now i []) numbers.now)) }
{
    let [first, others @ ..] = numbers else {
        return Ok(());
    };
    let first = Token::Name(name_at(names, usize::from(*first)));
    add_all(out, &[Token::Keyword(Keyword::Autostart), first])?;
    for number in others {
        let name = Token::Name(name_at(names, usize::from(*number)));
        add_all(out, &[Token::Comma, name])?;
    }
    add(out, Token::Semicolon)
}

/// Adds the process that gets packets, if there is one.
fn receiver<'a>(
    names: &'a Names,
    receiver: Option<u8>,
    out: &mut Vec<Token<'a>>,
) -> Result<(), AllocError>
    ensures appended { OnOk result (map token_of out.new.items ≡ map token_of out.old.items
        ++ receiver_tokens (option_map (λ i. slice_index_or names.now i []) receiver)) }
{
    let Some(process) = receiver else {
        return Ok(());
    };
    let name = Token::Name(name_at(names, usize::from(process)));
    add_all(
        out,
        &[Token::Keyword(Keyword::Receiver), name, Token::Semicolon],
    )
}

/// Adds the declarations of the program.
fn head<'a>(program: &'a Program, out: &mut Vec<Token<'a>>) -> Result<(), AllocError>
    ensures appended { OnOk result (let t = tree_of program.now in map token_of out.new.items
        ≡ map token_of out.old.items ++
        head_tokens t.events (zip t.semaphores t.counts) t.processes
        (map (λ i. slice_index_or t.processes i []) t.autostart)
        (option_map (λ i. slice_index_or t.processes i []) t.receiver)) }
{
    listed(Keyword::Event, &program.events, out)?;
    valued(
        Keyword::Semaphore,
        &program.semaphores,
        &program.counts,
        out,
    )?;
    processes(&program.processes, out)?;
    autostart(&program.processes, &program.autostart, out)?;
    receiver(&program.processes, program.receiver, out)
}

/// The tokens of a program.
pub(crate) fn unparse<'a>(alloc: Global, program: &'a Program) -> Result<Vec<Token<'a>>, AllocError>
    ensures tokens { IfOk result (λ ts. map token_of ts.items ≡ spelled_tokens (tree_of program.now)) }
{
    let mut out = Vec::new(alloc);
    head(program, &mut out)?;
    codes(program, &mut out)?;
    Ok(out)
}
