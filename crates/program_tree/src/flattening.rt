//! The flat code of a block, made from the block's tree.
ghost use Rattle.std.specs.Prelude.{◌≡◌, ◌+◌, ◌<◌, ◌^◌, length, IfOk, OnOk, option_map};
ghost use Rattle.program_tree.specs.Meaning.{block_of, statement_of, otherwise_of};
ghost use Rattle.program_tree.specs.Tree.{size, statement_size, other_size};
ghost use Rattle.program_tree.specs.Flat.{IsFlat};
ghost use Rattle.program_tree.specs.Emits.{Emits, EmitsStatement, EmitsOther, entry_of, other_entry_of};

use crate::instruction::{END, Instruction};
use crate::tree::{Block, Stmt};
use std::alloc::{AllocError, Global};

/// The number of statements in a block, including those of inner blocks.
#[cycle(count)]
fn count(block: &Block) -> u16
    requires size_bounded { size (block_of block.now) < 2 ^ 16 }
    ensures size { result ≡ size (block_of block.now) }
{
    let mut total = 0;
    for i in 0..block.statements.len() {
        total += count_statement(&block.statements[i]);
    }
    total
}

/// The number of statements in the `else` block of an `if`, or 0 if there is none.
#[cycle(count)]
fn count_other(other: &Option<Block>) -> u16
    requires size_bounded { other_size (otherwise_of (option_map block_of other.now)) < 2 ^ 16 }
    ensures size { result ≡ other_size (otherwise_of (option_map block_of other.now)) }
{
    match other {
        None => 0,
        Some(block) => count(block),
    }
}

/// The number of statements in a statement: itself and the statements of its blocks.
#[cycle(count)]
fn count_statement(statement: &Stmt) -> u16
    requires size_bounded { statement_size (statement_of statement.now) < 2 ^ 16 }
    ensures size { result ≡ statement_size (statement_of statement.now) }
{
    match statement {
        Stmt::Do(_) => 1,
        Stmt::If(_, then, other) => 1 + count(then) + count_other(other),
        Stmt::While(_, body) => 1 + count(body),
    }
}

/// The place at which a thread enters a block: the place of its first statement, or `after` if it has no statements.
fn entry(block: &Block, place: u16, after: u16) -> u16
    ensures value { result ≡ entry_of (block_of block.now) place after }
{
    if block.statements.is_empty() {
        after
    } else {
        place
    }
}

/// The place at which a thread enters the `else` block of an `if`, or `after` if there is none.
fn other_entry(other: &Option<Block>, place: u16, after: u16) -> u16
    ensures value { result ≡ other_entry_of (otherwise_of (option_map block_of other.now)) place after }
{
    match other {
        None => after,
        Some(block) => entry(block, place, after),
    }
}

/// Adds the statements of a block. After them, a thread continues at `after`.
#[cycle(flatten)]
fn add_block(
    block: &Block,
    after: u16,
    code: &mut Vec<Instruction>,
    alloc: Global,
) -> Result<(), AllocError>
    requires size_bounded { length code.old.items + size (block_of block.now) < 2 ^ 16 }
    ensures emits { OnOk result (Emits (block_of block.now) after code.old.items code.new.items) }
{
    let statements = block.statements.len();
    for i in 0..statements {
        let statement = &block.statements[i];
        let next = if i + 1 < statements {
            code.len() as u16 + count_statement(statement)
        } else {
            after
        };
        add_statement(statement, next, code, alloc)?;
    }
    Ok(())
}

/// Adds the `else` block of an `if`.
#[cycle(flatten)]
fn add_other(
    other: &Option<Block>,
    after: u16,
    code: &mut Vec<Instruction>,
    alloc: Global,
) -> Result<(), AllocError>
    requires size_bounded { length code.old.items + other_size (otherwise_of (option_map block_of other.now)) < 2 ^ 16 }
    ensures emits_other { OnOk result (EmitsOther
        (otherwise_of (option_map block_of other.now)) after code.old.items code.new.items) }
{
    match other {
        None => Ok(()),
        Some(block) => add_block(block, after, code, alloc),
    }
}

/// Adds a statement with its blocks.
#[cycle(flatten)]
fn add_statement(
    statement: &Stmt,
    after: u16,
    code: &mut Vec<Instruction>,
    alloc: Global,
) -> Result<(), AllocError>
    requires size_bounded { length code.old.items + statement_size (statement_of statement.now) < 2 ^ 16 }
    ensures emits_statement { OnOk result (EmitsStatement
        (statement_of statement.now) after code.old.items code.new.items) }
{
    let place = code.len() as u16;
    match statement {
        Stmt::Do(action) => {
            code.push(Instruction::of_action(alloc, action, after)?)?;
            Ok(())
        }
        Stmt::If(test, then, other) => {
            let holds = entry(then, place + 1, after);
            let fails = other_entry(other, place + 1 + count(then), after);
            code.push(Instruction::of_test(alloc, test, holds, fails)?)?;
            add_block(then, after, code, alloc)?;
            add_other(other, after, code, alloc)
        }
        Stmt::While(test, body) => {
            let holds = entry(body, place + 1, place);
            code.push(Instruction::of_test(alloc, test, holds, after)?)?;
            add_block(body, place, code, alloc)
        }
    }
}

/// The flat code of a block. A thread enters it at place 0.
///
/// # Errors
/// `AllocError` if an allocation fails.
pub fn flatten(alloc: Global, block: &Block) -> Result<Vec<Instruction>, AllocError>
    requires size_bounded { size (block_of block.now) < 2 ^ 16 }
    ensures is_flat { IfOk result (λ code. IsFlat (block_of block.now) code.items) }
{
    let mut code = Vec::new(alloc);
    add_block(block, END, &mut code, alloc)?;
    Ok(code)
}
