//! A block of a process, both as a tree and as flat code.
ghost use Rattle.std.specs.Prelude.{◌≡◌, ◌<◌, ◌^◌, IfOk};
ghost use Rattle.program_tree.specs.Meaning.{block_of};
ghost use Rattle.program_tree.specs.Tree.{size};
ghost use Rattle.program_tree.specs.Flat.{IsFlat};
ghost use Rattle.program_tree.specs.Props.{IsFlat-prop};

use crate::flattening::flatten;
use crate::instruction::Instruction;
use crate::tree::Block;
use std::alloc::{AllocError, Global};

/// A block with its flat code. Programs are read and printed as trees; a thread follows the flat code.
#[derive(Drop)]
pub struct FlatBlock {
    block: Block,
    code: Vec<Instruction>,
    ghost flat: { IsFlat (block_of block) code.items } by { IsFlat-prop (block_of block) code.items },
}

impl FlatBlock {
    ghost use Rattle.program_tree.specs.FlatBlock.{tree_in};

    /// Makes the flat code of a block, and returns both together.
    ///
    /// # Errors
    /// `AllocError` if an allocation fails.
    pub fn new(alloc: Global, block: Block) -> Result<FlatBlock, AllocError>
        requires size_bounded { size (block_of block) < 2 ^ 16 }
        ensures tree { IfOk result (λ b. tree_in b ≡ block_of block) }
    {
        let code = flatten(alloc, &block)?;
        Ok(FlatBlock { block, code })
    }

    /// The tree of the block.
    pub fn block(&self) -> &Block
        ensures tree { block_of result.now ≡ tree_in self.now }
    {
        &self.block
    }

    /// The flat code of the block. A thread enters it at place 0.
    pub fn code(&self) -> &[Instruction]
        ensures is_flat { IsFlat (tree_in self.now) result.now }
    {
        &self.code
    }
}
