//! The newest index of each chain.
ghost use Rattle.std.specs.Prelude.{◌≡◌, ◌<◌, ◌≤◌, ◌+◌, ◌*◌, ℕ, IfOk, None, Some, get_or, length, replicate, set, vec_capacity};
ghost use Rattle.mdcc_cells_chains.specs.Heads.{AreBlocks, head_at};

use mdcc_base::Memory;
use std::alloc::Global;
use std::marker::Model;

/// How many chains have their heads in one block.
const BLOCK: usize = 64;

/// The newest index of each of so many chains. A block of heads is written with the first index of
/// one of its chains, so that many empty chains cost little.
#[derive(Drop)]
pub(crate) struct Heads {
    blocks: Vec<Option<u32>>,
    heads: Vec<Option<u32>>,
    count: u32,
}

impl Model for Heads {
    ghost use Rattle.std.specs.Prelude.{◌≤◌, ◌*◌, List, Option, ℕ, length, vec_capacity};
    ghost use Rattle.mdcc_cells_chains.specs.Heads.{AreBlocks, heads_of};

    ghost Value = { List (Option ℕ) };

    ghost view = { λ h. heads_of h.blocks.items h.heads.items h.count };

    ghost invariant = { λ h. AreBlocks h.blocks.items h.heads.items (vec_capacity h.heads) × (h.count ≤ length h.blocks.items * 64) };
}

// So many numbers of blocks, each of them none.
fn no_blocks(alloc: Global, count: u32) -> Result<Vec<Option<u32>>, Memory>
    ensures { IfOk result (λ blocks. blocks.items ≡ replicate count None) }
{
    let mut blocks = Vec::with_capacity(alloc, count as usize)?;
    for _i in 0..count {
        blocks.push(None)?;
    }
    Ok(blocks)
}

// None of the blocks is written any more.
fn clear_blocks(blocks: &mut Vec<Option<u32>>)
    ensures { blocks.new.items ≡ replicate (length blocks.old.items) None }
{
    let count = blocks.len();
    blocks.clear();
    blocks.resize(count, None).unwrap();
}

// The number of a block, which is written where it was not.
fn block_at(blocks: &mut Vec<Option<u32>>, heads: &mut Vec<Option<u32>>, at: usize) -> u32
    requires blocks { AreBlocks blocks.old.items heads.old.items (vec_capacity heads.old) }
    requires within { at < length blocks.old.items }
    ensures number { get_or blocks.new.items at None ≡ Some result }
    ensures blocks { AreBlocks blocks.new.items heads.new.items (vec_capacity heads.new) }
    ensures same { (chain : ℕ) → head_at blocks.new.items heads.new.items chain ≡ head_at blocks.old.items heads.old.items chain }
    ensures long { length blocks.new.items ≡ length blocks.old.items }
{
    match blocks[at] {
        Some(block) => block,
        None => {
            let block = (heads.len() / BLOCK) as u32;
            heads.extend_from_slice(&[None; BLOCK]).unwrap();
            blocks[at] = Some(block);
            block
        }
    }
}

impl Heads {
    /// So many chains, each without an index.
    pub(crate) fn new(alloc: Global, count: u32) -> Result<Heads, Memory>
        ensures { IfOk result (λ heads. heads ≡ replicate count None) }
    {
        let blocks = count / 64 + 1;
        Ok(Heads {
            blocks: no_blocks(alloc, blocks)?,
            heads: Vec::with_capacity(alloc, blocks as usize * BLOCK)?,
            count,
        })
    }

    /// How many chains there are.
    pub(crate) fn count(&self) -> u32
        ensures { result ≡ length self.now }
    {
        self.count
    }

    /// The newest index of a chain.
    pub(crate) fn get(&self, chain: usize) -> Option<u32>
        requires { chain < length self.now }
        ensures { result ≡ get_or self.now chain None }
    {
        match self.blocks[chain / BLOCK] {
            Some(block) => self.heads[block as usize * BLOCK + chain % BLOCK],
            None => None,
        }
    }

    /// Sets the newest index of a chain.
    pub(crate) fn set(&mut self, chain: usize, index: u32)
        requires { chain < length self.old }
        ensures { self.new ≡ set self.old chain (Some index) }
    {
        let block = block_at(&mut self.blocks, &mut self.heads, chain / BLOCK);
        self.heads[block as usize * BLOCK + chain % BLOCK] = Some(index);
    }

    /// No chain has an index any more.
    pub(crate) fn clear(&mut self)
        ensures { self.new ≡ replicate (length self.old) None }
    {
        clear_blocks(&mut self.blocks);
        self.heads.clear();
    }
}
