//! Chains of cells, and the bytes along them.
ghost use Rattle.std.specs.Prelude.{◌≡◌, ◌≤◌, ◌<◌, ◌+◌, ◌*◌, ◌++◌, ◌^◌, length, take, drop, ℕ};
ghost use Rattle.mdcc_pool.specs.Chains.{step, text, chain_written, AreWhole};
ghost use Rattle.mdcc_pool.specs.Sizes.{cells_for};

use crate::cells::{WIDTH, cells_for};
use crate::region::Region;

/// The cell that is so many steps after another one.
#[tactic(auto, using(crate::proofs::Chains::step_next))]
pub(crate) fn step(cells: &Region, first: u32, steps: usize) -> u32
    requires { (j : ℕ) → j < steps → step cells.now j first < length cells.now }
    ensures { result ≡ step cells.now steps first }
{
    let mut at = first;
    for _i in 0..steps {
        at = cells.cell(at).next;
    }
    at
}

/// Writes bytes into the cells of a chain, and gives the cell after them.
#[tactic(auto, using(crate::proofs::Chains::step_next))]
pub(crate) fn write(cells: &mut Region, first: u32, bytes: &[u8]) -> u32
    requires { (j : ℕ) → j < cells_for (length bytes.now) → step cells.old j first < length cells.old }
    ensures cells { cells.new ≡ chain_written cells.old bytes.now (cells_for (length bytes.now)) first }
    ensures after { result ≡ step cells.old (cells_for (length bytes.now)) first }
{
    let mut at = first;
    let mut rest = bytes;
    for _i in 0..cells_for(bytes.len()) {
        let (piece, more) = rest.split_at(rest.len().min(WIDTH));
        at = cells.fill(at, piece);
        rest = more;
    }
    at
}

/// Copies bytes of a chain from an offset on.
pub(crate) fn copy(cells: &Region, first: u32, offset: usize, count: usize, into: &mut [u8])
    requires whole { AreWhole cells.now }
    requires within { (j : ℕ) → 60 * j < offset + count → step cells.now j first < length cells.now }
    requires fits { count ≤ length into.old }
    requires small { offset + count < 2 ^ 40 }
    ensures { (n : ℕ) → offset + count ≤ 60 * n → into.new ≡ take count (drop offset (text cells.now n first)) ++ drop count into.old }
{
    let mut at = step(cells, first, offset / WIDTH);
    let mut done = 0usize;
    while done < count {
        let within = (offset + done) % WIDTH;
        let size = (WIDTH - within).min(count - done);
        let cell = cells.cell(at);
        into[done..done + size].copy_from_slice(&cell.bytes[within..within + size]);
        if within + size == WIDTH {
            at = cell.next;
        }
        done += size;
    }
}
