//! Cells, and how many of them bytes take.
ghost use Rattle.std.specs.Prelude.{◌≡◌, ◌≤◌, ◌<◌, ◌+◌, ◌^◌, length, ℕ};
ghost use Rattle.mdcc_pool.specs.Chains.{padded, unused};
ghost use Rattle.mdcc_pool.specs.Sizes.{cells_for};

/// How many bytes a cell has.
pub(crate) const WIDTH: usize = 60;

/// Bytes, and the index of the cell with those that follow.
#[derive(Clone, Copy)]
pub(crate) struct Cell {
    pub next: u32,
    pub bytes: [u8; 60],
}

/// A cell as it is before its first use: it leads to the one after it.
pub(crate) fn unused(at: u32) -> Cell
    requires { at + 1 < 2 ^ 32 }
    ensures { result ≡ unused at }
{
    Cell {
        next: at + 1,
        bytes: [0; 60],
    }
}

/// How many cells so many bytes take: at least one.
pub(crate) fn cells_for(len: usize) -> usize
    ensures { result ≡ cells_for len }
{
    len.div_ceil(WIDTH).max(1)
}

/// The bytes, followed by zeros.
pub(crate) fn padded(bytes: &[u8]) -> [u8; 60]
    requires { length bytes.now ≤ 60 }
    ensures { result ≡ padded bytes.now }
{
    let mut all = [0u8; 60];
    all[..bytes.len()].copy_from_slice(bytes);
    all
}
