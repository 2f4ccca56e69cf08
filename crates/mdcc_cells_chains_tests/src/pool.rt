//! Bytes put, read and freed.
use mdcc_base::Memory;
use mdcc_pool::{CellPool, Cursor, PoolFull, Ticket};
use std::alloc::{AllocError, Global};
use std::test::Fail;

// The bytes 0, 1, 2 and so on.
fn ascending(alloc: Global, len: u8) -> Result<Vec<u8>, AllocError> {
    let mut bytes = Vec::with_capacity(alloc, len as usize)?;
    for byte in 0..len {
        bytes.push(byte)?;
    }
    Ok(bytes)
}

// Whether a reading with room for 50 gives so many bytes, and this one first.
fn gives(pool: &CellPool, ticket: &Ticket, offset: usize, count: usize, first: u8) -> bool {
    let mut into = [255u8; 50];
    pool.holds(ticket)
        && pool.read(ticket, offset, into.as_mut_slice()) == count
        && into[0] == first
}

// Whether the readings of the bytes from 0 to 129 begin and end where they are to.
fn gives_each(pool: &CellPool, ticket: &Ticket) -> bool {
    gives(pool, ticket, 0, 50, 0)
        && gives(pool, ticket, 10, 50, 10)
        && gives(pool, ticket, 59, 50, 59)
        && gives(pool, ticket, 60, 50, 60)
        && gives(pool, ticket, 100, 30, 100)
        && gives(pool, ticket, 129, 1, 129)
        && gives(pool, ticket, 130, 0, 255)
}

// Whether a cursor goes on with so many bytes where there is room for 40, and with this one first.
fn goes_on(cursor: &mut Cursor<'_>, count: usize, first: u8) -> bool {
    let mut into = [255u8; 40];
    cursor.read_on(into.as_mut_slice()) == count && into[0] == first
}

// Whether a cursor skips so many bytes, after which so many are left.
fn skips(cursor: &mut Cursor<'_>, count: usize, left: usize) -> bool {
    cursor.skip(count);
    cursor.left() == left
}

// Whether a cursor at the bytes from 0 to 129 goes on from where it stopped.
fn goes_on_each(cursor: &mut Cursor<'_>) -> bool {
    goes_on(cursor, 40, 0)
        && skips(cursor, 35, 55)
        && goes_on(cursor, 40, 75)
        && goes_on(cursor, 15, 115)
        && goes_on(cursor, 0, 255)
        && skips(cursor, 1, 0)
}

#[test]
fn bytes_are_read_from_each_offset(rt: HostRuntime) -> Result<(), Fail> {
    let mut pool = CellPool::new(rt.alloc(), 3)?;
    let bytes = ascending(rt.alloc(), 130)?;
    let ticket = pool.put(bytes.as_slice())?;
    assert!(rt; gives_each(&pool, &ticket));
    let mut cursor = pool.start(&ticket);
    assert!(rt; goes_on_each(&mut cursor));
    Ok(())
}

// Puts so many bytes of one value: their ticket, where there is room.
fn put_equal(
    alloc: Global,
    pool: &mut CellPool,
    value: u8,
    len: usize,
) -> Result<Option<Ticket>, AllocError> {
    let bytes = Vec::from_elem(alloc, value, len)?;
    Ok(pool.put(bytes.as_slice()).ok())
}

// Whether so many bytes of one value are read.
fn are_equal(pool: &CellPool, ticket: &Ticket, value: u8, len: usize) -> bool {
    let mut into = [255u8; 300];
    pool.holds(ticket)
        && pool.read(ticket, 0, into.as_mut_slice()) == len
        && into.iter().take(len).all(|it| *it == value)
}

// Frees what is held under a ticket.
fn frees(pool: &mut CellPool, ticket: Ticket) -> bool {
    if pool.holds(&ticket) {
        pool.free(ticket);
    }
    !pool.holds(&ticket)
}

// Whether a pool of five cells that held one cell and so many bytes, and then the bytes alone, which take so many cells,
// finds all its spare cells, the freed one among them, and not one more.
fn uses_again(alloc: Global, len: usize, cells: u32) -> Result<bool, Memory> {
    let mut pool = CellPool::new(alloc, 5)?;
    let first = put_equal(alloc, &mut pool, 6, 60)?.unwrap_or(Ticket { first: 4 });
    let second = put_equal(alloc, &mut pool, 7, len)?.unwrap_or(Ticket { first: 4 });
    let size = 60 * 5u32.saturating_sub(cells) as usize;
    let is_free = pool.spare() == 4u32.saturating_sub(cells) && frees(&mut pool, first);
    let is_full = put_equal(alloc, &mut pool, 8, size + 1)?.is_none();
    let third = put_equal(alloc, &mut pool, 8, size)?.unwrap_or(Ticket { first: 4 });
    let is_used = pool.spare() == 0 && put_equal(alloc, &mut pool, 9, 0)?.is_none();
    Ok(
        is_free
            && is_full
            && is_used
            && are_equal(&pool, &second, 7, len)
            && are_equal(&pool, &third, 8, size),
    )
}

#[test]
fn cells_are_used_again(rt: HostRuntime) -> Result<(), Fail> {
    assert!(rt; uses_again(rt.alloc(), 0, 1)?);
    assert!(rt; uses_again(rt.alloc(), 1, 1)?);
    assert!(rt; uses_again(rt.alloc(), 59, 1)?);
    assert!(rt; uses_again(rt.alloc(), 60, 1)?);
    assert!(rt; uses_again(rt.alloc(), 61, 2)?);
    assert!(rt; uses_again(rt.alloc(), 120, 2)?);
    assert!(rt; uses_again(rt.alloc(), 121, 3)?);
    Ok(())
}

#[test]
fn a_pool_without_cells_holds_nothing(rt: HostRuntime) -> Result<(), Fail> {
    let mut pool = CellPool::new(rt.alloc(), 0)?;
    assert!(rt; pool.size() == 0 && pool.spare() == 0);
    assert!(rt; pool.put(b"".as_slice()) == Err(PoolFull));
    Ok(())
}

#[test]
fn a_cleared_pool_has_all_its_cells(rt: HostRuntime) -> Result<(), Fail> {
    let alloc = rt.alloc();
    let mut pool = CellPool::new(alloc, 3)?;
    let first = put_equal(alloc, &mut pool, 6, 61)?.unwrap_or(Ticket { first: 4 });
    assert!(rt; pool.spare() == 1 && pool.holds(&first));
    pool.clear();
    assert!(rt; pool.spare() == 3 && !pool.holds(&first));
    let again = put_equal(alloc, &mut pool, 7, 180)?.unwrap_or(Ticket { first: 4 });
    assert!(rt; pool.spare() == 0 && are_equal(&pool, &again, 7, 180));
    Ok(())
}
