//! A log's file, which is read and written by blocks.
ghost use Rattle.std.specs.Prelude.{◌≡◌, ◌≤◌, ◌<◌, ◌-◌, ◌+◌, length, take, drop, vec_len, IsTrue, IfOk, OnOk};

use std::alloc::{AllocError, Global};
use std::fs::File;
use std::io;
use std::os::unix::fs::FileExt;

/// How many bytes a file of a log has at most.
pub const LENGTH_LIMIT: u64 = 1 << 30;

// The size of a block, in bytes.
const BLOCK: usize = 65_536;

// How many blocks of zeros are written behind the end at most, and their bytes. At first, and after a cut, it is one block, then twice as
// many each time.
const BLOCKS_AHEAD: u64 = 16;

const BLOCK_BYTES: u64 = BLOCK as u64;

const AHEAD: u64 = BLOCKS_AHEAD * BLOCK_BYTES;

// The bytes of a log's mark and of the gate behind it. Behind fewer, zeros would stand where these are looked for.
const HEAD: u64 = 9;

// Reads some bytes of the file from the offset on, of so many that are left. A read that a signal ended is made again.
fn read_file(file: &File, into: &mut [u8], offset: u64, rest: u64) -> io::Result<usize>
    ensures { IfOk result (λ n. n ≤ length into.new) }
{
    let size = rest.min(into.len() as u64) as usize;
    for _ in 0..u64::MAX {
        match file.read_at(&mut into[..size], offset) {
            Err(error) if error.kind() == io::ErrorKind::Interrupted => {}
            ended => return ended,
        }
    }
    Err(io::ErrorKind::Interrupted.into())
}

/// A file with a block of its bytes in memory: `held` bytes from the offset `start` on, of which the file has the first `given`.
/// The others were written, and the file gets them before each read of the file itself, before a cut and a sync, before bytes
/// that do not stand right behind them or have no room in the block are written, and when this object is let go. Where it does
/// not take them, that call fails, and they are handed to it again at the next one.
///
/// The bytes end at `end`. Behind them the file may have zeros up to `room`, which were written ahead, so that a write there lands on
/// bytes that the file has already: a sync of it waits for no change of the file's length and blocks. Where the file took no zeros
/// there are none up to `room`, and what is written makes the file longer. The next ones are `ahead` many. `is_synced` says that
/// nothing was written or cut since a sync.
pub struct LogFile {
    file: File,
    block: Vec<u8>,
    start: u64,
    held: usize,
    given: usize,
    end: u64,
    room: u64,
    ahead: u64,
    is_synced: bool,
    ghost size: { vec_len block ≡ 65536 },
    ghost within: { held ≤ 65536 },
    ghost order: { given ≤ held },
    ghost synced: { IsTrue is_synced → given ≡ held },
}

impl LogFile {
    /// A file of so many bytes, and nothing of it is in memory. It fails where there is no memory for a block.
    pub fn new(alloc: Global, file: File, size: u64) -> Result<LogFile, AllocError> {
        let block = vec![in alloc; 0; BLOCK]?;
        Ok(LogFile {
            file,
            block,
            start: 0,
            held: 0,
            given: 0,
            end: size,
            room: size,
            ahead: BLOCK_BYTES,
            is_synced: false,
        })
    }

    // Hands the bytes to the file that it does not have yet.
    fn hand_over(&self) -> io::Result<()> {
        if self.given == self.held {
            return Ok(());
        }
        let Some(offset) = self.start.checked_add(self.given as u64) else {
            return Err(io::ErrorKind::InvalidInput.into());
        };
        self.file
            .write_all_at(&self.block[self.given..self.held], offset)
    }

    // After it, the file has all bytes of the block.
    fn flush(&mut self) -> io::Result<()>
        ensures { OnOk result (self.new.given ≡ self.new.held) }
    {
        self.hand_over()?;
        self.given = self.held;
        Ok(())
    }

    // Lets the block go, of which the file has all bytes.
    fn forget(&mut self)
        requires { self.old.given ≡ self.old.held }
        ensures { self.new.held ≡ 0 }
    {
        self.held = 0;
        self.given = 0;
    }

    // Reads bytes of the block from an offset on, as far as they are there.
    fn read_block(&self, offset: u64, into: &mut [u8]) -> usize
        ensures { result ≤ length into.new }
    {
        match offset.checked_sub(self.start) {
            Some(skip) => {
                if skip >= self.held as u64 {
                    return 0;
                }
                let bytes = &self.block[skip as usize..self.held];
                let count = bytes.len().min(into.len());
                into[..count].copy_from_slice(&bytes[..count]);
                count
            }
            None => 0,
        }
    }

    // Writes bytes behind those of the block.
    fn put(&mut self, bytes: &[u8])
        requires { self.old.held + length bytes.now ≤ 65536 }
        ensures { self.new.held ≡ self.old.held + length bytes.now }
    {
        let end = self.held + bytes.len();
        self.is_synced = false;
        self.block[self.held..end].copy_from_slice(bytes);
        self.held = end;
    }

    // Writes zeros from the end on up to an offset.
    fn write_zeros(&mut self, room: u64) -> io::Result<()>
        requires { self.old.given ≡ self.old.held }
    {
        self.forget();
        self.block.fill(0);
        let mut at = self.end;
        for _ in 0..BLOCKS_AHEAD {
            let count = room.saturating_sub(at).min(BLOCK_BYTES);
            self.file.write_all_at(&self.block[..count as usize], at)?;
            at = at.saturating_add(count);
        }
        Ok(())
    }

    // Sees to it that a write up to an offset lands on zeros that are durable: where it would pass those that are there, more are written
    // from the end on. It does so only where what stands before them is durable and more than a log's beginning, and not for a write
    // that is longer than they may be. Zeros that the file does not take are left out, since the write itself may fit; but where their
    // sync fails, so does this.
    fn write_ahead(&mut self, end: u64) -> io::Result<()> {
        let length = end.saturating_sub(self.end);
        if !self.is_synced || self.end < HEAD || end <= self.room || length >= AHEAD {
            return Ok(());
        }
        let ahead = self.ahead.max((length / BLOCK_BYTES + 1) * BLOCK_BYTES);
        // So far none are tried again, whether these are written or not.
        self.room = self.end.saturating_add(ahead).min(LENGTH_LIMIT);
        self.ahead = ahead.saturating_mul(2).min(AHEAD);
        if self.write_zeros(self.room).is_err() {
            let _ = self.file.set_len(self.end);
            return Ok(());
        }
        self.file.sync_data()
    }

    /// How many bytes there are, without the zeros behind them.
    pub fn length(&self) -> u64 {
        self.end
    }

    /// Reads some bytes from the offset on into the front of the buffer, and answers how many: none where there are none or the
    /// buffer has no room.
    pub fn read(&mut self, offset: u64, into: &mut [u8]) -> io::Result<usize>
        ensures { IfOk result (λ n. n ≤ length into.new) }
    {
        let count = self.read_block(offset, into);
        if count > 0 || into.is_empty() {
            return Ok(count);
        }
        self.flush()?;
        let rest = self.end.saturating_sub(offset);
        if into.len() >= BLOCK {
            return read_file(&self.file, into, offset, rest);
        }
        self.forget();
        let count = read_file(&self.file, &mut self.block, offset, rest)?;
        self.start = offset;
        self.held = count;
        self.given = count;
        Ok(self.read_block(offset, into))
    }

    /// Writes over what is there, and past the end.
    pub fn write_at(&mut self, offset: u64, bytes: &[u8]) -> io::Result<()> {
        let end = offset.saturating_add(bytes.len() as u64);
        self.write_ahead(end)?;
        self.end = self.end.max(end);
        let is_next = offset.checked_sub(self.start) == Some(self.held as u64);
        if is_next && bytes.len() <= BLOCK - self.held {
            self.put(bytes);
            return Ok(());
        }
        self.flush()?;
        self.forget();
        if bytes.len() >= BLOCK {
            self.is_synced = false;
            return self.file.write_all_at(bytes, offset);
        }
        self.start = offset;
        self.put(bytes);
        Ok(())
    }

    /// Cuts the bytes off that stand behind the first so many, and the zeros behind them.
    pub fn cut(&mut self, size: u64) -> io::Result<()> {
        self.flush()?;
        self.forget();
        self.is_synced = false;
        self.end = size;
        self.room = size;
        self.ahead = BLOCK_BYTES;
        self.file.set_len(size)
    }

    /// Hands all bytes to the file, and makes it durable.
    pub fn sync(&mut self) -> io::Result<()> {
        self.flush()?;
        self.is_synced = false;
        self.file.sync_data()?;
        self.is_synced = true;
        Ok(())
    }
}

impl Drop for LogFile {
    fn drop(self) {
        let _ = self.hand_over();
        let LogFile {
            file: _,
            block: _,
            start: _,
            held: _,
            given: _,
            end: _,
            room: _,
            ahead: _,
            is_synced: _,
        } = self;
    }
}
