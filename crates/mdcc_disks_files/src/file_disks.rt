//! Disks over files.
ghost use Rattle.std.specs.Prelude.{◌≡◌, ◌≤◌, ◌<◌, [], length, option_map, replicate, slice_get, IfSome, Some};
ghost use Rattle.std.specs.String.{string_bytes};
ghost use Rattle.mdcc_base.specs.Causes.{Rose};
ghost use Rattle.mdcc_disks_files.specs.Names.{name_of};
ghost use Rattle.mdcc_disks_files.specs.Unspecified.{fault_at, unspecified_disk, Any, AnySince, one_moment, AnyByte, KeepsFaults};

use crate::log_file::{LENGTH_LIMIT, LogFile};
use mdcc_base::Failed;
use mdcc_disks::Disks;
use std::alloc::Global;
use std::fs::{File, Files, OpenOptions};
use std::io;
use std::os::fd::AsRawFd;

#[derive(Drop)]
struct OpenLog {
    place: u8,
    file: LogFile,
}

/// The files of the present folder that have the logs of the centres K, from 1 to 9: disk K is `mdcc-K.log` and disk 16 + K is
/// `mdcc-K.alt`. The first call at a disk opens its file, creates it where it is not there, and takes an exclusive lock of it
/// (flock(2)), which ends with this object or its process. Where another has the lock, a call fails and the file stays as it is.
/// A file of more than 2^30 bytes, which no log has, fails where its length is asked, before anything of it is read. A block of
/// 64 KiB of each open file is in memory. Small writes are handed to the file together, all of them before a sync; one
/// that the file did not take fails the call that handed it over.
/// A write past what the file has is made over zeros, where what stands before it is durable: a mebibyte of them is written and synced
/// first, then the write. They are no bytes of the disk, and a cut takes them off; but where this object or its process ends they stay
/// in the file, and the next one that opens it takes them for its last bytes.
/// What a file contains after a crash is the system's promise alone.
#[derive(Drop)]
pub struct FileDisks<'a, R: Files<File = File>> {
    alloc: Global,
    files: &'a R,
    logs: Vec<OpenLog>,
    faults: [u64; 26],
}

// The name of the file of a disk, where there is such a disk.
fn name_of(alloc: Global, place: u8) -> Option<String>
    ensures { IfSome result (λ name. Some (string_bytes name) ≡ name_of place) }
{
    match place {
        1..=9 => format!(in alloc; "mdcc-{place}.log").ok(),
        17..=25 => {
            let centre = place - 16;
            format!(in alloc; "mdcc-{centre}.alt").ok()
        }
        _ => None,
    }
}

// The same open file under a number above those of the standard streams: where one of these is closed, a new file takes its
// number, and what is printed would go there.
fn above_streams(file: File) -> io::Result<File> {
    if file.as_raw_fd() > 2 {
        return Ok(file);
    }
    file.try_clone()
}

// Opens and locks a file, and creates it where it is not there. The folder is synced at each opening, so that its name is
// durable also where another created the file and died before it had synced the folder.
fn open_locked<R: Files<File = File>>(files: &R, name: &str) -> io::Result<File> {
    let opened = OpenOptions::new()
        .read(true)
        .write(true)
        .create(true)
        .open(files, name)?;
    let file = above_streams(opened)?;
    file.try_lock()?;
    let folder = above_streams(File::open(files, ".")?)?;
    folder.sync_all()?;
    Ok(file)
}

impl<'a, R: Files<File = File>> FileDisks<'a, R> {
    /// No file is open yet.
    pub fn new(alloc: Global, files: &'a R) -> Self
        ensures logs { result.logs.items ≡ [] }
        ensures faults { result.faults ≡ replicate 26 0 }
    {
        FileDisks {
            alloc,
            files,
            logs: Vec::new(alloc),
            faults: [0; 26],
        }
    }

    // Counts a fault. A disk past 25 has no count.
    fn fail(&mut self, place: u8) -> Failed
        ensures rose { Rose (fault_at self.old.faults place) (fault_at self.new.faults place) }
        ensures later { fault_at self.old.faults place ≤ fault_at self.new.faults place }
        ensures others { KeepsFaults place self.old.faults self.new.faults }
    {
        let index = place as usize;
        if index < self.faults.len() {
            self.faults[index] = self.faults[index].saturating_add(1);
        }
        Failed
    }

    // The index of the open file of a disk.
    fn opened(&mut self, place: u8) -> Option<usize>
        ensures faults { self.new.faults ≡ self.old.faults }
        ensures found { IfSome result (λ i. i < length self.new.logs.items) }
        ensures disk { IfSome result (λ i. option_map (λ log. log.place) (slice_get self.new.logs.items i) ≡ Some place) }
    {
        if let Some(index) = self.logs.iter().position(|log| log.place == place) {
            return Some(index);
        }
        let name = name_of(self.alloc, place)?;
        let file = open_locked(self.files, name.as_str()).ok()?;
        let size = file.metadata().ok()?.len();
        let file = LogFile::new(self.alloc, file, size).ok()?;
        self.logs.push(OpenLog { place, file }).ok()?;
        Some(self.logs.len() - 1)
    }
}

impl<'a, R: Files<File = File>> Disks for FileDisks<'a, R> {
    ghost disk = { λ disks. unspecified_disk disks.faults };

    ghost may_leave = { Any };

    ghost tears = { AnyByte };

    ghost moment = { one_moment };

    ghost left_since = { AnySince };

    ghost counts_now = { λ disks p t c _ _. tt };

    ghost only_now = { λ disks p c _. tt };

    ghost as_read = { λ disks p _. tt };

    fn length(&mut self, place: u8) -> Result<u64, Failed> {
        if let Some(index) = self.opened(place) {
            let size = self.logs[index].file.length();
            if size <= LENGTH_LIMIT {
                return Ok(size);
            }
        }
        Err(self.fail(place))
    }

    fn read(&mut self, place: u8, offset: u64, into: &mut [u8]) -> Result<usize, Failed> {
        if let Some(index) = self.opened(place) {
            if let Ok(count) = self.logs[index].file.read(offset, into) {
                // At or past the end there is nothing to read.
                if count > 0 || into.is_empty() {
                    return Ok(count);
                }
            }
        }
        Err(self.fail(place))
    }

    fn write_at(&mut self, place: u8, offset: u64, bytes: &[u8]) -> Result<(), Failed> {
        if let Some(index) = self.opened(place) {
            if self.logs[index].file.write_at(offset, bytes).is_ok() {
                return Ok(());
            }
        }
        Err(self.fail(place))
    }

    fn cut(&mut self, place: u8, size: u64) -> Result<(), Failed> {
        if let Some(index) = self.opened(place) {
            if self.logs[index].file.cut(size).is_ok() {
                return Ok(());
            }
        }
        Err(self.fail(place))
    }

    fn sync(&mut self, place: u8) -> Result<(), Failed> {
        if let Some(index) = self.opened(place) {
            if self.logs[index].file.sync().is_ok() {
                return Ok(());
            }
        }
        Err(self.fail(place))
    }
}
