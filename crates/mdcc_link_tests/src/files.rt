//! The files of a folder as disks.
use mdcc_disks::Disks;
use mdcc_disks_files::FileDisks;
use std::alloc::Global;
use std::test::Fail;

// Sizes below, at and above that of the blocks in which a file is read and written.
const SIZES: [usize; 11] = [1, 65_534, 1, 1, 65_535, 2, 65_536, 3, 65_537, 5, 40_000];

// One object creates a file, locks it, and writes, reads and cuts it; another is refused at each call and leaves it as it is,
// until the first is dropped.
#[test]
fn keeps_bytes_for_one(rt: HostRuntime) -> Result<(), Fail> {
    let mut buffer = [0u8; 4];
    let mut first = FileDisks::new(rt.alloc(), &rt);
    let mut second = FileDisks::new(rt.alloc(), &rt);
    assert_eq!(rt; first.cut(2, 0), Ok(()));
    assert_eq!(rt; first.length(2), Ok(0));
    assert!(rt; first.read(2, 0, &mut buffer).is_err());
    assert_eq!(rt; first.write_at(2, 0, b"abcdef"), Ok(()));
    assert_eq!(rt; first.sync(2), Ok(()));
    assert!(rt; second.length(2).is_err());
    assert!(rt; second.read(2, 0, &mut buffer).is_err());
    assert!(rt; second.write_at(2, 0, b"xyz").is_err());
    assert!(rt; second.cut(2, 0).is_err());
    assert!(rt; second.sync(2).is_err());
    assert_eq!(rt; first.read(2, 2, &mut buffer), Ok(4));
    assert_eq!(rt; buffer, *b"cdef");
    assert_eq!(rt; first.cut(2, 3), Ok(()));
    assert_eq!(rt; first.length(2), Ok(3));
    assert!(rt; first.length(0).is_err());
    assert!(rt; first.length(10).is_err());
    drop(first);
    assert_eq!(rt; second.length(2), Ok(3));
    assert_eq!(rt; second.read(2, 0, &mut buffer), Ok(3));
    assert!(rt; buffer.starts_with(b"abc"));
    assert_eq!(rt; second.cut(2, 0), Ok(()));
    Ok(())
}

// Appends writes of all sizes to a disk, and answers their bytes; none where a write fails.
fn write_all(alloc: Global, disks: &mut FileDisks<'_, HostRuntime>) -> Result<Vec<u8>, Fail> {
    let mut all = Vec::new(alloc);
    for size in SIZES {
        let start = all.len();
        for k in 0..size {
            all.push((k % 251) as u8)?;
        }
        let (_, bytes) = all.as_slice().split_at(start.min(all.len()));
        if disks.write_at(3, start as u64, bytes).is_err() {
            return Ok(Vec::new(alloc));
        }
    }
    Ok(all)
}

// Whether the disk has these bytes and no others, read by as many as the buffer takes.
fn has(disks: &mut FileDisks<'_, HostRuntime>, bytes: &[u8], buffer: &mut [u8]) -> bool {
    let mut rest = bytes;
    let mut offset = 0u64;
    for _ in 0..bytes.len() {
        let Ok(count) = disks.read(3, offset, buffer) else {
            break;
        };
        if count > rest.len() || count > buffer.len() {
            return false;
        }
        let (read, behind) = rest.split_at(count);
        if buffer.split_at(count).0 != read {
            return false;
        }
        rest = behind;
        offset = offset.saturating_add(count as u64);
    }
    rest.is_empty() && disks.length(3) == Ok(bytes.len() as u64)
}

// What was written is read back, before it is synced, and by another object; so is what is written over it and after a cut.
#[test]
fn keeps_writes_of_all_sizes(rt: HostRuntime) -> Result<(), Fail> {
    let alloc = rt.alloc();
    let mut large = vec![in alloc; 0u8; 70_000]?;
    let mut small = [0u8; 1000];
    let mut disks = FileDisks::new(alloc, &rt);
    assert_eq!(rt; disks.cut(3, 0), Ok(()));
    let mut all = write_all(alloc, &mut disks)?;
    assert!(rt; all.len() > 200_000);
    assert!(rt; has(&mut disks, &all, &mut small));
    assert!(rt; has(&mut disks, &all, &mut large));
    assert_eq!(rt; disks.write_at(3, 65_530, b"over a bound"), Ok(()));
    assert_eq!(rt; disks.write_at(3, 7, b"in front"), Ok(()));
    all[65_530..65_542].copy_from_slice(b"over a bound");
    all[7..15].copy_from_slice(b"in front");
    assert_eq!(rt; disks.sync(3), Ok(()));
    drop(disks);

    let mut disks = FileDisks::new(alloc, &rt);
    assert!(rt; has(&mut disks, &all, &mut large));
    assert!(rt; has(&mut disks, &all, &mut small));
    assert_eq!(rt; disks.write_at(3, all.len() as u64, b"to be cut"), Ok(()));
    assert_eq!(rt; disks.cut(3, 131_000), Ok(()));
    all.truncate(131_000);
    assert!(rt; disks.read(3, 131_000, &mut small).is_err());
    assert_eq!(rt; disks.write_at(3, 131_000, b"after it"), Ok(()));
    all.extend_from_slice(b"after it")?;
    drop(disks);

    let mut disks = FileDisks::new(alloc, &rt);
    assert!(rt; has(&mut disks, &all, &mut small));
    assert_eq!(rt; disks.cut(3, 0), Ok(()));
    assert!(rt; disks.read(3, 0, &mut small).is_err());
    Ok(())
}

// How many zeros are written behind the end at first, and at most.
const FIRST: u64 = 1 << 16;

const MOST: u64 = 1 << 20;

// What a disk has that holds this front, durable, and then is given this end: its length, and that of the file, which another object
// finds. None where a call fails.
fn lengths(rt: &HostRuntime, place: u8, front: &[u8], end: &[u8]) -> Option<(u64, u64)> {
    let mut disks = FileDisks::new(rt.alloc(), rt);
    disks.cut(place, 0).ok()?;
    disks.write_at(place, 0, front).ok()?;
    disks.sync(place).ok()?;
    disks.write_at(place, front.len() as u64, end).ok()?;
    let length = disks.length(place).ok()?;
    drop(disks);
    let mut disks = FileDisks::new(rt.alloc(), rt);
    Some((length, disks.length(place).ok()?))
}

// The length of the file of a disk after so many writes of 50,000 bytes, each durable.
fn length_of_file(rt: &HostRuntime, writes: u64, bytes: &[u8]) -> Option<u64> {
    let mut disks = FileDisks::new(rt.alloc(), rt);
    disks.cut(4, 0).ok()?;
    disks.write_at(4, 0, b"123456789").ok()?;
    disks.sync(4).ok()?;
    for number in 0..writes {
        disks
            .write_at(4, number.checked_mul(50_000)?.checked_add(9)?, bytes)
            .ok()?;
        disks.sync(4).ok()?;
    }
    drop(disks);
    let mut disks = FileDisks::new(rt.alloc(), rt);
    disks.length(4).ok()
}

// Zeros are written ahead once as many bytes are durable as a log begins with, and not for a write that is longer than they may be. They
// are no bytes of the disk; another object finds them behind its end, and a cut takes them off.
#[test]
fn writes_zeros_ahead(rt: HostRuntime) -> Result<(), Fail> {
    let large = vec![in rt.alloc(); 7u8; 1_048_577]?;
    let mut buffer = vec![in rt.alloc(); 1u8; 1_048_576]?;
    assert_eq!(rt; lengths(&rt, 4, b"12345678", b"end"), Some((11, 11)));
    assert_eq!(rt;
        lengths(&rt, 4, b"123456789", &large),
        Some((1_048_586, 1_048_586))
    );
    assert_eq!(rt;
        lengths(&rt, 4, b"123456789", b"end"),
        Some((12, 9 + FIRST))
    );
    let mut disks = FileDisks::new(rt.alloc(), &rt);
    assert_eq!(rt; disks.read(4, 12, &mut buffer), Ok(65_533));
    let (zeros, _) = buffer.as_slice().split_at(buffer.len().min(65_533));
    assert!(rt; zeros.iter().all(|byte| *byte == 0));
    assert_eq!(rt; disks.cut(4, 12), Ok(()));
    drop(disks);
    let mut disks = FileDisks::new(rt.alloc(), &rt);
    assert_eq!(rt; disks.length(4), Ok(12));
    assert_eq!(rt; disks.read(4, 9, &mut buffer), Ok(3));
    assert!(rt; buffer.starts_with(b"end"));
    assert_eq!(rt; disks.cut(4, 0), Ok(()));
    Ok(())
}

// They are twice as many each time, up to a mebibyte, from the end of the bytes on: written at 9, at 50,009, 150,009, 400,009, 900,009 and
// 1,900,009 bytes.
#[test]
fn writes_more_zeros_each_time(rt: HostRuntime) -> Result<(), Fail> {
    let buffer = vec![in rt.alloc(); 7u8; 50_000]?;
    assert_eq!(rt; length_of_file(&rt, 1, &buffer), Some(9 + FIRST));
    assert_eq!(rt; length_of_file(&rt, 3, &buffer), Some(50_009 + 2 * FIRST));
    assert_eq!(rt; length_of_file(&rt, 4, &buffer), Some(150_009 + 4 * FIRST));
    assert_eq!(rt; length_of_file(&rt, 9, &buffer), Some(400_009 + 8 * FIRST));
    assert_eq!(rt; length_of_file(&rt, 19, &buffer), Some(900_009 + MOST));
    assert_eq!(rt; length_of_file(&rt, 38, &buffer), Some(900_009 + MOST));
    assert_eq!(rt; length_of_file(&rt, 39, &buffer), Some(1_900_009 + MOST));
    Ok(())
}

// What is written over zeros is read back as far as it goes, and no zeros before they are synced.
#[test]
fn writes_over_zeros(rt: HostRuntime) -> Result<(), Fail> {
    let mut buffer = [1u8; 8];
    let mut disks = FileDisks::new(rt.alloc(), &rt);
    assert_eq!(rt; disks.cut(5, 0), Ok(()));
    assert_eq!(rt; disks.write_at(5, 0, b"123456789"), Ok(()));
    assert_eq!(rt; disks.write_at(5, 9, b"abc"), Ok(()));
    assert_eq!(rt; disks.sync(5), Ok(()));
    assert_eq!(rt; disks.write_at(5, 12, b"def"), Ok(()));
    assert_eq!(rt; disks.read(5, 10, &mut buffer), Ok(5));
    assert!(rt; buffer.starts_with(b"bcdef"));
    assert!(rt; disks.read(5, 15, &mut buffer).is_err());
    assert_eq!(rt; disks.sync(5), Ok(()));
    assert_eq!(rt; disks.write_at(5, 8, b"x"), Ok(()));
    assert_eq!(rt; disks.write_at(5, 15, b"ghi"), Ok(()));
    assert_eq!(rt; disks.length(5), Ok(18));
    drop(disks);
    let mut disks = FileDisks::new(rt.alloc(), &rt);
    assert_eq!(rt; disks.length(5), Ok(12 + FIRST));
    assert_eq!(rt; disks.read(5, 8, &mut buffer), Ok(8));
    assert_eq!(rt; buffer, *b"xabcdefg");
    assert_eq!(rt; disks.cut(5, 0), Ok(()));
    Ok(())
}

// No zeros are written past the length that a file may have: it is opened again.
#[test]
fn keeps_within_the_limit(rt: HostRuntime) -> Result<(), Fail> {
    let near = (1u64 << 30) - 20;
    let mut disks = FileDisks::new(rt.alloc(), &rt);
    assert_eq!(rt; disks.cut(6, 0), Ok(()));
    assert_eq!(rt; disks.write_at(6, near, b"end"), Ok(()));
    assert_eq!(rt; disks.sync(6), Ok(()));
    assert_eq!(rt; disks.write_at(6, near + 3, b"more"), Ok(()));
    assert_eq!(rt; disks.length(6), Ok(near + 7));
    drop(disks);
    let mut disks = FileDisks::new(rt.alloc(), &rt);
    assert_eq!(rt; disks.length(6), Ok(1 << 30));
    assert_eq!(rt; disks.cut(6, 0), Ok(()));
    Ok(())
}
