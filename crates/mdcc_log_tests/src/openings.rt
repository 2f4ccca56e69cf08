//! Appends to one area and openings of it, each of whose device calls fails and crashes in turn.
use mdcc_base::{Centre, Failed, HeapList, Image};
use mdcc_disks::{Disks, MemoryDisks};
use mdcc_log::{Frames, LogFault};
use std::alloc::Global;
use std::test::Fail;

const IMAGES: [Image; 3] = [Image::Lost, Image::Kept, Image::Torn];

// No crash behind a call that fails, and each crash.
const CRASHES: [Option<Image>; 4] = [
    None,
    Some(Image::Lost),
    Some(Image::Kept),
    Some(Image::Torn),
];

// After so many frames a checkpoint would be due: none is here.
const EVERY: u32 = 1_000;

// Of each call of three openings with an append behind each, by its number: how many payloads were acknowledged when it failed, and
// how many are read where all that was written is kept. An opening of two empty areas makes seven calls, sync and length at each and
// then cut, write and sync at the first; one that has nothing to repair makes five, sync, length and read at the first and sync and
// length at the second; an append makes four.
const CALLS: [(u32, usize, usize); 29] = [
    (1, 0, 0),
    (2, 0, 0),
    (3, 0, 0),
    (4, 0, 0),
    (5, 0, 0),
    (6, 0, 0),
    (7, 0, 0),
    (8, 0, 0),
    (9, 0, 0),
    (10, 0, 1),
    (11, 0, 1),
    (12, 1, 1),
    (13, 1, 1),
    (14, 1, 1),
    (15, 1, 1),
    (16, 1, 1),
    (17, 1, 1),
    (18, 1, 1),
    (19, 1, 2),
    (20, 1, 2),
    (21, 2, 2),
    (22, 2, 2),
    (23, 2, 2),
    (24, 2, 2),
    (25, 2, 2),
    (26, 2, 2),
    (27, 2, 2),
    (28, 2, 3),
    (29, 2, 3),
];

// Where an append behind those stopped and what a crash left of it: the number of its call, the image, how many calls the
// opening behind it makes at the first area, and how many payloads are read. Before it come 29 calls as above and five of an
// opening that has nothing to repair. The opening makes these at the first area: sync, length, read; where the last gate is torn
// write, sync; where bytes stand behind it cut, sync.
const LEFT: [(u32, Image, u32, usize); 8] = [
    (35, Image::Lost, 3, 3),
    (35, Image::Kept, 5, 3),
    (35, Image::Torn, 5, 3),
    (36, Image::Kept, 5, 3),
    (37, Image::Lost, 5, 3),
    (37, Image::Kept, 3, 4),
    (37, Image::Torn, 7, 3),
    (38, Image::Torn, 7, 3),
];

// Whether these are the first so many of four payloads.
fn are_first(payloads: &[HeapList<u8>], count: usize) -> bool {
    let all = [
        b"a".as_slice(),
        b"bc".as_slice(),
        b"def".as_slice(),
        b"ghij".as_slice(),
    ];
    payloads.len() == count
        && payloads
            .iter()
            .zip(all)
            .all(|(payload, expected)| payload.as_slice() == expected)
}

// Opens the log three times, and appends a payload each time. Counts those that were acknowledged.
fn append_three(
    alloc: Global,
    disks: &mut MemoryDisks,
    acknowledged: &mut usize,
) -> Result<(), LogFault> {
    for (index, payload) in [b"a".as_slice(), b"bc".as_slice(), b"def".as_slice()]
        .iter()
        .enumerate()
    {
        let (mut log, _payloads) = Frames::open(alloc, disks, Centre::default(), EVERY)?;
        log.append(disks, payload)?;
        *acknowledged = index + 1;
    }
    Ok(())
}

#[test]
fn the_log_of_a_first_boot_has_19_bytes(rt: HostRuntime) -> Result<(), Fail> {
    let alloc = rt.alloc();
    let mut disks = MemoryDisks::new(alloc, 17, &[])?;
    let (mut log, payloads) = Frames::open(alloc, &mut disks, Centre::default(), EVERY)?;
    assert_eq!(rt; payloads.len(), 0);
    assert_eq!(rt; disks.bytes(1), b"MDCCLOG1\x00".as_slice());
    log.append(&mut disks, [1, 1, 0, 0, 0].as_slice())?;
    assert_eq!(rt;
        disks.bytes(1),
        b"MDCCLOG1\x01\x05\x00\x00\x00\x01\x01\x00\x00\x00\x00".as_slice()
    );
    assert_eq!(rt; log.size(), 19);
    let (again, read) = Frames::open(alloc, &mut disks, Centre::default(), EVERY)?;
    assert_eq!(rt; again.size(), 19);
    assert_eq!(rt; read.len(), 1);
    assert_eq!(rt; read[0].as_slice(), [1, 1, 0, 0, 0].as_slice());
    Ok(())
}

#[test]
fn each_call_may_fail(rt: HostRuntime) -> Result<(), Fail> {
    let alloc = rt.alloc();
    for (call, acknowledged, kept) in CALLS {
        let mut disks = MemoryDisks::new(alloc, 17, &[call])?;
        let mut done = 0;
        let outcome = append_three(alloc, &mut disks, &mut done);
        assert_eq!(rt; outcome, Err(LogFault::DiskFault));
        assert_eq!(rt; done, acknowledged);
        let (_log, payloads) = Frames::open(alloc, &mut disks, Centre::default(), EVERY)?;
        assert!(rt; are_first(payloads.as_slice(), kept));
    }
    Ok(())
}

#[test]
fn a_crash_may_come_in_each_call(rt: HostRuntime) -> Result<(), Fail> {
    let alloc = rt.alloc();
    for (call, acknowledged, kept) in CALLS {
        for image in IMAGES {
            let mut disks = MemoryDisks::new(alloc, 17, &[call])?;
            let mut done = 0;
            let outcome = append_three(alloc, &mut disks, &mut done);
            assert_eq!(rt; outcome, Err(LogFault::DiskFault));
            disks.crash(1, image);
            disks.crash(17, image);
            let (_log, payloads) = Frames::open(alloc, &mut disks, Centre::default(), EVERY)?;
            let count = if image == Image::Kept {
                kept
            } else {
                acknowledged
            };
            assert!(rt; are_first(payloads.as_slice(), count));
        }
    }
    Ok(())
}

#[test]
fn what_was_acknowledged_is_read_after_each_crash(rt: HostRuntime) -> Result<(), Fail> {
    let alloc = rt.alloc();
    for image in IMAGES {
        let mut disks = MemoryDisks::new(alloc, 17, &[])?;
        let mut done = 0;
        append_three(alloc, &mut disks, &mut done)?;
        disks.crash(1, image);
        disks.crash(17, image);
        let (_log, payloads) = Frames::open(alloc, &mut disks, Centre::default(), EVERY)?;
        assert!(rt; are_first(payloads.as_slice(), 3));
    }
    Ok(())
}

// A log of three payloads, as such an image of what an append of one more left when it stopped in the call of this number.
fn left_behind(alloc: Global, call: u32, image: Image) -> Result<MemoryDisks, LogFault> {
    let Ok(mut disks) = MemoryDisks::new(alloc, 17, &[call]) else {
        return Err(LogFault::Memory);
    };
    let mut done = 0;
    append_three(alloc, &mut disks, &mut done)?;
    let (mut log, _payloads) = Frames::open(alloc, &mut disks, Centre::default(), EVERY)?;
    let _outcome = log.append(&mut disks, b"ghij".as_slice());
    disks.crash(1, image);
    disks.crash(17, image);
    Ok(disks)
}

// Opens the log, with the call of this number failing, and crashes. Tells whether that opening failed, and whether the next
// one gives so many payloads and leaves a file of its size.
fn opens_twice(
    alloc: Global,
    disks: &mut MemoryDisks,
    call: u32,
    crash: Option<Image>,
    count: usize,
) -> Result<(bool, bool), LogFault> {
    disks.arm(1, call);
    let failed = Frames::open(alloc, disks, Centre::default(), EVERY).is_err();
    if let Some(image) = crash {
        disks.crash(1, image);
        disks.crash(17, image);
    }
    let (log, payloads) = Frames::open(alloc, disks, Centre::default(), EVERY)?;
    let cut = disks.bytes(1).len() as u64 == log.size();
    Ok((failed, cut && are_first(payloads.as_slice(), count)))
}

#[test]
fn an_opening_may_fail_and_crash_in_each_call(rt: HostRuntime) -> Result<(), Fail> {
    let alloc = rt.alloc();
    for (stopped, image, calls, count) in LEFT {
        for crash in CRASHES {
            for call in 1..calls + 1 {
                let mut disks = left_behind(alloc, stopped, image)?;
                let outcome = opens_twice(alloc, &mut disks, call, crash, count)?;
                assert_eq!(rt; outcome, (true, true));
            }
        }

        // It makes no more calls than these.
        let mut disks = left_behind(alloc, stopped, image)?;
        let outcome = opens_twice(alloc, &mut disks, calls + 1, None, count);
        assert_eq!(rt; outcome, Err(LogFault::DiskFault));
    }
    Ok(())
}

// What an opening of these bytes in the first area answers.
fn refusal(alloc: Global, bytes: &[u8]) -> Result<Option<LogFault>, LogFault> {
    let Ok(mut disks) = MemoryDisks::new(alloc, 17, &[]) else {
        return Err(LogFault::Memory);
    };
    disks.write_at(1, 0, bytes)?;
    Ok(Frames::open(alloc, &mut disks, Centre::default(), EVERY).err())
}

#[test]
fn bytes_that_are_no_log_are_refused(rt: HostRuntime) -> Result<(), Fail> {
    let alloc = rt.alloc();
    assert_eq!(rt;
        refusal(alloc, b"MDCCLOG2\x00\x00".as_slice())?,
        Some(LogFault::NotALog(0))
    );
    assert_eq!(rt;
        refusal(
            alloc,
            b"MDCCLOG1\x01\x01\x00\x00\x00a\x01\x02\x00\x00\x00bc".as_slice(),
        )?,
        Some(LogFault::NotALog(14))
    );
    Ok(())
}

#[test]
fn a_disk_in_memory_fails_by_place_and_script(rt: HostRuntime) -> Result<(), Fail> {
    let alloc = rt.alloc();
    let mut disks = MemoryDisks::new(alloc, 1, &[2])?;
    disks.reserve(1, 8, 64)?;
    assert_eq!(rt; disks.write_at(1, 0, b"abc".as_slice()), Ok(()));
    assert_eq!(rt; disks.sync(1), Err(Failed));
    assert_eq!(rt; disks.sync(2), Err(Failed));
    assert_eq!(rt; disks.length(1), Ok(3));
    disks.crash(1, Image::Torn);
    assert_eq!(rt; disks.bytes(1), [165, 165, 165].as_slice());
    disks.crash(1, Image::Lost);
    assert_eq!(rt; disks.bytes(1), [165, 165, 165].as_slice());
    Ok(())
}
