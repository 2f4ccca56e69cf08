//! A log that is long enough for a checkpoint.
use crate::program::{NO_FAULTS, ONE, disks_of, run_on};
use mdcc_link::MemoryLink;
use std::alloc::Global;
use std::process::Abort;
use std::test::Fail;

// The frames after which a checkpoint is due.
const DUE: u32 = 1024;

// What stands in a log for the boot of this epoch: its length, and its bytes.
fn booted(epoch: u32) -> [u8; 9] {
    let [low, high, _, _] = epoch.to_le_bytes();
    [5, 0, 0, 0, 1, low, high, 0, 0]
}

// The log of so many boots.
fn boots_log(alloc: Global, boots: u32) -> Result<Vec<u8>, Fail> {
    let mut log = Vec::new(alloc);
    log.extend_from_slice(b"MDCCLOG1")?;
    for number in 0..boots {
        log.push(1)?;
        log.extend_from_slice(&booted(number + 1))?;
    }
    log.push(0)?;
    Ok(log)
}

// What a checkpoint makes of the log of so many boots.
fn boots_area(alloc: Global, boots: u32) -> Result<Vec<u8>, Fail> {
    let mut area = Vec::new(alloc);
    area.extend_from_slice(b"MDCCLOG2")?;
    area.extend_from_slice(&[1, 1, 0, 0, 0, 0, 0, 0, 0])?;
    area.extend_from_slice(&boots.to_le_bytes())?;
    area.extend_from_slice(&[0, 0, 0, 0])?;
    for number in 0..boots {
        area.extend_from_slice(&booted(number + 1))?;
    }
    area.push(0)?;
    Ok(area)
}

// The log has one frame too few, which the next boot brings.
#[test]
fn a_node_makes_the_checkpoint_that_is_due(rt: HostRuntime) -> Result<(), Fail> {
    let alloc = rt.alloc();
    let mut disks = disks_of(alloc, &boots_log(alloc, DUE - 1)?, &[])?;
    let mut link = MemoryLink::new(alloc, &[])?;
    let words = ["node", "1", "1"];
    let ran = run_on(alloc, &words, ONE, &NO_FAULTS, &mut disks, &mut link)?;
    assert!(rt;
        ran.is(
            "boot 1 epoch 1024\ndone turns 1 steps 1 dropped 0 lost 0\n",
            "",
            0
        )
    );
    assert!(rt; disks.bytes(1) == boots_log(alloc, DUE)?.as_slice());
    assert!(rt; disks.bytes(17) == boots_area(alloc, DUE)?.as_slice());
    Ok(())
}

// Nodes of one centre, with checkpoints after so many frames.
const AFTER_FOUR: &str =
    r#"{"centres":1,"classic":1,"fast":1,"gamma":100,"bounds":[[0,1000]],"hosts":["127.0.0.1"],"port":9000,"cells":100,"checkpoint":4}"#;

const AFTER_1025: &str =
    r#"{"centres":1,"classic":1,"fast":1,"gamma":100,"bounds":[[0,1000]],"hosts":["127.0.0.1"],"port":9000,"checkpoint":1025}"#;

// What a node leaves of a log of so many boots: the log with its own boot, and a checkpoint where one is due then.
fn check_due(
    rt: &impl Abort,
    alloc: Global,
    config: &str,
    boots: u32,
    due: bool,
) -> Result<(), Fail> {
    let mut disks = disks_of(alloc, &boots_log(alloc, boots)?, &[])?;
    let mut link = MemoryLink::new(alloc, &[])?;
    let words = ["node", "1", "0"];
    let ran = run_on(alloc, &words, config, &NO_FAULTS, &mut disks, &mut link)?;
    assert!(rt; ran.status == 0);
    let boots = boots.saturating_add(1);
    assert!(rt; disks.bytes(1) == boots_log(alloc, boots)?.as_slice());
    if due {
        assert!(rt; disks.bytes(17) == boots_area(alloc, boots)?.as_slice());
    } else {
        assert!(rt; disks.bytes(17).is_empty());
    }
    Ok(())
}

// The member `checkpoint` says after how many frames.
#[test]
fn a_configuration_says_when_a_checkpoint_is_due(rt: HostRuntime) -> Result<(), Fail> {
    let alloc = rt.alloc();
    check_due(&rt, alloc, AFTER_FOUR, 2, false)?;
    check_due(&rt, alloc, AFTER_FOUR, 3, true)?;
    check_due(&rt, alloc, AFTER_1025, DUE - 1, false)
}
