//! Histories that are checked. The verdicts are those of the specification and of an independent program.
use crate::runs::{Ran, is_run, new_disks, run_word};
use std::alloc::Global;
use std::process::Abort;
use std::test::Fail;

// Checks a text, where the writes of these numbers fail.
fn checked_with(alloc: Global, text: &str, script: &[u32]) -> Result<Ran, Fail> {
    let mut disks = new_disks(alloc)?;
    run_word(alloc, "check", text.as_bytes(), script, &mut disks)
}

// Whether a check of a text prints and answers this.
fn gives(alloc: Global, text: &str, out: &str, err: &str, status: u8) -> Result<bool, Fail> {
    Ok(is_run(&checked_with(alloc, text, &[])?, out, err, status))
}

// The history of three commits and two reads.
const SALES: &str =
    "mdcc-history 1\nbound 0 1000\nstart\ncommit 1.1.1 write:a:0:-:-:10\nread a 1 - - 10\ncommit 1.1.2 add:a:1:1=-4\ncommit 1.1.3 add:a:1:1=-4\nread a 1 1.1.2,1.1.3 - 2\n";

#[test]
fn right_histories(rt: HostRuntime) -> Result<(), Fail> {
    let alloc = rt.alloc();
    assert!(rt; gives(alloc, SALES, "yes commits 3 reads 2\n", "", 0)?);
    let none = "mdcc-history 1\nbound 0 1\nstart\n";
    assert!(rt; gives(alloc, none, "yes commits 0 reads 0\n", "", 0)?);
    Ok(())
}

#[test]
fn wrong_histories(rt: HostRuntime) -> Result<(), Fail> {
    let alloc = rt.alloc();
    let apply =
        "mdcc-history 1\nbound 0 10\nstart\ncommit 1.1.1 write:a:0:-:-:10\ncommit 1.1.2 write:a:0:-:-:9\n";
    assert!(rt; gives(alloc, apply, "no line 5 Apply\n", "", 13)?);
    let value =
        "mdcc-history 1\nbound 0 10\nstart\ncommit 1.1.1 write:a:0:-:-:10\nread a 1 - - 9\n";
    assert!(rt; gives(alloc, value, "no line 5 Value\n", "", 13)?);
    let later =
        "mdcc-history 1\nbound 0 20\nstart\ncommit 1.1.1 write:a:0:-:-:10\n# a note\n\nread a 2 - - 10\n";
    assert!(rt; gives(alloc, later, "no line 7 Version\n", "", 13)?);
    Ok(())
}

#[test]
fn texts_that_are_no_history(rt: HostRuntime) -> Result<(), Fail> {
    let alloc = rt.alloc();
    assert!(rt; gives(alloc, "", "", "mdcc: header line 1: Order\n", 3)?);
    let word = "mdcc-history 1\nbound 0 1\nstart\nread b 0\nread b 0 -\n";
    assert!(rt; gives(alloc, word, "", "mdcc: line 5 column 10: Word\n", 4)?);
    let number = "mdcc-history 1\nbound 0 10\nstart\ncommit 1.2 write:a:0:-:-:5\n";
    assert!(rt; gives(alloc, number, "", "mdcc: line 4 column 8: Number\n", 4)?);
    // A refusal of a later line comes before the verdict on an earlier one.
    let twice =
        "mdcc-history 1\nbound 0 10\nstart\nread a 1 - - 5\ncommit 1.1.1 write:a:0:-:-:1 add:a:1:1=1\n";
    assert!(rt; gives(alloc, twice, "", "mdcc: line 5: Begin RepeatedKey\n", 4)?);
    Ok(())
}

#[test]
fn an_output_that_fails(rt: HostRuntime) -> Result<(), Fail> {
    let alloc = rt.alloc();
    let ran = checked_with(alloc, SALES, &[1])?;
    assert!(rt; is_run(&ran, "", "mdcc: output failed\n", 6));
    Ok(())
}
