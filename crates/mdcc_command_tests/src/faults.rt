//! Each call that fails.
use crate::commands::COMMIT;
use crate::datagrams::begin;
use crate::program::{NO_FAULTS, Ran, SMALL, Scripts, run_new};
use std::alloc::Global;
use std::process::Abort;
use std::test::Fail;

// A run that has no faults of its own, with what it prints then.
#[derive(Clone, Copy)]
struct Faultless<'a> {
    words: &'a [&'a str],
    input: &'a str,
    waiting: Option<&'a [u8]>,
    out: &'a str,
}

// The calls of which one fails.
#[derive(Clone, Copy)]
enum Calls {
    Reads,
    Writes,
    Disks,
    Link,
}

// The script by which the calls of these numbers fail.
fn script_of(calls: Calls, numbers: &[u32]) -> Scripts<'_> {
    match calls {
        Calls::Reads => Scripts {
            reads: numbers,
            ..NO_FAULTS
        },
        Calls::Writes => Scripts {
            writes: numbers,
            ..NO_FAULTS
        },
        Calls::Disks => Scripts {
            disks: numbers,
            ..NO_FAULTS
        },
        Calls::Link => Scripts {
            link: numbers,
            ..NO_FAULTS
        },
    }
}

impl<'a> Faultless<'a> {
    // The run in which the call of this number fails.
    fn failing(&self, alloc: Global, calls: Calls, number: u32) -> Result<Ran, Fail> {
        let numbers = [number];
        let scripts = script_of(calls, &numbers);
        run_new(alloc, self.words, self.input, &scripts, self.waiting)
    }

    // How many calls there are. The run ends at each that fails, with this line and status and a prefix of these lines, and the disks of
    // other centres have no bytes.
    fn calls_that_end(
        &self,
        rt: &impl Abort,
        alloc: Global,
        calls: Calls,
        lines: &str,
        err: &str,
        status: u8,
    ) -> Result<u32, Fail> {
        for number in 1..60u32 {
            let ran = self.failing(alloc, calls, number)?;
            assert!(rt; ran.others_empty, "call {number}");
            if ran.status == 0 {
                assert!(rt; ran.is(self.out, "", 0), "call {number}");
                return Ok(number - 1);
            }
            assert!(rt; ran.is_prefix(lines, err, status), "call {number}");
        }
        Ok(60)
    }
}

const CLUSTER: [&str; 2] = ["cluster", "8"];

// Eight turns of a cluster of one whose client begins an insert.
fn insert(waiting: &[u8]) -> Faultless<'_> {
    Faultless {
        words: &CLUSTER,
        input: SMALL,
        waiting: Some(waiting),
        out: COMMIT,
    }
}

// Two areas are made durable before they are read, the first is written and made durable, and each of three facts takes four calls.
#[test]
fn a_call_of_a_disk_that_fails_ends_the_cluster(rt: HostRuntime) -> Result<(), Fail> {
    let waiting = begin(rt.alloc())?;
    let ends = insert(&waiting).calls_that_end(
        &rt,
        rt.alloc(),
        Calls::Disks,
        COMMIT,
        "mdcc: disk 1 failed\n",
        7,
    )?;
    assert!(rt; 17 <= ends && ends < 60);
    Ok(())
}

// Two lines are printed before the last turn, and one after it.
#[test]
fn a_read_or_a_write_that_fails_ends_the_cluster(rt: HostRuntime) -> Result<(), Fail> {
    let waiting = begin(rt.alloc())?;
    let insert = insert(&waiting);
    let reads = insert.calls_that_end(
        &rt,
        rt.alloc(),
        Calls::Reads,
        "",
        "mdcc: input failed\n",
        5,
    )?;
    assert!(rt; 2 <= reads && reads < 60);
    let writes = insert.calls_that_end(
        &rt,
        rt.alloc(),
        Calls::Writes,
        COMMIT,
        "mdcc: output failed\n",
        6,
    )?;
    assert!(rt; 3 <= writes && writes < 60);
    Ok(())
}

const LOST: &str = "boot 1 epoch 1\nheard 1 1.1.1 commit\ndone turns 8 steps 8 dropped 0 lost 1\n";

// How many of the first calls of the link may fail so that the run goes on to this end, where each other one ends it.
fn losses(
    rt: &impl Abort,
    alloc: Global,
    run: &Faultless,
    calls: u32,
    out: &str,
) -> Result<u32, Fail> {
    let mut lost = 0u32;
    for before in 0..calls {
        let number = before + 1;
        let ran = run.failing(alloc, Calls::Link, number)?;
        assert!(rt; ran.others_empty, "call {number}");
        if ran.is(out, "", 0) {
            lost = lost.saturating_add(1);
        } else {
            assert!(rt;
                ran.is_prefix(run.out, "mdcc: link failed\n", 8),
                "call {number}"
            );
        }
    }
    Ok(lost)
}

// Two binds, sixteen receives and four sends.
#[test]
fn a_call_of_the_link_that_fails_ends_the_cluster_or_loses_a_datagram(
    rt: HostRuntime,
) -> Result<(), Fail> {
    let waiting = begin(rt.alloc())?;
    let insert = insert(&waiting);
    let lost = losses(&rt, rt.alloc(), &insert, 22, LOST)?;
    assert_eq!(rt; lost, 4);
    let ran = insert.failing(rt.alloc(), Calls::Link, 23)?;
    assert!(rt; ran.is(COMMIT, "", 0));
    Ok(())
}

// A bind, four sends and three receives.
#[test]
fn a_call_of_the_link_that_fails_ends_a_question_or_loses_a_datagram(
    rt: HostRuntime,
) -> Result<(), Fail> {
    let question = Faultless {
        words: &["ask", "1", "3", "7", "read:a"],
        input: SMALL,
        waiting: None,
        out: "unanswered\n",
    };
    let lost = losses(&rt, rt.alloc(), &question, 8, "unanswered\n")?;
    assert_eq!(rt; lost, 4);
    let ran = question.failing(rt.alloc(), Calls::Link, 9)?;
    assert!(rt; ran.is("unanswered\n", "", 0));
    Ok(())
}

// Two areas are made durable, and the first is cut, written and made durable.
#[test]
fn a_call_of_a_disk_that_fails_ends_a_dump(rt: HostRuntime) -> Result<(), Fail> {
    let dump = Faultless {
        words: &["dump", "1"],
        input: SMALL,
        waiting: None,
        out: "",
    };
    let ends = dump.calls_that_end(
        &rt,
        rt.alloc(),
        Calls::Disks,
        "",
        "mdcc: disk 1 failed\n",
        7,
    )?;
    assert!(rt; 5 <= ends && ends < 60);
    Ok(())
}
