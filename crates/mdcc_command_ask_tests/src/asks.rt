//! What a client sends and prints.
use crate::made::{first_tx, key_a, put, run_over, sent};
use mdcc_base::BoundedList;
use mdcc_def_messages::ClientAnswer;
use mdcc_link::MemoryLink;
use mdcc_option::Token;
use std::alloc::Global;
use std::test::Fail;

// That nothing is held of `a`.
fn nothing_held() -> Option<ClientAnswer> {
    let token = Token {
        version: 0,
        seen: BoundedList::new(),
    };
    Some(ClientAnswer::Read {
        key: key_a()?,
        token,
        item: None,
        due: false,
    })
}

fn new_link(alloc: Global) -> Option<MemoryLink> {
    MemoryLink::new(alloc, &[]).ok()
}

#[test]
fn a_read_is_answered(rt: HostRuntime) -> Result<(), Fail> {
    let alloc = rt.alloc();
    let mut link = new_link(alloc).ok_or("a link")?;
    let held = nothing_held().ok_or("an answer")?;
    assert!(rt; put(alloc, &mut link, 1, 7, held));
    let ran = run_over(alloc, &["ask", "1", "3", "7", "read:a"], &mut link).ok_or("a question")?;
    assert!(rt; ran.is("read 1 at 1 a version 0 none\n", "", 0));
    assert_eq!(rt; sent(&link), 1);
    Ok(())
}

#[test]
fn nothing_answers(rt: HostRuntime) -> Result<(), Fail> {
    let alloc = rt.alloc();
    let mut link = new_link(alloc).ok_or("a link")?;
    let ran = run_over(alloc, &["ask", "1", "3", "7", "read:a"], &mut link).ok_or("a question")?;
    assert!(rt; ran.is("unanswered\n", "", 0));
    assert_eq!(rt; sent(&link), 4);
    Ok(())
}

// An answer under another serial is passed over, and takes its turn without a send.
#[test]
fn an_answer_of_another_serial_is_none(rt: HostRuntime) -> Result<(), Fail> {
    let alloc = rt.alloc();
    let mut link = new_link(alloc).ok_or("a link")?;
    let held = nothing_held().ok_or("an answer")?;
    assert!(rt; put(alloc, &mut link, 1, 8, held));
    let ran = run_over(alloc, &["ask", "1", "3", "7", "read:a"], &mut link).ok_or("a question")?;
    assert!(rt; ran.is("unanswered\n", "", 0));
    assert_eq!(rt; sent(&link), 3);
    Ok(())
}

// After it was begun the client only waits.
#[test]
fn a_begin_is_heard(rt: HostRuntime) -> Result<(), Fail> {
    let alloc = rt.alloc();
    let tx = first_tx().ok_or("a transaction")?;
    let mut link = new_link(alloc).ok_or("a link")?;
    assert!(rt; put(alloc, &mut link, 1, 7, ClientAnswer::Begun(tx)));
    let words = ["ask", "1", "3", "7", "new:a:-:10"];
    let ran = run_over(alloc, &words, &mut link).ok_or("a question")?;
    assert!(rt; ran.is("begin 1.1.1\nunanswered\n", "", 0));
    assert_eq!(rt; sent(&link), 1);
    assert!(rt; put(alloc, &mut link, 2, 8, ClientAnswer::Heard(tx, true)));
    let words = ["ask", "1", "3", "8", "new:a:-:10"];
    let ran = run_over(alloc, &words, &mut link).ok_or("a question")?;
    assert!(rt; ran.is("begin 1.1.1\nheard 1 1.1.1 commit\n", "", 0));
    Ok(())
}

// A key without an item is not kept, and one key is written once: nothing is begun then.
#[test]
fn what_makes_no_transaction(rt: HostRuntime) -> Result<(), Fail> {
    let alloc = rt.alloc();
    let mut link = new_link(alloc).ok_or("a link")?;
    let held = nothing_held().ok_or("an answer")?;
    assert!(rt; put(alloc, &mut link, 1, 7, held));
    let words = ["ask", "1", "3", "7", "read:a", "keep:1"];
    let ran = run_over(alloc, &words, &mut link).ok_or("a question")?;
    assert!(rt;
        ran.is(
            "read 1 at 1 a version 0 none\nbegin refused noitem a\n",
            "",
            0
        )
    );
    assert_eq!(rt; sent(&link), 1);
    let words = ["ask", "1", "3", "8", "new:a:-:1", "new:a:-:2"];
    let ran = run_over(alloc, &words, &mut link).ok_or("a question")?;
    assert!(rt; ran.is("begin refused RepeatedKey\n", "", 0));
    assert_eq!(rt; sent(&link), 1);
    Ok(())
}
