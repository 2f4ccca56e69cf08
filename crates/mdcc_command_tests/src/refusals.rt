//! Words, centres and configurations that are refused.
use crate::program::{NO_FAULTS, ONE, run_new};
use std::alloc::Global;
use std::process::Abort;
use std::test::Fail;

// The commands over a configuration.
const COMMANDS: [&[&str]; 4] = [
    &["node", "1", "3"],
    &["cluster", "3"],
    &["ask", "1", "3", "7", "read:a"],
    &["dump", "1"],
];

// What each of them answers to this input, with nothing printed.
fn check_config(rt: &impl Abort, alloc: Global, input: &str, err: &str) -> Result<(), Fail> {
    for words in COMMANDS {
        let ran = run_new(alloc, words, input, &NO_FAULTS, None)?;
        assert!(rt; ran.is("", err, 3), "{input}");
    }
    Ok(())
}

// A configuration of one centre without its last two members.
const FRONT: &str = r#"{"centres":1,"classic":1,"fast":1,"gamma":100,"bounds":[[0,1000]],"#;

#[test]
fn configurations(rt: HostRuntime) -> Result<(), Fail> {
    for (input, err) in [
        ("", "mdcc: config: Json\n"),
        ("[]", "mdcc: config: Json\n"),
        ("{}", "mdcc: config: Member\n"),
    ] {
        check_config(&rt, rt.alloc(), input, err)?;
    }
    for (rest, err) in [
        (r#""hosts":["127.0.0.1"]}"#, "mdcc: config: Member\n"),
        (
            r#""hosts":["127.0.0.1"],"port":9000,"places":1}"#,
            "mdcc: config: Member\n",
        ),
        (
            r#""hosts":["127.0.0.1"],"port":"9000"}"#,
            "mdcc: config: Kind\n",
        ),
        (
            r#""hosts":["127.0.0.1"],"port":0}"#,
            "mdcc: config: Range\n",
        ),
        (
            r#""hosts":["127.0.0"],"port":9000}"#,
            "mdcc: config: Address\n",
        ),
        (r#""hosts":[],"port":9000}"#, "mdcc: config: Address\n"),
    ] {
        let input = format!(in rt.alloc(); "{FRONT}{rest}")?;
        check_config(&rt, rt.alloc(), input.as_str(), err)?;
    }
    Ok(())
}

// The centres 0, 2 and 4294967295 of one.
const NO_CENTRE: [&[&str]; 7] = [
    &["node", "0", "3"],
    &["node", "2", "3"],
    &["node", "4294967295", "3"],
    &["dump", "0"],
    &["dump", "2"],
    &["ask", "0", "3", "7", "read:a"],
    &["ask", "2", "3", "7", "read:a"],
];

#[test]
fn centres_that_are_not_there(rt: HostRuntime) -> Result<(), Fail> {
    for words in NO_CENTRE {
        let ran = run_new(rt.alloc(), words, ONE, &NO_FAULTS, None)?;
        assert!(rt; ran.is("", "mdcc: config: Centre\n", 3));
    }
    Ok(())
}

// A word too few or too many, a sign, a leading zero, a number outside its range, an option, a call for help.
const NO_COMMAND: [&[&str]; 20] = [
    &["node"],
    &["node", "1"],
    &["node", "1", "3", "4"],
    &["node", "one", "3"],
    &["node", "01", "3"],
    &["node", "+1", "3"],
    &["node", "-1", "3"],
    &["node", "4294967296", "3"],
    &["node", "1", "4294967296"],
    &["cluster"],
    &["cluster", "3", "3"],
    &["cluster", ""],
    &["clusters", "3"],
    &["dump"],
    &["dump", "1", "2"],
    &["dump", "--help"],
    &["-h"],
    &["help"],
    &["help", "node"],
    &["nothing", "1"],
];

// Words that make no question: none, a key that is none, a read behind an update, a read that is not there, an update that is none, and
// numbers outside their ranges.
const NO_QUESTION: [&[&str]; 10] = [
    &["ask", "1", "3", "7"],
    &["ask", "1", "3", "7", "read:"],
    &["ask", "1", "3", "7", "read:a!"],
    &["ask", "1", "3", "7", "new:a:-:10", "read:a"],
    &["ask", "1", "3", "7", "set:1:-:10"],
    &["ask", "1", "3", "7", "read:a", "add:2:1=1"],
    &["ask", "1", "3", "7", "new:a:-"],
    &["ask", "1", "4294967295", "7", "read:a"],
    &["ask", "1", "3", "4294967296", "read:a"],
    &[
        "ask", "1", "3", "7", "read:a", "read:b", "read:c", "read:d", "read:e", "read:f", "read:g",
        "read:h", "read:i", "read:j", "read:k", "read:l", "read:m", "read:n", "read:o", "read:p",
        "read:q",
    ],
];

// A read of the input would fail.
fn check_words(rt: &impl Abort, alloc: Global, words: &[&str]) -> Result<(), Fail> {
    let scripts = crate::program::Scripts {
        reads: &[1],
        ..NO_FAULTS
    };
    let ran = run_new(alloc, words, ONE, &scripts, None)?;
    assert!(rt; ran.is("", "mdcc: words\n", 2));
    Ok(())
}

#[test]
fn words_of_no_command(rt: HostRuntime) -> Result<(), Fail> {
    for words in NO_COMMAND {
        check_words(&rt, rt.alloc(), words)?;
    }
    for words in NO_QUESTION {
        check_words(&rt, rt.alloc(), words)?;
    }
    Ok(())
}
