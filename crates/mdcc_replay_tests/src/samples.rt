//! The command `sample`, and words that are those of no command, over objects in memory.
use crate::runs::run_with_words;
use mdcc_base::{Memory, MemorySink, MemorySource};
use std::alloc::Global;

// What a run wrote and answered.
#[derive(Drop)]
struct Ran {
    status: u8,
    out: MemorySink,
    err: MemorySink,
}

// A word too few or too many, a name in capitals, a sign, a leading zero, numbers outside their ranges, an empty word.
const REFUSED: [&[&str]; 18] = [
    &[],
    &["nothing"],
    &["Replay"],
    &["replay", "replay"],
    &["sample"],
    &["sample", "0", "3"],
    &["sample", "0", "3", "0", "0"],
    &["samples", "0", "3", "0"],
    &["sample", "18446744073709551616", "3", "0"],
    &["sample", "-1", "3", "0"],
    &["sample", "+1", "3", "0"],
    &["sample", "00", "3", "0"],
    &["sample", "0", "2", "0"],
    &["sample", "0", "201", "0"],
    &["sample", "0", "3", "16"],
    &["sample", "0", "200", "1001"],
    &["sample", "0", "4294967299", "0"],
    &["sample", "0", "3", ""],
];

// The words, each in memory of its own.
fn words_of(alloc: Global, words: &[&str]) -> Result<Vec<String>, Memory> {
    let mut all = Vec::new(alloc);
    for word in words {
        all.push(String::from_str(alloc, word)?)?;
    }
    Ok(all)
}

// Runs the program with these words. A read of its input would fail.
fn run_with(alloc: Global, words: &[&str]) -> Result<Ran, Memory> {
    let words = words_of(alloc, words)?;
    let mut source = MemorySource::new(alloc, b"", &[1])?;
    let mut out = MemorySink::new(alloc, &[])?;
    let mut err = MemorySink::new(alloc, &[])?;
    let status = run_with_words(alloc, &words, &mut source, &mut out, &mut err).ok_or(Memory)?;
    Ok(Ran { status, out, err })
}

// Whether the program with these words writes and answers this.
fn is_run(alloc: Global, words: &[&str], report: &str, error: &str, status: u8) -> bool {
    match run_with(alloc, words) {
        Ok(ran) => {
            ran.status == status
                && ran.out.bytes() == report.as_bytes()
                && ran.err.bytes() == error.as_bytes()
        }
        Err(_) => false,
    }
}

// Each of three inserts takes five proposals, five votes and four outcomes.
#[test]
fn samples(rt: HostRuntime) {
    assert!(rt;
        is_run(
            rt.alloc(),
            &["sample", "0", "3", "0"],
            "sample 0 3 0\nbegun 3 commits 3 aborts 0 open 0 reads 0 messages 42\n",
            "",
            0
        )
    );
    assert!(rt;
        is_run(
            rt.alloc(),
            &["sample", "18446744073709551615", "3", "0"],
            "sample 18446744073709551615 3 0\nbegun 3 commits 3 aborts 0 open 0 reads 0 messages 42\n",
            "",
            0
        )
    );
}

#[test]
fn words_of_no_command(rt: HostRuntime) {
    for words in REFUSED {
        assert!(rt; is_run(rt.alloc(), words, "", "mdcc: words\n", 2));
    }
}
