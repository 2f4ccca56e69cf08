//! The program: it makes the real source and sinks, and calls the top call.
#![tactic(auto)]

mod streams;

use crate::streams::{Reading, Writing};
use mdcc_base::{Sink, write_all};
use mdcc_command::run;
use mdcc_disks_files::FileDisks;
use mdcc_link::UdpLink;
use std::env;
use std::io::ErrorKind;
use std::process::ExitCode;

// Ends for want of memory.
fn end_without_memory<E: Sink>(err: &mut E) -> ExitCode {
    let _ = write_all(err, b"mdcc: memory\n");
    ExitCode::from(10)
}

fn main(rt: HostRuntime) -> ExitCode {
    let mut source = Reading::new(rt.stdin());
    let mut out = Writing::new(rt.stdout());
    let mut err = Writing::new(rt.stderr());
    let mut words = Vec::new(rt.alloc());
    match env::args(&rt) {
        Ok(arguments) => {
            for word in arguments.skip(1) {
                if words.push(word).is_err() {
                    return end_without_memory(&mut err);
                }
            }
        }
        // Words that are no text are none that the program knows.
        Err(error) => {
            if error.kind() == ErrorKind::OutOfMemory {
                return end_without_memory(&mut err);
            }
        }
    }
    let mut disks = FileDisks::new(rt.alloc(), &rt);
    let mut link = UdpLink::new(rt.alloc(), &rt);
    ExitCode::from(run(
        rt.alloc(),
        &words,
        &mut source,
        &mut out,
        &mut err,
        &mut disks,
        &mut link,
    ))
}
