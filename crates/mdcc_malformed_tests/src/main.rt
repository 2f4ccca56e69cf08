//! Malformed messages and facts: where they are refused, and for what. Each line of the input that names a kind has bytes of it, in
//! hexadecimal digits, part by part; it is printed with what a reading of these bytes gives. Other lines are printed as they are. What
//! has to be printed was counted by hand, from the tables of the formats.
#![tactic(auto)]

mod cases;
mod digits;

use crate::cases::{answer, case_in};
use std::io;

fn main(rt: HostRuntime) -> io::Result<()> {
    for line in rt.lines(rt.alloc()) {
        let line = line?;
        match case_in(line.as_bytes()) {
            Some((kind, digits)) => {
                println!(rt; "{line} = {}", answer(rt.alloc(), kind, digits)?)?;
            }
            None => println!(rt; "{line}")?,
        }
    }
    Ok(())
}
