//! Lines of a text.
ghost use Rattle.std.specs.Prelude.{◌≡◌, ◌+◌, ◌≤◌, IfErr, length};
ghost use Rattle.mdcc_def_language.specs.Lines.{bounded, bytes_of_line, line_end_of, of_long};

use mdcc_def_language::SchedCause;
use mdcc_sched_words::TextFault;
use mdcc_sched_words::faults::refused;
use mdcc_sched_words::places::part_at;

// The most bytes that a line may have before its end.
const MOST_BYTES: usize = 4096;

/// The bytes of a line before its line end.
pub fn bytes_of_line(line: &[u8]) -> &[u8]
    ensures bytes { result.now ≡ bytes_of_line line.now }
    ensures within { length result.now ≤ length line.now }
{
    part_at(b'\n', 0, line)
}

// What is read of a line that has too many bytes.
fn of_long<A: Drop>(read: Result<A, TextFault>) -> Result<A, TextFault>
    ensures value { result ≡ of_long read }
    ensures column { IfErr result (λ fault. fault.column ≤ 4097) }
{
    match read {
        Ok(_value) => refused(MOST_BYTES + 1, SchedCause::Range),
        Err(fault) => {
            if fault.column() <= MOST_BYTES {
                Err(fault)
            } else {
                refused(MOST_BYTES + 1, SchedCause::Range)
            }
        }
    }
}

/// What is read of a line with these bytes before its line end.
pub fn bounded<A: Drop>(text: &[u8], read: Result<A, TextFault>) -> Result<A, TextFault>
    ensures value { result ≡ bounded text.now read }
    ensures column { IfErr read (λ fault. fault.column ≤ length text.now + 2) → IfErr result (λ fault. fault.column ≤ 4098) }
{
    if text.len() <= MOST_BYTES {
        return read;
    }
    of_long(read)
}

/// Whether a line ends behind its text, by one line end.
pub fn line_end_of(text: &[u8], line: &[u8]) -> Result<(), TextFault>
    requires { length text.now ≤ length line.now }
    ensures value { result ≡ line_end_of text.now line.now }
    ensures column { IfErr result (λ fault. fault.column ≤ length text.now + 2) }
{
    let column = text.len() + 1;
    match line.split_at(text.len()).1 {
        [] => refused(column, SchedCause::Word),
        [_] => Ok(()),
        [_, _, ..] => refused(column + 1, SchedCause::Word),
    }
}
