//! Numbers, read from bytes.
ghost use Rattle.std.specs.Prelude.{◌≡◌, length, take, drop};
ghost use Rattle.mdcc_def_messages.specs.ReadingSteps.{u8_at, u32_at, u64_at, i64_at, u8_within, u32_within, flag_at};

use mdcc_def_messages::WireFault;

// The bytes end inside a part.
pub(crate) fn truncated(bytes: &[u8]) -> WireFault
    ensures { result ≡ WireFault.Truncated (length bytes.now) }
{
    WireFault::Truncated(bytes.len() as u64)
}

// At most so many bytes from a place on.
pub(crate) fn run_at(bytes: &[u8], at: usize, count: usize) -> &[u8]
    ensures { result.now ≡ take count (drop at bytes.now) }
{
    let start = at.min(bytes.len());
    let rest = bytes.split_at(start).1;
    rest.split_at(count.min(rest.len())).0
}

/// The byte at a place.
pub fn u8_at(bytes: &[u8], at: usize) -> Result<(u8, usize), WireFault>
    ensures { result ≡ u8_at bytes.now at }
{
    match run_at(bytes, at, 1) {
        [a] => Ok((*a, at + 1)),
        _ => Err(truncated(bytes)),
    }
}

/// The number of four bytes at a place.
pub fn u32_at(bytes: &[u8], at: usize) -> Result<(u32, usize), WireFault>
    ensures { result ≡ u32_at bytes.now at }
{
    if bytes.len().saturating_sub(at) < 4 {
        return Err(truncated(bytes));
    }
    let front = run_at(bytes, at, 4);
    let number = u32::from_le_bytes([front[0], front[1], front[2], front[3]]);
    Ok((number, at + 4))
}

/// The number of eight bytes at a place.
pub fn u64_at(bytes: &[u8], at: usize) -> Result<(u64, usize), WireFault>
    ensures { result ≡ u64_at bytes.now at }
{
    if bytes.len().saturating_sub(at) < 8 {
        return Err(truncated(bytes));
    }
    let front = run_at(bytes, at, 8);
    let number = u64::from_le_bytes([
        front[0], front[1], front[2], front[3], front[4], front[5], front[6], front[7],
    ]);
    Ok((number, at + 8))
}

/// The whole number of eight bytes at a place, in two's complement.
pub fn i64_at(bytes: &[u8], at: usize) -> Result<(i64, usize), WireFault>
    ensures { result ≡ i64_at bytes.now at }
{
    let (number, after) = u64_at(bytes, at)?;
    Ok((number.cast_signed(), after))
}

/// The byte at a place, a number in a range of the part that begins at `part`.
pub fn u8_within(
    part: usize,
    low: u8,
    high: u8,
    bytes: &[u8],
    at: usize,
) -> Result<(u8, usize), WireFault>
    ensures { result ≡ u8_within part low high bytes.now at }
{
    let (number, after) = u8_at(bytes, at)?;
    if low <= number && number <= high {
        Ok((number, after))
    } else {
        Err(WireFault::Range(part as u64))
    }
}

/// The number of four bytes at a place, in a range of the part that begins at `part`.
pub fn u32_within(
    part: usize,
    low: u32,
    high: u32,
    bytes: &[u8],
    at: usize,
) -> Result<(u32, usize), WireFault>
    ensures { result ≡ u32_within part low high bytes.now at }
{
    let (number, after) = u32_at(bytes, at)?;
    if low <= number && number <= high {
        Ok((number, after))
    } else {
        Err(WireFault::Range(part as u64))
    }
}

/// The byte at a place, 0 or 1.
pub fn flag_at(bytes: &[u8], at: usize) -> Result<(bool, usize), WireFault>
    ensures { result ≡ flag_at bytes.now at }
{
    let (flag, after) = u8_within(at, 0, 1, bytes, at)?;
    Ok((flag == 1, after))
}
