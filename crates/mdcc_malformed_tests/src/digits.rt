//! Bytes as hexadecimal digits.
use std::alloc::{AllocError, Global};

// The number of a digit.
fn digit_of(byte: u8) -> Option<u8> {
    match byte {
        b'0'..=b'9' => Some(byte - b'0'),
        b'a'..=b'f' => Some(byte - b'a' + 10),
        _ => None,
    }
}

/// The bytes that the digits of a text are, two for each. Whatever is no digit stands between them.
pub fn bytes_of(alloc: Global, text: &[u8]) -> Result<Vec<u8>, AllocError> {
    let mut bytes = Vec::new(alloc);
    let mut high = None;
    for byte in text {
        if let Some(digit) = digit_of(*byte) {
            match high {
                Some(first) => {
                    bytes.push(first << 4 | digit)?;
                    high = None;
                }
                None => high = Some(digit),
            }
        }
    }
    Ok(bytes)
}
