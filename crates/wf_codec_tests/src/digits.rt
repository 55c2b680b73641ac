//! Bytes that are written in hexadecimal digits; blanks between them say nothing.
use std::test::Fail;

// What a hexadecimal digit stands for.
fn digit(c: u8) -> Option<u8> {
    if c.is_ascii_digit() {
        Some(c - b'0')
    } else if b'a' <= c && c <= b'f' {
        Some(c - b'a' + 10)
    } else {
        None
    }
}

/// The bytes that are written so.
pub fn bytes_of(rt: &HostRuntime, text: &str) -> Result<Vec<u8>, Fail> {
    let mut bytes = Vec::new(rt.alloc());
    let mut high: Option<u8> = None;
    for c in text.bytes() {
        if let Some(low) = digit(c) {
            high = match high {
                None => Some(low),
                Some(first) => {
                    bytes.push((first << 4) | low)?;
                    None
                }
            };
        }
    }
    Ok(bytes)
}
