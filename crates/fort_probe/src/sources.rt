//! The bytes of a source that stands in a line.
use std::alloc::{AllocError, Global};

/// The bytes that a text stands for, so many times.
pub fn source_of(alloc: Global, text: &str, count: u32) -> Result<Vec<u8>, AllocError> {
    let once = unescaped(alloc, text)?;
    let mut all = Vec::new(alloc);
    for _ in 0..count {
        all.extend_from_slice(&once)?;
    }
    Ok(all)
}

/// The bytes that a text stands for.
fn unescaped(alloc: Global, text: &str) -> Result<Vec<u8>, AllocError> {
    let mut bytes = Vec::new(alloc);
    let mut is_escaped = false;
    for byte in text.as_bytes() {
        if is_escaped {
            bytes.push(meant(*byte))?;
            is_escaped = false;
        } else if *byte == b'\\' {
            is_escaped = true;
        } else {
            bytes.push(*byte)?;
        }
    }
    Ok(bytes)
}

/// What a byte behind `\` stands for.
fn meant(byte: u8) -> u8 {
    match byte {
        b'n' => b'\n',
        b'!' => 255,
        _ => byte,
    }
}
