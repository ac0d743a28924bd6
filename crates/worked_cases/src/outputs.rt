// What is printed of an output.

use anyhow::Result;
use std::alloc::Global;

/// From this number on equal bytes in a row are counted.
const MANY: u64 = 1000;

/// The bytes, where one that stands a thousand times in a row or more stands once, and behind it in braces how often it stands.
pub(crate) fn shown(alloc: Global, bytes: &[u8]) -> Result<Vec<u8>> {
    let mut told = Vec::new(alloc);
    let mut last = 0u8;
    let mut count = 0u64;
    for byte in bytes {
        if *byte != last {
            append_row(alloc, &mut told, last, count)?;
            last = *byte;
            count = 0;
        }
        count = count.saturating_add(1);
    }
    append_row(alloc, &mut told, last, count)?;
    Ok(told)
}

/// Appends a byte that stands so many times in a row.
fn append_row(alloc: Global, told: &mut Vec<u8>, byte: u8, count: u64) -> Result<()> {
    if count < MANY {
        return append_times(told, byte, count);
    }
    let number = format!(in alloc; "{{{count}}}")?;
    told.push(byte)?;
    told.extend_from_slice(number.as_bytes())?;
    Ok(())
}

/// Appends a byte so many times.
fn append_times(told: &mut Vec<u8>, byte: u8, count: u64) -> Result<()> {
    for _ in 0..count {
        told.push(byte)?;
    }
    Ok(())
}
