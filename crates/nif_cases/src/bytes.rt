//! Bytes as a file of cases writes them, and what its lines do with them.
use crate::faults::Trouble;
use std::alloc::Global;

/// The number that a hexadecimal digit stands for.
fn digit(byte: u8) -> Option<u8> {
    match byte {
        b'0'..=b'9' => Some(byte - b'0'),
        b'a'..=b'f' => Some(byte - b'a' + 10),
        _ => None,
    }
}

/// Adds the bytes that pairs of hexadecimal digits stand for.
fn add_pairs(bytes: &mut Vec<u8>, pairs: &str) -> Result<(), Trouble> {
    let mut high = None;
    for byte in pairs.as_bytes() {
        if *byte == b' ' {
            continue;
        }
        let Some(low) = digit(*byte) else {
            return Err(Trouble::BadLine);
        };
        match high.take() {
            None => high = Some(low),
            Some(high) => bytes.push(high << 4 | low)?,
        }
    }
    match high {
        None => Ok(()),
        Some(_) => Err(Trouble::BadLine),
    }
}

/// Adds what stands behind an opening brace: pairs of digits, a closing brace, text.
fn add_behind_brace(bytes: &mut Vec<u8>, part: &str) -> Result<(), Trouble> {
    let Some((pairs, text)) = part.split_once('}') else {
        return Err(Trouble::BadLine);
    };
    add_pairs(bytes, pairs)?;
    bytes.extend_from_slice(text.as_bytes())?;
    Ok(())
}

/// Adds bytes that are written as text, with pairs of hexadecimal digits between braces.
pub fn add_written(bytes: &mut Vec<u8>, written: &str) -> Result<(), Trouble> {
    let mut parts = written.split('{');
    if let Some(text) = parts.next() {
        bytes.extend_from_slice(text.as_bytes())?;
    }
    for part in parts {
        add_behind_brace(bytes, part)?;
    }
    Ok(())
}

/// The bytes that are written so.
pub fn written(alloc: Global, text: &str) -> Result<Vec<u8>, Trouble> {
    let mut bytes = Vec::new(alloc);
    match add_written(&mut bytes, text) {
        Ok(()) => Ok(bytes),
        Err(trouble) => Err(trouble),
    }
}

/// Adds a number as four bytes, the lowest first.
pub fn add_count(bytes: &mut Vec<u8>, count: u32) -> Result<(), Trouble> {
    bytes.extend_from_slice(&count.to_le_bytes())?;
    Ok(())
}

/// Adds how many bytes there are as a count, and the bytes.
pub fn add_sized(bytes: &mut Vec<u8>, text: &[u8]) -> Result<(), Trouble> {
    let Ok(count) = u32::try_from(text.len()) else {
        return Err(Trouble::BadLine);
    };
    add_count(bytes, count)?;
    bytes.extend_from_slice(text)?;
    Ok(())
}

/// What stands before and behind the first place of some bytes.
fn around<'a>(bytes: &'a [u8], wanted: &[u8]) -> Option<(&'a [u8], &'a [u8])> {
    for place in 0..bytes.len() {
        let (front, rest) = bytes.split_at(place);
        if let Some(behind) = rest.strip_prefix(wanted) {
            return Some((front, behind));
        }
    }
    None
}

/// Three runs of bytes, one behind another.
fn joined(alloc: Global, front: &[u8], middle: &[u8], behind: &[u8]) -> Result<Vec<u8>, Trouble> {
    let mut bytes = Vec::from_slice(alloc, front)?;
    bytes.extend_from_slice(middle)?;
    bytes.extend_from_slice(behind)?;
    Ok(bytes)
}

/// The bytes with new ones in place of old ones, which stand in them once.
pub fn changed(alloc: Global, bytes: &[u8], old: &[u8], new: &[u8]) -> Result<Vec<u8>, Trouble> {
    let Some((front, behind)) = around(bytes, old) else {
        return Err(Trouble::BadLine);
    };
    if around(behind, old).is_some() {
        return Err(Trouble::BadLine);
    }
    joined(alloc, front, new, behind)
}

/// The bytes with other ones from a place on.
pub fn replaced(alloc: Global, bytes: &[u8], place: usize, new: &[u8]) -> Result<Vec<u8>, Trouble> {
    let Some((front, rest)) = bytes.split_at_checked(place) else {
        return Err(Trouble::BadLine);
    };
    let Some((_, behind)) = rest.split_at_checked(new.len()) else {
        return Err(Trouble::BadLine);
    };
    joined(alloc, front, new, behind)
}
