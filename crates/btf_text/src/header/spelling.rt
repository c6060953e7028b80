//! The spelling of a name, and its hash.

/// The first state of the hash FNV-1a of 32 bits.
const HASH_BEGIN: u32 = 0x811c_9dc5;

/// The number by which the state of that hash is multiplied.
const HASH_FACTOR: u32 = 0x0100_0193;

/// A name as it is written, without a number.
#[derive(Clone, Copy)]
pub struct Spelling<'a> {
    pub text: &'a str,
    pub hash: u32,
    /// The string offset of the name; None for a text that is not in the table so.
    pub name_offset: Option<u32>,
}

impl<'a> Spelling<'a> {
    /// The spelling with this text.
    pub fn new(text: &'a str, name_offset: Option<u32>) -> Spelling<'a> {
        Spelling {
            text,
            hash: hash_of(text),
            name_offset,
        }
    }
}

/// The hash of a text: FNV-1a.
fn hash_of(text: &str) -> u32 {
    let mut hash = HASH_BEGIN;
    for byte in text.as_bytes() {
        hash = (hash ^ u32::from(*byte)).wrapping_mul(HASH_FACTOR);
    }
    hash
}

/// The name and the number of a spelling with a number, such as `name___2`; None for another spelling.
pub fn split_number(text: &str) -> Option<(&str, u32)> {
    // Most names end otherwise, and then their `_` are not searched.
    if !text.as_bytes().last()?.is_ascii_digit() {
        return None;
    }
    let (name, digits) = text.rsplit_once("___")?;
    if digits.starts_with('0') {
        return None;
    }
    match digits.parse::<u32>() {
        Ok(number) if number > 1 => Some((name, number)),
        _ => None,
    }
}
