//! Identifiers of C.

use std::alloc::AllocError;

/// The words that begin with `_` and are no identifiers in C11 or in its GNU dialect, in the order of bytes.
static RESERVED: [&str; 49] = [
    "_Alignas",
    "_Alignof",
    "_Atomic",
    "_BitInt",
    "_Bool",
    "_Complex",
    "_Float16",
    "_Generic",
    "_Imaginary",
    "_Noreturn",
    "_Static_assert",
    "_Thread_local",
    "__FUNCTION__",
    "__PRETTY_FUNCTION__",
    "__alignof",
    "__alignof__",
    "__asm",
    "__asm__",
    "__attribute",
    "__attribute__",
    "__auto_type",
    "__builtin_offsetof",
    "__builtin_types_compatible_p",
    "__builtin_va_arg",
    "__complex",
    "__complex__",
    "__const",
    "__const__",
    "__extension__",
    "__float128",
    "__func__",
    "__imag",
    "__imag__",
    "__inline",
    "__inline__",
    "__int128",
    "__label__",
    "__null",
    "__real",
    "__real__",
    "__restrict",
    "__restrict__",
    "__signed",
    "__signed__",
    "__thread",
    "__typeof",
    "__typeof__",
    "__volatile",
    "__volatile__",
];

/// The words of which C's names of numbers are made.
static NUMBER_WORDS: [&str; 15] = [
    "_Bool",
    "_Complex",
    "__int128",
    "__int128_t",
    "__uint128_t",
    "_Float16",
    "__float128",
    "char",
    "short",
    "int",
    "long",
    "signed",
    "unsigned",
    "float",
    "double",
];

/// Whether a text is an identifier of C: letters of ASCII, digits and `_`, no digit first, and no keyword.
pub fn is_identifier(text: &str) -> bool {
    let bytes = text.as_bytes();
    match bytes.first() {
        Some(first) if first.is_ascii_digit() => false,
        Some(_) => bytes.iter().all(|byte| is_word_byte(*byte)) && !is_keyword(text),
        None => false,
    }
}

/// Whether a text is a name of numbers in C, such as `long unsigned int`.
pub fn is_number_name(text: &str) -> bool {
    text.split(' ').all(|word| NUMBER_WORDS.contains(&word))
}

const NO: bool = false;

const YES: bool = true;

/// Whether a byte may be in an identifier: a letter, a digit or `_`. A processor does not predict which of them comes
/// next, so a table costs less than branches.
static WORD_BYTES: [bool; 256] = [
    NO, NO, NO, NO, NO, NO, NO, NO, NO, NO, NO, NO, NO, NO, NO, NO, NO, NO, NO, NO, NO, NO, NO, NO,
    NO, NO, NO, NO, NO, NO, NO, NO, NO, NO, NO, NO, NO, NO, NO, NO, NO, NO, NO, NO, NO, NO, NO, NO,
    YES, YES, YES, YES, YES, YES, YES, YES, YES, YES, NO, NO, NO, NO, NO, NO, NO, YES, YES, YES,
    YES, YES, YES, YES, YES, YES, YES, YES, YES, YES, YES, YES, YES, YES, YES, YES, YES, YES, YES,
    YES, YES, YES, YES, NO, NO, NO, NO, YES, NO, YES, YES, YES, YES, YES, YES, YES, YES, YES, YES,
    YES, YES, YES, YES, YES, YES, YES, YES, YES, YES, YES, YES, YES, YES, YES, YES, NO, NO, NO, NO,
    NO, NO, NO, NO, NO, NO, NO, NO, NO, NO, NO, NO, NO, NO, NO, NO, NO, NO, NO, NO, NO, NO, NO, NO,
    NO, NO, NO, NO, NO, NO, NO, NO, NO, NO, NO, NO, NO, NO, NO, NO, NO, NO, NO, NO, NO, NO, NO, NO,
    NO, NO, NO, NO, NO, NO, NO, NO, NO, NO, NO, NO, NO, NO, NO, NO, NO, NO, NO, NO, NO, NO, NO, NO,
    NO, NO, NO, NO, NO, NO, NO, NO, NO, NO, NO, NO, NO, NO, NO, NO, NO, NO, NO, NO, NO, NO, NO, NO,
    NO, NO, NO, NO, NO, NO, NO, NO, NO, NO, NO, NO, NO, NO, NO, NO, NO, NO, NO, NO, NO, NO, NO, NO,
    NO, NO, NO, NO, NO, NO, NO, NO, NO,
];

/// Whether a byte may be in an identifier.
fn is_word_byte(byte: u8) -> bool {
    WORD_BYTES[byte as usize]
}

/// The other words that are no identifiers, by their first byte and their length.
fn keywords_of(first: u8, len: usize) -> &'static [&'static str] {
    match (first, len) {
        (b'a', 3) => &["asm"],
        (b'a', 4) => &["auto"],
        (b'b', 5) => &["break"],
        (b'c', 4) => &["case", "char"],
        (b'c', 5) => &["const"],
        (b'c', 8) => &["continue"],
        (b'd', 2) => &["do"],
        (b'd', 6) => &["double"],
        (b'd', 7) => &["default"],
        (b'e', 4) => &["else", "enum"],
        (b'e', 6) => &["extern"],
        (b'f', 3) => &["for"],
        (b'f', 5) => &["float"],
        (b'g', 4) => &["goto"],
        (b'i', 2) => &["if"],
        (b'i', 3) => &["int"],
        (b'i', 6) => &["inline"],
        (b'l', 4) => &["long"],
        (b'r', 6) => &["return"],
        (b'r', 8) => &["register", "restrict"],
        (b's', 5) => &["short"],
        (b's', 6) => &["signed", "sizeof", "static", "struct", "switch"],
        (b't', 6) => &["typeof"],
        (b't', 7) => &["typedef"],
        (b'u', 5) => &["union"],
        (b'u', 8) => &["unsigned"],
        (b'v', 4) => &["void"],
        (b'v', 8) => &["volatile"],
        (b'w', 5) => &["while"],
        _ => &[],
    }
}

/// Whether a word of letters, digits and `_` is a keyword.
fn is_keyword(word: &str) -> bool {
    match word.as_bytes() {
        [b'_', b'_' | b'A'..=b'Z', ..] => RESERVED.binary_search(&word).is_ok(),
        [first, ..] => match keywords_of(*first, word.len()) {
            [] => false,
            words => words.contains(&word),
        },
        _ => false,
    }
}

/// The hexadecimal digit of a number below 16. `write!` would take ten times as long for each byte.
fn digit(number: u8) -> char {
    char::from_digit(u32::from(number), 16).unwrap_or('_')
}

/// Adds an identifier for a text that is none: a byte that may not be in an identifier is written as its two
/// hexadecimal digits between `_`, and `_` is added before a digit, after a keyword, and for an empty text.
#[inline(never)]
fn add_escaped(word: &mut String, text: &str) -> Result<(), AllocError> {
    let bytes = text.as_bytes();
    if bytes.first().is_none_or(|first| first.is_ascii_digit()) {
        word.push_str("_")?;
    }
    for byte in bytes {
        if is_word_byte(*byte) {
            word.push(char::from(*byte))?;
        } else {
            word.push_str("_")?;
            word.push(digit(*byte >> 4))?;
            word.push(digit(*byte & 0xf))?;
            word.push_str("_")?;
        }
    }
    if is_keyword(text) {
        word.push_str("_")?;
    }
    Ok(())
}

/// The spelling of a name: its text if that is an identifier, and else the escaped text, for which the string is used.
#[inline(always)]
pub fn spell<'a>(escaped: &'a mut String, text: &'a str) -> Result<&'a str, AllocError> {
    if is_identifier(text) {
        return Ok(text);
    }
    escaped.clear();
    add_escaped(escaped, text)?;
    Ok(escaped.as_str())
}
