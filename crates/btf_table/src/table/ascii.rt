//! Texts that are pure ASCII, as most names are. The search for their end checks 16 bytes at a time.

ghost use Rattle.std.specs.Prelude.{◌≡◌, ℕ, ◌+◌, ◌-◌, ◌<◌, ◌≤◌, not, leb, length, take, drop, IfOk, IfErr, IfSome, IsTrue};
ghost use Rattle.std.specs.List.{prefix_len};
ghost use Rattle.btf_model.specs.Text.{is_zero};
ghost use Rattle.btf_table.specs.Ascii.{lowest_bit, ends_plain, IsAsciiEnd, IsAsciiText, BeginsAscii};

use std::simd::prelude::*;

/// The number of bytes that are checked in one step.
const LANES: usize = 16;

/// The number of bytes that are skipped in one step. Per byte this is faster than a search for a zero byte.
const BLOCK: usize = 64;

/// The index of the lowest bit that is set, or `LANES` if none is set.
#[inline(always)]
fn lowest_bit(mask: u64) -> usize
    ensures { result ≡ lowest_bit mask LANES }
{
    if mask == 0 {
        LANES
    } else {
        mask.trailing_zeros() as usize
    }
}

/// Of the 16 bytes at a place: the number of bytes before the first zero byte, and before the first byte that is not
/// ASCII.
#[inline(always)]
fn runs_at(bytes: &[u8], at: usize) -> (usize, usize)
    requires { at + LANES ≤ length bytes.now }
    ensures zero { result.0 ≡ prefix_len (λ b. not (is_zero b)) (take LANES (drop at bytes.now)) }
    ensures other { result.1 ≡ prefix_len (λ b. not (leb 0x80 b)) (take LANES (drop at bytes.now)) }
{
    let lanes = u8x16::from_slice(&bytes[at..]);
    let zeros = lanes.simd_eq(u8x16::splat(0)).to_bitmask();
    let others = lanes.simd_ge(u8x16::splat(0x80)).to_bitmask();
    (lowest_bit(zeros), lowest_bit(others))
}

/// Whether the 16 bytes at a place are ASCII, and none of them is zero.
#[inline(always)]
fn is_plain(bytes: &[u8], at: usize) -> bool
    requires { at + LANES ≤ length bytes.now }
    ensures { IsTrue result → BeginsAscii bytes.now at → BeginsAscii bytes.now (at + LANES) }
{
    let (zero, other) = runs_at(bytes, at);
    zero == LANES && other == LANES
}

/// Whether the bytes of the block at a place are ASCII, and none of them is zero.
#[inline(always)]
fn is_plain_block(bytes: &[u8], at: usize) -> bool
    requires { at + BLOCK ≤ length bytes.now }
    ensures { IsTrue result → BeginsAscii bytes.now at → BeginsAscii bytes.now (at + BLOCK) }
{
    is_plain(bytes, at)
        && is_plain(bytes, at + 16)
        && is_plain(bytes, at + 32)
        && is_plain(bytes, at + 48)
}

/// At the end of the first block: the place after all further blocks that are ASCII without a zero byte. At any other
/// place: the place itself. Most texts end in the first block, and there 16 bytes at a time find the end sooner.
#[inline(always)]
fn after_first_block(bytes: &[u8], from: usize) -> usize
    requires { BeginsAscii bytes.now from }
    ensures ascii { BeginsAscii bytes.now result }
    ensures on { from ≤ result }
{
    if from == BLOCK {
        after_blocks(bytes, from)
    } else {
        from
    }
}

/// The place after the blocks from a place on that are ASCII without a zero byte.
#[inline(never)]
fn after_blocks(bytes: &[u8], from: usize) -> usize
    requires { BeginsAscii bytes.now from }
    ensures ascii { BeginsAscii bytes.now result }
    ensures on { from ≤ result }
{
    let mut at = from;
    while bytes.len() - at >= BLOCK {
        if !is_plain_block(bytes, at) {
            return at;
        }
        at += BLOCK;
    }
    at
}

/// The length of the text at the front of bytes, up to the first zero byte, if the text is pure ASCII. Otherwise the
/// number of bytes at the front that are known to be ASCII and not zero.
pub fn ascii_len(bytes: &[u8]) -> Result<usize, usize>
    ensures found { IfOk result (IsAsciiEnd bytes.now) }
    ensures ascii { IfErr result (BeginsAscii bytes.now) }
    ensures none { IfErr result (λ _. LANES ≤ length bytes.now → (end : ℕ)
        → ¬ IsAsciiEnd bytes.now end) }
{
    let mut at = 0;
    while bytes.len() - at >= LANES {
        let (zero, other) = runs_at(bytes, at);
        if other < zero {
            return Err(at + other);
        }
        if zero < LANES {
            return Ok(at + zero);
        }
        at = after_first_block(bytes, at + LANES);
    }
    if bytes.len() < LANES {
        return Err(at);
    }
    last_ascii_len(bytes, at)
}

/// The same for a place with fewer than 16 bytes left: the last 16 bytes are checked, some of them for the second time.
fn last_ascii_len(bytes: &[u8], at: usize) -> Result<usize, usize>
    requires begins { BeginsAscii bytes.now at }
    requires few { length bytes.now - at < LANES }
    requires long { LANES ≤ length bytes.now }
    ensures found { IfOk result (IsAsciiEnd bytes.now) }
    ensures ascii { IfErr result (BeginsAscii bytes.now) }
    ensures none { IfErr result (λ _. (end : ℕ) → ¬ IsAsciiEnd bytes.now end) }
{
    let last = bytes.len() - LANES;
    let (zero, other) = runs_at(bytes, last);
    if zero < LANES {
        if zero <= other {
            return Ok(last + zero);
        }
    }
    Err(at)
}

/// Of the 16 bytes at a place: the number of bytes before the first one that is zero or not ASCII.
#[inline(always)]
fn plain_len(bytes: &[u8], at: usize) -> usize
    requires { at + LANES ≤ length bytes.now }
    ensures { result ≡ prefix_len (λ b. not (ends_plain b)) (take LANES (drop at bytes.now)) }
{
    let chunk = u8x16::from_slice(&bytes[at..]);
    let zeros = chunk.simd_eq(u8x16::splat(0));
    let others = chunk.simd_ge(u8x16::splat(0x80));
    lowest_bit((zeros | others).to_bitmask())
}

/// The place of the first zero byte in the 16 bytes at a place, if all bytes before it are ASCII.
#[inline(always)]
fn end_in(bytes: &[u8], at: usize) -> Option<usize>
    requires room { at + LANES ≤ length bytes.now }
    requires begins { BeginsAscii bytes.now at }
    ensures { IfSome result (IsAsciiEnd bytes.now) }
{
    let len = plain_len(bytes, at);
    if len < LANES && bytes[at + len] == 0 {
        return Some(at + len);
    }
    None
}

/// The same as `ascii_len` for a text that ends in the first 32 bytes, as most names do. It is found without a call.
#[inline(always)]
fn short_ascii_len(bytes: &[u8]) -> Option<usize>
    ensures { IfSome result (IsAsciiEnd bytes.now) }
{
    if bytes.len() < 32 {
        return None;
    }
    if is_plain(bytes, 0) {
        end_in(bytes, 16)
    } else {
        end_in(bytes, 0)
    }
}

/// The same as `ascii_len`.
#[inline(always)]
fn ascii_end(bytes: &[u8]) -> Result<usize, usize>
    ensures found { IfOk result (IsAsciiEnd bytes.now) }
    ensures ascii { IfErr result (BeginsAscii bytes.now) }
{
    match short_ascii_len(bytes) {
        Some(len) => Ok(len),
        None => ascii_len(bytes),
    }
}

/// The text at the front of bytes, up to the first zero byte, if `ascii_len` finds its end. Otherwise the number of
/// bytes at the front that are known to be ASCII and not zero.
#[inline(always)]
pub fn ascii_text(bytes: &[u8]) -> Result<&str, usize>
    ensures text { IfOk result (λ text. IsAsciiText bytes.now text.now) }
    ensures ascii { IfErr result (BeginsAscii bytes.now) }
{
    let text = &bytes[..ascii_end(bytes)?];
    // SAFETY: these bytes are proved to be ASCII, which is UTF-8, as the call requires.
    Ok(unsafe { str::from_utf8_unchecked(text) })
}
