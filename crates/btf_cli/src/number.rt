//! Numbers in words.

ghost use Rattle.std.specs.Prelude.{ℕ, IfSome, IfNone};
ghost use Rattle.btf_cli.specs.Setting.{IsId, IsDecimal};

/// The number of 64 bits in a text of decimal digits.
pub fn read_number(text: &str) -> Option<u64>
    ensures some { IfSome result (IsDecimal 64 text.now) }
    ensures none { IfNone result ((n : ℕ) → IsDecimal 64 text.now n → ⊥) }
{
    // `parse` accepts a sign, which is no digit.
    if text.starts_with('+') {
        return None;
    }
    text.parse().ok()
}

/// The id in a text of decimal digits.
pub fn read_id(text: &str) -> Option<u32>
    ensures some { IfSome result (IsId text.now) }
    ensures none { IfNone result ((id : ℕ) → IsId text.now id → ⊥) }
{
    u32::try_from(read_number(text)?).ok()
}
