//! The limits of the strings and the types.

ghost use Rattle.std.specs.Prelude.{◌≡◌, ◌≤◌};
ghost use Rattle.btf_rewrite_model.specs.Checks.{has_room, fits};
ghost use Rattle.btf_plain.specs.Error.{Meets};
ghost use Rattle.btf_table.specs.Checked.{checked};

use crate::table::SECTION_LIMIT;
use btf_plain::BtfError;

/// Fails with `InvalidStringOffset` of the length of the strings if a text and its zero byte do not fit after them.
#[inline(always)]
pub fn text_fits(offset: usize, text: &str) -> Result<(), BtfError>
    requires { offset ≤ SECTION_LIMIT }
    ensures { Meets (λ u. u) result (λ answer. answer ≡ checked (has_room offset text.now) tt) }
{
    if text.len() >= SECTION_LIMIT - offset {
        return Err(BtfError::InvalidStringOffset { offset });
    }
    Ok(())
}

/// Fails with `InvalidTypeInfo` if a record of this length does not fit after the records.
#[inline(always)]
pub fn record_fits(used: usize, bytes: usize) -> Result<(), BtfError>
    requires { used ≤ SECTION_LIMIT }
    ensures { Meets (λ u. u) result (λ answer. answer ≡ checked (fits used bytes) tt) }
{
    if bytes > SECTION_LIMIT - used {
        return Err(BtfError::InvalidTypeInfo);
    }
    Ok(())
}
