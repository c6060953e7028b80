//! The place in which a reader stores a record. It avoids moves of the record from one place to another.

ghost use Rattle.std.specs.Prelude.{◌≡◌, ◌+◌, ◌*◌, length, OnOk, OnErr, IfOk, IfErr};
ghost use Rattle.btf_records.specs.BtfType.{record_of};

use crate::btf_type::BtfType;
use btf_plain::BtfError;
use std::alloc::AllocError;

/// A slot for a record.
pub trait Slot {
    ghost use Rattle.std.specs.Prelude.{OnOk, OnErr};
    ghost use Rattle.btf_records.specs.declared.btf_type.BtfType.{BtfType};

    /// The state of the slot after a record was put there.
    ghost has_put: { Self → BtfType → Self → Type 0 };

    /// The state of the slot after an allocation failed and no record was put there.
    ghost has_kept: { Self → Self → Type 0 };

    /// Puts a record there.
    fn put(&mut self, btf_type: BtfType) -> Result<(), AllocError>
        ensures put { OnOk result (has_put self.old btf_type self.new) }
        ensures kept { OnErr result (has_kept self.old self.new) };
}

/// The end of a growing vector.
impl Slot for Vec<BtfType> {
    ghost use Rattle.std.specs.Prelude.{◌≡◌, ◌∷◌, [], ◌++◌};

    ghost has_put = { λ old t new. new.items ≡ old.items ++ t ∷ [] };

    ghost has_kept = { λ old new. new.items ≡ old.items };

    #[inline(always)]
    fn put(&mut self, btf_type: BtfType) -> Result<(), AllocError> {
        self.reserve(1)?;
        self.push_reserved(btf_type);
        Ok(())
    }
}

/// A slot for one record.
#[derive(Drop)]
pub struct One {
    /// The record.
    pub btf_type: BtfType,
}

impl Slot for One {
    ghost use Rattle.std.specs.Prelude.{◌≡◌, ⊤};

    ghost has_put = { λ old t new. new.btf_type ≡ t };

    ghost has_kept = { λ old new. ⊤ };

    #[inline(always)]
    fn put(&mut self, btf_type: BtfType) -> Result<(), AllocError> {
        self.btf_type = btf_type;
        Ok(())
    }
}

/// Puts a record in a slot, and returns its length in bytes.
#[inline(always)]
pub fn put<S: Slot>(slot: &mut S, btf_type: BtfType) -> Result<usize, BtfError>
    ensures put { OnOk result (S.has_put slot.old btf_type slot.new) }
    ensures size { IfOk result (λ size. size ≡ 12 + 4 * length (record_of btf_type).tail) }
    ensures kept { IfErr result
        (λ e. (e ≡ BtfError.OutOfMemory) × S.has_kept slot.old slot.new) }
{
    let size = btf_type.type_info_size();
    slot.put(btf_type)?;
    Ok(size)
}
