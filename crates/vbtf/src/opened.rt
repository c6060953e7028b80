//! The table, the `.BTF.ext` and the index of an open handle.

ghost use Rattle.std.specs.Prelude.{IfSome};
ghost use Rattle.std.proofs.Props.{props};
ghost use Rattle.btf_relocate.specs.TargetIndex.{IndexesTable};

use crate::seed::Keys;
use btf::{Btf, BtfExt};
use btf_relocate::TargetIndex;

/// A `.BTF.ext`, whose names are hashed with keys that an attacker does not know.
pub(crate) type KeyedExt = BtfExt<Keys>;

/// A table, the `.BTF.ext` that was opened over it, and the index of its types for relocations.
#[derive(Drop)]
pub struct Opened {
    pub(crate) btf: Btf,
    pub(crate) ext: Option<KeyedExt>,
    pub(crate) index: Option<TargetIndex>,
    /// The index is of this table.
    pub ghost indexed: { IfSome index (λ i. IndexesTable btf i) } by { Prim.hlevel props },
}
