//! The entry that an empty DATASEC gets.

ghost use Rattle.std.specs.Prelude.{OnOk};
ghost use Rattle.btf_rewrite_model.specs.Pass.{filler};
ghost use Rattle.btf_plain.specs.Error.{IsOrNoMemory};
ghost use Rattle.btf_table.specs.Adding.{HasRoom};
ghost use Rattle.btf_table.specs.Appended.{filler_place, AddsFiller};

use crate::table::{Btf, Changes};
use btf_plain::{BtfError, Int, IntEncoding, Var, VarLinkage};
use btf_records::BtfType;

/// The names of the filler's INT and of its VAR.
const FILLER_TYPE: &str = "__aya_datasec_filler_type";

const FILLER: &str = "__aya_datasec_filler";

/// Appends the filler, which a DATASEC without entries gets: an INT of one byte and a Static VAR of it, each with a
/// text for its name. Returns the id of the VAR.
///
/// Fails with `InvalidStringOffset` or `InvalidTypeInfo` if the filler does not fit in the strings or the types.
pub fn append_filler(btf: &Btf, changes: &mut Changes) -> Result<u32, BtfError>
    requires { HasRoom btf.now changes.old }
    ensures answer { IsOrNoMemory (λ id. id) result (filler_place btf.now changes.old) }
    ensures adds { OnOk result (AddsFiller btf.now changes.old changes.new) }
{
    let type_name = changes.append_text(btf, FILLER_TYPE)?;
    let int = Int::new(type_name, 1, IntEncoding::None, 0);
    let int_id = changes.append_type(btf, BtfType::Int(int))?;
    let name = changes.append_text(btf, FILLER)?;
    let var = Var::new(name, int_id, VarLinkage::Static);
    changes.append_type(btf, BtfType::Var(var))
}
