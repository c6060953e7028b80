//! The ids of a table's `.ksyms`.

ghost use Rattle.std.specs.Prelude.{◌≡◌, ℕ, Result, Ok, Err};
ghost use Rattle.std.specs.Option.{option_map};
ghost use Rattle.btf_plain.specs.Error.{MeetsOrNoMemory};
ghost use Rattle.btf_object_model.specs.Ksyms.{FindsKsyms, FindsPlaceholder};
ghost use Rattle.btf_object.specs.Ksyms.{FindsDataSecOrNone};

use btf_plain::{BtfError, BtfKind};
use btf_rewrite_model::KsymsIds;
use btf_table::Btf;

/// The name of the DATASEC of the kernel's symbols.
const KSYMS: &str = ".ksyms";

/// The id of the first DATASEC with this name, if there is one.
fn find_datasec(btf: &Btf) -> Result<Option<u32>, BtfError>
    ensures { MeetsOrNoMemory (λ id. id) result (FindsDataSecOrNone btf.now) }
{
    match btf.id_by_type_name_kind(KSYMS, BtfKind::DataSec) {
        Ok(id) => Ok(Some(id)),
        Err(BtfError::UnknownBtfTypeName { .. }) => Ok(None),
        Err(error) => Err(error),
    }
}

/// The id of the first VAR of the placeholder's name, if a name is given.
fn find_placeholder(btf: &Btf, placeholder: Option<&str>) -> Result<Option<u32>, BtfError>
    ensures { MeetsOrNoMemory (λ id. id) result
        (FindsPlaceholder btf.now (option_map (λ name. name.now) placeholder.entry)) }
{
    match placeholder {
        Some(name) => Ok(Some(btf.id_by_type_name_kind(name, BtfKind::Var)?)),
        None => Ok(None),
    }
}

/// The ids for a rewrite's step of `.ksyms`: the id of the first DATASEC named `.ksyms`, and the id of the first VAR
/// with the placeholder's name, if a name is given. None if the table has no such DATASEC; the placeholder is not
/// searched for then.
///
/// Fails with `InvalidStringOffset` if the search comes to a DATASEC or VAR whose name can't be read, and with
/// `UnknownBtfTypeName` if no VAR has the placeholder's name.
pub fn ksyms_of(btf: &Btf, placeholder: Option<&str>) -> Result<Option<KsymsIds>, BtfError>
    ensures { MeetsOrNoMemory (λ ids. ids) result
        (FindsKsyms btf.now (option_map (λ name. name.now) placeholder.entry)) }
{
    let Some(datasec_id) = find_datasec(btf)? else {
        return Ok(None);
    };
    let placeholder_id = find_placeholder(btf, placeholder)?;
    Ok(Some(KsymsIds {
        datasec_id,
        placeholder_id,
    }))
}
