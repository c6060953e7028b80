//! The placeholder for functions of the kernel in `.ksyms`.

ghost use Rattle.std.specs.Prelude.{◌≡◌, None, Ok, OnOk};
ghost use Rattle.btf_rewrite_model.specs.Checks.{first_fault};
ghost use Rattle.btf_rewrite_model.specs.Ksyms.{int_of_4, is_func, placeholder_checks};
ghost use Rattle.btf_rewrite_model.specs.Made.{kind_at};
ghost use Rattle.btf_plain.specs.Error.{IsOrNoMemory};
ghost use Rattle.btf_table.specs.Checked.{checked};
ghost use Rattle.btf_object_model.specs.Finalized as model;
ghost use Rattle.btf_object_model.specs.Finalized.{placeholder, with_int, with_variable, with_placeholder, with_placeholder_id, placeholder_fault};
ghost use Rattle.btf_object_model.specs.Ksyms.{FindsKsyms};
ghost use Rattle.btf_object.specs.Ksyms.{placeholder_place};

use btf_plain::{BtfError, Int, IntEncoding, Var, VarLinkage};
use btf_records::BtfType;
use btf_rewrite_model::KsymsIds;
use btf_table::{Btf, int_of_4, type_count};

/// Whether the type of an id is a FUNC.
fn is_function(btf: &Btf, type_id: u32) -> bool
    ensures { result ≡ is_func (kind_at btf.now type_id) }
{
    matches!(btf.type_by_id(type_id), Ok(BtfType::Func(_)))
}

/// Whether a FUNC is among the entries of `.ksyms`, whose ids are given if the table has it.
fn has_functions(btf: &Btf, ids: Option<KsymsIds>) -> bool
    requires { FindsKsyms btf.now None (Ok ids) }
    ensures { result ≡ model.has_functions btf.now ids }
{
    let Some(ids) = ids else {
        return false;
    };
    let Ok(BtfType::DataSec(data_sec)) = btf.type_by_id(ids.datasec_id) else {
        return false;
    };
    for entry in data_sec.entries() {
        if is_function(btf, entry.btf_type) {
            return true;
        }
    }
    false
}

/// The id of the first INT of 4 bytes, which is appended if there is none.
///
/// Fails with `InvalidStringOffset` if its name does not fit in the strings, and with `InvalidTypeInfo` if it does not
/// fit in the types.
fn add_int(btf: &mut Btf) -> Result<u32, BtfError>
    ensures answer { IsOrNoMemory (λ id. id) result
        (checked (first_fault (placeholder_checks btf.old None)) (int_of_4 btf.old)) }
    ensures table { OnOk result (btf.new ≡ with_int btf.old) }
{
    let id = int_of_4(btf.types().as_slice());
    if id < type_count(btf) as usize {
        return Ok(id as u32);
    }
    let name_offset = btf.add_string("int")?;
    let int = Int::new(name_offset, 4, IntEncoding::Signed, 0);
    btf.add_type(BtfType::Int(int))
}

/// Appends the placeholder, and returns its id.
///
/// Fails with `InvalidStringOffset` if a name does not fit in the strings, and with `InvalidTypeInfo` if a type does
/// not fit in the types.
fn append_placeholder(btf: &mut Btf) -> Result<u32, BtfError>
    ensures answer { IsOrNoMemory (λ id. id) result (placeholder_place btf.old) }
    ensures table { OnOk result (btf.new ≡ with_variable (int_of_4 btf.old) (with_int btf.old)) }
{
    let int = add_int(btf)?;
    let name_offset = btf.add_string("dummy_ksym")?;
    let placeholder = Var::new(name_offset, int, VarLinkage::Global);
    btf.add_type(BtfType::Var(placeholder))
}

/// Appends a placeholder for functions in `.ksyms` if there are any, as libbpf does: a VAR `dummy_ksym` of the first
/// INT of 4 bytes, which is appended first if there is none. Takes the ids of `.ksyms`, and returns them with the id of
/// the placeholder.
///
/// Fails with `InvalidStringOffset` if a name does not fit in the strings, and with `InvalidTypeInfo` if a type does
/// not fit in the types.
pub fn add_placeholder(btf: &mut Btf, ids: Option<KsymsIds>) -> Result<Option<KsymsIds>, BtfError>
    requires { FindsKsyms btf.old None (Ok ids) }
    ensures answer { IsOrNoMemory (λ ids. ids) result
        (checked (placeholder_fault btf.old ids) (with_placeholder_id btf.old ids)) }
    ensures table { OnOk result (btf.new ≡ with_placeholder btf.old ids) }
{
    let Some(found) = ids else {
        return Ok(None);
    };
    if !has_functions(btf, ids) {
        return Ok(ids);
    }
    let placeholder_id = append_placeholder(btf)?;
    Ok(Some(KsymsIds {
        datasec_id: found.datasec_id,
        placeholder_id: Some(placeholder_id),
    }))
}
