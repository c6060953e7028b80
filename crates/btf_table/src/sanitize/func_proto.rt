//! The rule of a FUNC_PROTO, and FUNC_PROTOs whose parameters get one name.

ghost use Rattle.std.specs.Prelude.{◌≡◌, if◌then◌else◌, [], string_bytes, IfOk, OnOk, Ok};
ghost use Rattle.std.specs.List.{list_any};
ghost use Rattle.btf_rewrite_model.specs.Ksyms.{named_parameters};
ghost use Rattle.btf_rewrite_model.specs.Made.{wants_name};
ghost use Rattle.btf_rewrite_model.specs.Pass as model;
ghost use Rattle.btf_rewrite_model.specs.Pass.{has, param_texts};
ghost use Rattle.btf_plain.specs.Error.{IsOrNoMemory};
ghost use Rattle.btf_plain.specs.Items.{param_words};
ghost use Rattle.btf_table.specs.Adding.{HasRoom, Adds};
ghost use Rattle.btf_table.specs.Params.{lack_a_name, proto_named, param_name_place};
ghost use Rattle.btf_table.specs.TypeStep.{RewritesProto};

use crate::sanitize::made::Made;
use crate::table::{Btf, Changes};
use btf_plain::BtfError;
use btf_records::{BtfParam, BtfType, FuncProto, as_enum};
use std::alloc::{AllocError, Global};

/// The rule of a FUNC_PROTO: its parameters get names, or it becomes an ENUM; None if it is unchanged. Fails with
/// `InvalidStringOffset` if the names do not fit in the strings.
#[inline(never)]
pub fn rewrite_proto(
    made: &mut Made,
    btf: &Btf,
    proto: &FuncProto,
    granted: bool,
) -> Result<Option<BtfType>, BtfError>
    requires { HasRoom btf.now made.old.changes }
    ensures { RewritesProto made.old made.new btf.now proto.now granted result }
{
    if !granted {
        return Ok(Some(BtfType::Enum(as_enum(proto)?)));
    }
    if !has_unnamed(proto) {
        return Ok(None);
    }
    let proto = with_param_names(btf, &mut made.changes, proto)?;
    Ok(Some(BtfType::FuncProto(proto)))
}

/// Whether a parameter of the prototype has a type and no name.
fn has_unnamed(proto: &FuncProto) -> bool
    ensures { result ≡ lack_a_name proto.now.tail }
{
    any_unnamed(proto.params())
}

/// Whether one of the parameters has a type and no name.
fn any_unnamed(params: &[BtfParam]) -> bool
    ensures { result ≡ list_any (λ p. wants_name p.name_offset p.btf_type) params.now }
{
    params.iter().any(|param| is_unnamed(param))
}

/// Whether a parameter gets a new text for its name: it has a type and no name.
fn is_unnamed(param: &BtfParam) -> bool
    ensures { result ≡ wants_name param.now.name_offset param.now.btf_type }
{
    param.name_offset == 0 && param.btf_type != 0
}

/// The prototype, with a new text for the name of each parameter that has a type and no name: `param` and its index
/// among all parameters in decimal. Fails with `InvalidStringOffset` if such a text does not fit.
fn with_param_names(
    btf: &Btf,
    changes: &mut Changes,
    proto: &FuncProto,
) -> Result<FuncProto, BtfError>
    requires { HasRoom btf.now changes.old }
    ensures answer { IsOrNoMemory (λ r. r) result (proto_named btf.now changes.old proto.now) }
    ensures adds { OnOk result (Adds btf.now changes.old changes.new
        (param_texts 0 proto.now.tail) []) }
{
    let mut with_names = proto.try_clone()?;
    for (index, param) in proto.params().iter().enumerate() {
        let name_offset = param_name_offset(btf, changes, index, param)?;
        with_names.set_param_name(index, name_offset);
    }
    Ok(with_names)
}

/// The string offset of the new name of the parameter at an index: a new text is appended if the parameter has a type
/// and no name. Fails with `InvalidStringOffset` if the text does not fit.
fn param_name_offset(
    btf: &Btf,
    changes: &mut Changes,
    index: usize,
    param: &BtfParam,
) -> Result<u32, BtfError>
    requires { HasRoom btf.now changes.old }
    ensures answer { IsOrNoMemory (λ offset. offset) result
        (param_name_place btf.now changes.old index param.now) }
    ensures adds { OnOk result (Adds btf.now changes.old changes.new
        (param_texts index (param_words param.now)) []) }
{
    if is_unnamed(param) {
        let text = param_text(btf.allocator(), index)?;
        changes.append_text(btf, &text)
    } else {
        Ok(param.name_offset)
    }
}

/// The name of the parameter at an index.
fn param_text(alloc: Global, index: usize) -> Result<String, AllocError>
    ensures { IfOk result (λ text. string_bytes text ≡ model.param_text index) }
{
    format!(in alloc; "param{index}")
}

/// The prototype, with a name for each parameter that has a type and no name.
pub fn with_names(proto: &FuncProto, name_offset: u32) -> Result<FuncProto, BtfError>
    ensures { IsOrNoMemory (λ r. r) result
        (Ok (record proto.now { tail = named_parameters name_offset proto.now.tail })) }
{
    let mut with_names = proto.try_clone()?;
    for (index, param) in proto.params().iter().enumerate() {
        with_names.set_param_name(index, param_name(param, name_offset));
    }
    Ok(with_names)
}

/// The string offset of a parameter's new name: this offset if it has a type and no name, else its old name.
fn param_name(param: &BtfParam, name_offset: u32) -> u32
    ensures { result ≡ if wants_name param.now.name_offset param.now.btf_type then name_offset
        else param.now.name_offset }
{
    if param.name_offset == 0 && param.btf_type != 0 {
        name_offset
    } else {
        param.name_offset
    }
}
