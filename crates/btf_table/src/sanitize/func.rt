//! The rule of a FUNC, and FUNCs with another linkage.

ghost use Rattle.std.specs.Prelude.{◌≡◌, IfOk, Ok};
ghost use Rattle.btf_rewrite_model.specs.declared.feature.BtfFeature.{BtfFeature};
ghost use Rattle.btf_rewrite_model.specs.Made.{with_linkage};
ghost use Rattle.btf_table.specs.Builtins.{begins_builtin};
ghost use Rattle.btf_table.specs.Features.{CallsFurther, IsFurther};
ghost use Rattle.btf_table.specs.Readable.{IsReadableEnd};
ghost use Rattle.btf_table.specs.TypeStep.{AsksFunc, StepsFunc};

use crate::sanitize::features::BtfFeatureResolver;
use crate::sanitize::outcome::Outcome;
use crate::table::Btf;
use btf_plain::{BtfError, Func, FuncLinkage};
use btf_records::BtfType;
use btf_rewrite_model::BtfFeature;
use std::alloc::AllocError;

/// What a FUNC becomes. For a kernel without FUNC it changes in place to a TYPEDEF of the prototype. A Global FUNC
/// becomes Static if the kernel has no Global functions, or if the kernel has a builtin of this name.
///
/// Fails with `InvalidStringOffset` if its name can't be read, that is, if the name's offset isn't below
/// `readable_end`. The name itself is not read, however long it is.
pub fn rewrite_func<F: FnMut(BtfFeature) -> bool>(
    btf: &Btf,
    func: &Func,
    readable_end: usize,
    resolver: &mut BtfFeatureResolver<F>,
) -> Result<Outcome, BtfError>
    requires callable { F.IsAlwaysCallable resolver.old.predicate }
    requires readable { IsReadableEnd btf.now.strings readable_end }
    ensures callable { F.IsAlwaysCallable resolver.new.predicate }
    ensures called { CallsFurther F.step resolver.old resolver.new }
    ensures further { IsFurther resolver.old.answers resolver.new.answers }
    ensures asks { AsksFunc btf.now func.now resolver.old.answers resolver.new.answers }
    ensures steps { StepsFunc btf.now func.now resolver.old.answers
        resolver.new.answers result }
{
    let name_offset = func.name_offset();
    btf.check_name(name_offset, readable_end)?;
    if !resolver.is_supported(BtfFeature::Func) {
        return Ok(Outcome::Denied);
    }
    let FuncLinkage::Global = func.linkage() else {
        return Ok(Outcome::Same);
    };
    if is_builtin(btf.strings_from(name_offset)) {
        return Ok(Outcome::Other(BtfType::Func(make_static(func)?)));
    }
    if resolver.is_supported(BtfFeature::FuncGlobal) {
        return Ok(Outcome::Same);
    }
    Ok(Outcome::Other(BtfType::Func(make_static(func)?)))
}

/// Whether the name at the front of these strings is the name of a function that compilers emit as Global, and that
/// kernels require to be Static. No byte after such a name and its zero byte is read, however long the strings are.
fn is_builtin(strings: &[u8]) -> bool
    ensures { result ≡ begins_builtin strings.now }
{
    strings.starts_with(b"memset\0")
        || strings.starts_with(b"memcpy\0")
        || strings.starts_with(b"memmove\0")
        || strings.starts_with(b"memcmp\0")
}

/// The function with Static linkage.
fn make_static(func: &Func) -> Result<Func, AllocError>
    ensures { IfOk result (λ r. r ≡ with_linkage 0 func.now) }
{
    let mut func = func.clone()?;
    func.set_linkage(FuncLinkage::Static);
    Ok(func)
}

/// The function with Global linkage.
pub fn global(func: &Func) -> Result<Func, AllocError>
    ensures { IfOk result (λ r. r ≡ with_linkage 1 func.now) }
{
    let mut global = func.clone()?;
    global.set_linkage(FuncLinkage::Global);
    Ok(global)
}
