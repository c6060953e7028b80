//! The names that DATASECs get in a rewrite.

ghost use Rattle.std.specs.Prelude.{◌≡◌, ◌↔◌, if◌then◌else◌, Some, IfOk, OnOk, IsTrue, string_bytes};
ghost use Rattle.std.specs.BTreeMap.{get};
ghost use Rattle.std.specs.Ordering.{nat_cmp};
ghost use Rattle.btf_rewrite_model.specs.Pass.{has, replaced, slash, dot, underscore_byte};
ghost use Rattle.btf_table.specs.Adding.{HasRoom};
ghost use Rattle.btf_table.specs.ReadNames.{AreUnchanged};
ghost use Rattle.btf_table.specs.SectionAnswers.{AddsName, IsNewName};

use crate::sanitize::read_names::LONG_NAME;
use crate::table::{Btf, Changes};
use btf_plain::BtfError;
use btf_records::DataSec;
use std::alloc::{AllocError, Global};
use std::collections::BTreeMap;

/// The string offset of the new name of a DATASEC. On a kernel that has DATASECs, `.` replaces each `/`; otherwise the
/// DATASEC becomes a STRUCT, and `_` replaces each `.`. A text is appended only if the name changes. `kept` caches long
/// names that do not change, so that each is read once.
///
/// Fails with `InvalidStringOffset` if the name can't be read, or if the new name does not fit.
pub fn new_name(
    btf: &Btf,
    changes: &mut Changes,
    kept: &mut BTreeMap<u32, bool>,
    data_sec: &DataSec,
    granted: bool,
) -> Result<u32, BtfError>
    requires room { HasRoom btf.now changes.old }
    requires kept { AreUnchanged btf.now.strings kept.old }
    ensures answer { IsNewName btf.now changes.old data_sec.now granted result }
    ensures adds { AddsName btf.now data_sec.now granted changes.old changes.new result }
    ensures kept { OnOk result (AreUnchanged btf.now.strings kept.new) }
{
    let offset = data_sec.name_offset();
    if is_kept(kept, offset, granted) {
        return Ok(offset);
    }
    let name = btf.string_at(offset)?;
    let renamed = section_name(btf.allocator(), name.as_str(), granted)?;
    if renamed.as_str() == name.as_str() {
        if name.as_str().len() > LONG_NAME {
            kept.insert(offset, granted)?;
        }
        return Ok(offset);
    }
    changes.append_text(btf, renamed.as_str())
}

/// Whether the cache records that a DATASEC retains the name at this offset, on a kernel that has DATASECs or has none.
fn is_kept(kept: &BTreeMap<u32, bool>, offset: u32, granted: bool) -> bool
    ensures { IsTrue result ↔ (get nat_cmp kept.now offset ≡ Some granted) }
{
    match kept.get(&offset) {
        Some(known) => *known == granted,
        None => false,
    }
}

/// The new name of a DATASEC of this name. On a kernel that has DATASECs, `.` replaces each `/`, because kernels refuse
/// `/` there. Otherwise the DATASEC becomes a STRUCT, and `_` replaces each `.`, because no C name has a `.`.
fn section_name(alloc: Global, name: &str, granted: bool) -> Result<String, AllocError>
    ensures { IfOk result (λ text. string_bytes text ≡ if granted then replaced slash dot name.now
        else replaced dot underscore_byte name.now) }
{
    if granted {
        name.replace(alloc, '/', ".")
    } else {
        name.replace(alloc, '.', "_")
    }
}
