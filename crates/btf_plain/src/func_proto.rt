//! FUNC_PROTO: a function prototype.

ghost use Rattle.std.specs.Prelude.{◌≡◌, ◌+◌, ◌*◌, ◌≤◌, length, vec_len, ◌++◌, ◌<◌, ◌∷◌, Ok, take, drop, refl};
ghost use Rattle.std.specs.List.{flat_map};
ghost use Rattle.btf_model.specs.Record.{vlen};
ghost use Rattle.btf_model.specs.Made as made;
ghost use Rattle.btf_plain.specs.Error.{IsOrNoMemory};
ghost use Rattle.btf_plain.specs.Items.{param_words};
ghost use Rattle.btf_plain.specs.declared.kind.BtfKind.TheVariants.{FuncProto};

use crate::enumeration::Enum;
use crate::error::BtfError;
use crate::item_list::{ItemList, as_variants};
use crate::items::BtfParam;
use crate::kind::BtfKind;
use crate::list::MAX_VLEN;
use crate::record::{Kind, Record};

/// The kind FUNC_PROTO.
pub struct FuncProtoKind;

impl Kind for FuncProtoKind {
    type Tail = ItemList<BtfParam, 6>;

    const KIND: BtfKind = BtfKind::FuncProto;

    ghost KIND = { FuncProto };

    ghost tail_number = { λ _. refl };

    ghost is_kept = { λ _. refl };
}

/// A function prototype (the kernel's documentation, "BTF_KIND_FUNC_PROTO").
pub type FuncProto = Record<FuncProtoKind>;

impl Record<FuncProtoKind> {
    /// A prototype with these parameters and no name. There are at most `MAX_VLEN` parameters.
    pub fn new(params: Vec<BtfParam>, return_type: u32) -> Self
        requires { vec_len params ≤ MAX_VLEN }
        ensures { result ≡ made.func_proto return_type (vec_len params)
            (flat_map param_words params.items) }
    {
        let items = ItemList::from_vec(params);
        Self::listing(BtfKind::FuncProto as u32, 0, false, return_type, items)
    }

    /// The id of the return type; 0 if the function returns nothing.
    pub fn return_type(&self) -> u32
        ensures { result ≡ self.now.third }
    {
        self.head.third
    }

    /// The parameters, in order.
    pub fn params(&self) -> &[BtfParam]
        ensures words { self.now.tail ≡ flat_map param_words result.now }
        ensures count { vlen self.now.info ≡ length result.now }
    {
        self.items()
    }

    /// Sets the string offset of a parameter's name, and changes nothing else.
    pub fn set_param_name(&mut self, index: usize, name_offset: u32)
        requires { index < vlen self.old.info }
        ensures { self.new ≡ record self.old {
          tail = take (2 * index) self.old.tail ++ name_offset ∷ drop (2 * index + 1) self.old.tail;
        } }
    {
        let btf_type = self.tail.as_slice()[index].btf_type;
        let named = BtfParam {
            name_offset,
            btf_type,
        };
        self.tail.set(index, named);
    }
}

/// The prototype as an unsigned ENUM of 4 bytes: each parameter becomes a variant with the parameter's name, whose
/// value is the parameter's type. A few are converted without an allocation.
pub fn as_enum(proto: &FuncProto) -> Result<Enum, BtfError>
    ensures { IsOrNoMemory (λ r. r) result
        (Ok (made.enum proto.now.name (vlen proto.now.info) proto.now.tail)) }
{
    let variants = as_variants(&proto.tail)?;
    let name = proto.head.name;
    Ok(Enum::listing(BtfKind::Enum as u32, name, false, 4, variants))
}
