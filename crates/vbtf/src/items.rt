//! The items of a type, as words.

ghost use Rattle.std.specs.Prelude.{◌≡◌, ◌≢◌, ◌*◌, ◌≤◌, length, take};
ghost use Rattle.std.specs.List.{flat_map};
ghost use Rattle.btf_plain.specs.Error.{Meets};
ghost use Rattle.btf_records.specs.BtfType.{record_of, type_kind};
ghost use Rattle.vbtf.specs.Items.{IsGroup, IsItem, ItemOf};
ghost use Rattle.vbtf.specs.Status.{EndsFinding, KeepsHandle};

use crate::fault::{CLOSED, Fault, NO_ITEM, report};
use crate::handle::Handle;
use crate::taken::take_loan;
use btf::{Btf, BtfError, BtfType};
use btf_plain::Item as Listed;

/// An item of a type: a member, a parameter, a variant, an entry, or the words that the record has after its head.
#[repr(C)]
#[derive(Drop)]
pub struct Item {
    /// The info word of the type.
    pub info: u32,
    /// The number of words of the item.
    pub count: u32,
    /// The words of the item, in the order of the record. Those after them are 0.
    pub words: [u32; 3],
}

/// At most three words.
#[derive(Drop)]
pub struct Words {
    /// The number of words.
    pub(crate) count: u32,
    /// The words. Those after them are 0.
    pub(crate) words: [u32; 3],
}

/// An item of a type, by its index from 0 on.
///
/// A STRUCT and a UNION have members (name offset, type, offset), an ENUM has variants (name offset, value), an ENUM64
/// has variants (name offset, low half, high half), a FUNC_PROTO has parameters (name offset, type), and a DATASEC has
/// entries (type, offset, size). For these kinds, vlen is the number of items. The following kinds have one item: INT
/// (data word), ARRAY (element type, index type, length), VAR (linkage) and DECL_TAG (component index). The other kinds
/// have none.
///
/// Status 9 if no type has the id, 103 if the type has no item of the index, and 101 if the handle's state is
/// not 2.
#[unsafe(no_mangle)]
pub extern "C" fn vbtf_lent_item(
    table: &mut Handle,
    id: u32,
    index: u32,
    item: &mut Item,
    fault: &mut Fault,
) -> u32
    ensures found { table.old.state ≡ 2 → EndsFinding result item.new fault.new
        (ItemOf table.old.opened.btf.records id index) }
    ensures closed { table.old.state ≢ 2 → result ≡ CLOSED }
    ensures kept { KeepsHandle table.old table.new }
{
    let Some(loan) = take_loan(table) else {
        return CLOSED;
    };
    let answer = item_of(&loan.get().btf, id, index);
    *table = Handle::from_loan(loan);
    match answer {
        Ok(Some(found)) => {
            *item = found;
            0
        }
        Ok(None) => NO_ITEM,
        Err(error) => report(error, fault),
    }
}

/// The item of an index of the type of an id.
fn item_of(table: &Btf, id: u32, index: u32) -> Result<Option<Item>, BtfError>
    ensures { Meets (λ item. item) result (ItemOf table.now.records id index) }
{
    let btf_type = table.type_by_id(id)?;
    let info = btf_type.info();
    let Some(found) = words_of(btf_type, index as usize) else {
        return Ok(None);
    };
    let words = found.words;
    let count = found.count;
    Ok(Some(Item { info, count, words }))
}

/// The words of the item of an index of a type.
fn words_of(btf_type: &BtfType, index: usize) -> Option<Words>
    ensures { IsItem (type_kind btf_type.now) (record_of btf_type.now) index result }
{
    match btf_type {
        BtfType::Int(t) => only(1, [t.word(), 0, 0], index),
        BtfType::Array(t) => {
            let array = t.array();
            only(3, [array.element_type, array.index_type, array.len], index)
        }
        BtfType::Struct(t) => nth(t.members(), index),
        BtfType::Union(t) => nth(t.members(), index),
        BtfType::Enum(t) => nth(t.variants(), index),
        BtfType::FuncProto(t) => nth(t.params(), index),
        BtfType::Var(t) => only(1, [t.linkage() as u32, 0, 0], index),
        BtfType::DataSec(t) => nth(t.entries(), index),
        BtfType::DeclTag(t) => only(1, [t.component_index().cast_unsigned(), 0, 0], index),
        BtfType::Enum64(t) => nth(t.variants(), index),
        BtfType::Unknown
        | BtfType::Ptr(_)
        | BtfType::Fwd(_)
        | BtfType::Typedef(_)
        | BtfType::Volatile(_)
        | BtfType::Const(_)
        | BtfType::Restrict(_)
        | BtfType::Func(_)
        | BtfType::Float(_)
        | BtfType::TypeTag(_) => None,
    }
}

/// The words of an item of a list.
fn nth<T: Listed>(items: &[T], index: usize) -> Option<Words>
    ensures { IsGroup T.WIDTH (T.WIDTH * length items.now) (flat_map T.item_words items.now)
        index result }
{
    match items.get(index) {
        Some(item) => Some(Words {
            count: T::WIDTH as u32,
            words: item.words(),
        }),
        None => None,
    }
}

/// The words of the only item of a type.
fn only(count: u32, words: [u32; 3], index: usize) -> Option<Words>
    requires some { 1 ≤ count }
    requires few { count ≤ 3 }
    ensures { IsGroup count count (take count words) index result }
{
    if index == 0 {
        Some(Words { count, words })
    } else {
        None
    }
}
