//! DATASEC: a data section, with its variables as entries.

ghost use Rattle.std.specs.Prelude.{◌≡◌, ◌+◌, ◌*◌, ◌≤◌, length, vec_len, ◌++◌, ◌<◌, take, drop, refl};
ghost use Rattle.std.specs.List.{flat_map};
ghost use Rattle.btf_model.specs.Record.{vlen};
ghost use Rattle.btf_model.specs.Made as made;
ghost use Rattle.btf_plain.specs.Items.{code_entry_words};
ghost use Rattle.btf_plain.specs.declared.kind.BtfKind.TheVariants.{DataSec};

use crate::item_list::ItemList;
use crate::items::DataSecEntry;
use crate::kind::BtfKind;
use crate::list::MAX_VLEN;
use crate::record::{Kind, Measured, Record};

/// The kind DATASEC.
pub struct DataSecKind;

impl Kind for DataSecKind {
    type Tail = ItemList<DataSecEntry, 4>;

    const KIND: BtfKind = BtfKind::DataSec;

    ghost KIND = { DataSec };

    ghost tail_number = { λ _. refl };

    ghost is_kept = { λ _. refl };
}

impl Measured for DataSecKind {}

/// A data section, with its variables as entries (the kernel's documentation, "BTF_KIND_DATASEC").
pub type DataSec = Record<DataSecKind>;

impl Record<DataSecKind> {
    /// A section of `size` bytes with these entries. There are at most `MAX_VLEN` of them.
    pub fn new(name_offset: u32, entries: Vec<DataSecEntry>, size: u32) -> Self
        requires { vec_len entries ≤ MAX_VLEN }
        ensures { result ≡ made.data_sec name_offset size (vec_len entries)
            (flat_map code_entry_words entries.items) }
    {
        let items = ItemList::from_vec(entries);
        Self::listing(BtfKind::DataSec as u32, name_offset, false, size, items)
    }

    /// The entries, in order.
    pub fn entries(&self) -> &[DataSecEntry]
        ensures words { self.now.tail ≡ flat_map code_entry_words result.now }
        ensures count { vlen self.now.info ≡ length result.now }
    {
        self.items()
    }

    /// Sets the size of the section in bytes, and changes nothing else.
    pub fn set_size(&mut self, size: u32)
        ensures { self.new ≡ record self.old { third = size } }
    {
        self.head.third = size;
    }

    /// Replaces the entry at an index.
    pub fn set_entry(&mut self, index: usize, entry: DataSecEntry)
        requires { index < vlen self.old.info }
        ensures { self.new ≡ record self.old {
          tail = take (3 * index) self.old.tail ++ code_entry_words entry
              ++ drop (3 * index + 3) self.old.tail;
        } }
    {
        self.tail.set(index, entry);
    }
}
