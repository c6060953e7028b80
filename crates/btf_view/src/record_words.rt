//! A record in the bytes of a view.

ghost use Rattle.std.specs.Prelude.{◌≡◌, ◌*◌, ◌≤◌, length, Some};
ghost use Rattle.btf_model.specs.Record.{kind_of, vlen, tail_words};
ghost use Rattle.btf_plain.specs.Kind as kinds;

use crate::length::words_after;
use crate::record::{head_at, kind_of_head, tail_at, word_at};
use btf_plain::{BtfKind, Endianness, Head};

/// A record in the bytes of a view: its kind, its first three words, and the bytes after them.
#[derive(Clone, Copy)]
pub struct RecordWords<'a> {
    kind: BtfKind,
    head: Head,
    endianness: Endianness,
    tail: &'a [u8],
    ghost has_kind: { kind_of head.info ≡ Some (kinds.kind kind) },
    ghost long: { 4 * tail_words (kinds.kind kind) (vlen head.info) ≤ length tail.now },
}

impl<'a> RecordWords<'a> {
    ghost use Rattle.std.specs.Prelude.{◌≡◌, ℕ, Some, slice_get};
    ghost use Rattle.std.specs.Option.{option_map};
    ghost use Rattle.btf_model.specs.Record.{Record};
    ghost use Rattle.btf_view.specs.Places.{IsRecordAt};
    ghost use Rattle.btf_view.specs.TypeRef.{record_of_words};

    /// The record at a place of a type section.
    pub(crate) fn at(types: &'a [u8], place: u32, endianness: Endianness) -> Option<RecordWords<'a>>
        ensures { (r : Record) → IsRecordAt endianness types.now place r
            → option_map record_of_words result ≡ Some r }
    {
        let head = head_at(types, place, endianness);
        let Some(kind) = kind_of_head(&head) else {
            return None;
        };
        let tail = tail_at(types, place, endianness);
        if tail.len() < 4 * words_after(kind, head.vlen()) {
            return None;
        }
        Some(RecordWords {
            kind,
            head,
            endianness,
            tail,
        })
    }

    /// The kind.
    pub(crate) fn kind(&self) -> BtfKind
        ensures info { kind_of (record_of_words self.now).info ≡ Some (kinds.kind result) }
        ensures tail { length (record_of_words self.now).tail
            ≡ tail_words (kinds.kind result) (vlen (record_of_words self.now).info) }
    {
        self.kind
    }

    /// The first three words.
    pub(crate) fn head(&self) -> Head
        ensures { result ≡ self.now.head }
    {
        self.head
    }

    /// The word at an index of those after the third. Reading retains the linkages of a VAR up to 2, and 3 for others.
    pub(crate) fn word(&self, index: usize) -> Option<u32>
        ensures { result ≡ slice_get (record_of_words self.now).tail index }
    {
        if index >= words_after(self.kind, self.head.vlen()) {
            return None;
        }
        let word = word_at(self.tail, 4 * index, self.endianness);
        match self.kind {
            BtfKind::Var => Some(word.min(3)),
            _ => Some(word),
        }
    }
}
