//! Finding the records of a blob, in one pass.

ghost use Rattle.std.specs.Prelude.{◌≡◌, ◌≤◌, length, set};
ghost use Rattle.btf_view.specs.Index.{FillsPlaces, IndexesBlob};

use crate::length::record_len;
use btf_plain::{BtfError, Endianness};
use btf_table::{Header, section};
use thiserror::Error;

/// What a pass over a blob finds: the header's values, where both sections are in the blob, and the number of types.
#[derive(Clone, Copy)]
pub struct Sections {
    /// The magic of the header, which is not checked.
    pub magic: u16,
    /// The version of the header, which is not checked.
    pub version: u8,
    /// The flags of the header, which are not checked.
    pub flags: u8,
    /// The offset of the type section in the blob.
    pub types_at: usize,
    /// The length of the type section in bytes.
    pub types_len: usize,
    /// The offset of the string section in the blob.
    pub strings_at: usize,
    /// The length of the string section in bytes.
    pub strings_len: usize,
    /// The number of types, including the type of id 0; each has a place.
    pub count: usize,
}

/// Why a blob has no index.
#[derive(Debug, Drop, Error)]
pub enum Unindexed {
    /// The blob represents no table.
    #[error("{0}")]
    Refused(BtfError),
    /// There are fewer places than types. A type section of n bytes needs at most n / 12 + 1 places.
    #[error("too few places for the types")]
    TooFewPlaces,
}

/// Finds where the records of a blob begin, whose words are in this byte order, and writes their places in the type
/// section to `places`, by their ids. The place of id 0, which has no bytes, is the end of the section.
///
/// Fails with the first error of `Btf::parse` if the blob represents no table. Fails with `TooFewPlaces` exactly if the
/// blob represents a table with more types, the one of id 0 among them, than there are places. After an error the places
/// have no meaning.
pub fn index(data: &[u8], endianness: Endianness, places: &mut [u32]) -> Result<Sections, Unindexed>
    ensures { IndexesBlob endianness «data».now places.new result }
{
    let header = match Header::read(data, endianness) {
        Ok(header) => header,
        Err(error) => return Err(Unindexed::Refused(error)),
    };
    let (hdr_len, strings, types) = (header.hdr_len, header.str_off, header.type_off);
    let Some(_) = section(data, hdr_len, strings, header.str_len) else {
        return Err(Unindexed::Refused(BtfError::InvalidHeader));
    };
    let Some(records) = section(data, hdr_len, types, header.type_len) else {
        return Err(Unindexed::Refused(BtfError::InvalidTypeInfo));
    };
    let count = match fill_places(records, endianness, places) {
        Ok(count) => count,
        Err(why) => return Err(why),
    };
    Ok(Sections {
        magic: header.magic,
        version: header.version,
        flags: header.flags,
        types_at: hdr_len as usize + types as usize,
        types_len: header.type_len as usize,
        strings_at: hdr_len as usize + strings as usize,
        strings_len: header.str_len as usize,
        count,
    })
}

/// Writes the place of each record of a type section, after the place of id 0, and returns the number of places.
fn fill_places(types: &[u8], endianness: Endianness, places: &mut [u32]) -> Result<usize, Unindexed>
    requires { length types.now ≤ u32.MAX }
    ensures { FillsPlaces endianness types.now places.new result }
{
    put_place(places, 0, types.len());
    let mut count = 1;
    let mut at = 0;
    while at < types.len() {
        let len = match record_len(&types[at..], endianness) {
            Ok(len) => len,
            Err(error) => return Err(Unindexed::Refused(error)),
        };
        put_place(places, count, at);
        count += 1;
        at += len;
    }
    if places.len() < count {
        return Err(Unindexed::TooFewPlaces);
    }
    Ok(count)
}

/// Writes the place of a type, if its id has one.
#[inline(always)]
fn put_place(places: &mut [u32], id: usize, place: usize)
    requires { place ≤ u32.MAX }
    ensures { places.new ≡ set places.old id place }
{
    if id < places.len() {
        places[id] = place as u32;
    }
}
