//! The places of sections in the file.

ghost use Rattle.std.specs.Prelude.{◌≡◌, count_by, nat_lt, IfOk, IfSome, IfNone, OnOk};
ghost use Rattle.std.specs.List.Sorted.{IsNonDecreasing};
ghost use Rattle.btf_loader_model.specs.Refused.{shares_place};
ghost use Rattle.btf_loader.specs.Places.{has_byte, IsPlace, HasNoPlace, HasPlaces, AddsPlaces};

use crate::names::has_bytes;
use btf_elf::{Object, SectionHeader};
use std::alloc::{AllocError, Global};

/// Whether a section has a byte in the file.
fn is_placed(section: &SectionHeader) -> bool
    ensures { result ≡ has_byte section.now }
{
    has_bytes(section) && section.size > 0
}

/// The start and the end of the section of an index in the file; None if it has no byte there.
fn place_of(object: &Object<'_>, index: usize) -> Option<(u64, u64)>
    ensures some { IfSome result (λ place. IsPlace object.now.sections index place.0 place.1) }
    ensures none { IfNone result (HasNoPlace object.now.sections index) }
{
    // The sections of an object are in the file, which this shows.
    let _len = object.bytes().len();
    let section = object.sections().get(index)?;
    if !is_placed(section) {
        return None;
    }
    Some((section.offset, section.offset + section.size))
}

/// How many of rising numbers are below a bound.
fn count_below(numbers: &[u64], bound: u64) -> usize
    requires { IsNonDecreasing numbers.now }
    ensures { result ≡ count_by (λ n. nat_lt n bound) numbers.now }
{
    numbers.partition_point(|number| *number < bound)
}

/// Where the bytes of an object's sections are in the file.
#[derive(Drop)]
pub struct Places {
    /// The first byte of each section that has one, in rising order.
    starts: Vec<u64>,
    /// The end of each section that has a byte, in rising order.
    ends: Vec<u64>,
}

impl Places {
    /// The places of an object's sections.
    pub fn read(alloc: Global, object: &Object<'_>) -> Result<Places, AllocError>
        ensures { IfOk result (λ places. HasPlaces places object.now.sections) }
    {
        let mut places = Places {
            starts: Vec::new(alloc),
            ends: Vec::new(alloc),
        };
        for index in 0..object.sections().len() {
            places.add(object, index)?;
        }
        places.starts.sort_unstable();
        places.ends.sort_unstable();
        Ok(places)
    }

    /// Adds the section of an index, if it has a byte.
    fn add(&mut self, object: &Object<'_>, index: usize) -> Result<(), AllocError>
        ensures { OnOk result (AddsPlaces object.now.sections index self.old self.new) }
    {
        if let Some((start, end)) = place_of(object, index) {
            self.starts.push(start)?;
            self.ends.push(end)?;
        }
        Ok(())
    }

    /// Whether the section of an index shares its place with another section: more sections begin before its end than
    /// end at its start or before it, apart from itself.
    pub fn is_shared(&self, object: &Object<'_>, index: usize) -> bool
        requires { HasPlaces self.now object.now.sections }
        ensures { result ≡ shares_place object.now.sections index }
    {
        let Some((start, end)) = place_of(object, index) else {
            return false;
        };
        count_below(&self.starts, end) > count_below(&self.ends, start + 1) + 1
    }
}
