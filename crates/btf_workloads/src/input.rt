//! Bytes that change from one call to the next, so that no call gets the same input twice.

use crate::random::Random;
use std::alloc::Global;
use std::test::Fail;

/// Bytes, and the positions of the bytes that may have any value.
#[derive(Drop)]
pub struct Input {
    pub bytes: Vec<u8>,
    places: Vec<usize>,
}

impl Input {
    pub fn new(bytes: Vec<u8>, places: Vec<usize>) -> Self {
        Input { bytes, places }
    }

    /// Changes the bytes at all positions.
    pub fn change(&mut self, random: &mut Random) {
        for place in &self.places {
            if let Some(byte) = self.bytes.get_mut(*place) {
                *byte = random.byte();
            }
        }
    }
}

/// The positions of one in this number of numbers.
pub fn some_places(alloc: Global, all: &[usize], step: u32) -> Result<Vec<usize>, Fail> {
    let mut places = Vec::new(alloc);
    let mut number = 0u32;
    for place in all {
        if number % step.max(1) == 0 {
            places.push(*place)?;
        }
        number = number.wrapping_add(1);
    }
    Ok(places)
}
