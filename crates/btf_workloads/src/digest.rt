//! The results of a job, as one number.

use btf::BtfError;

/// A digest of numbers and bytes in their order.
#[derive(Drop)]
pub struct Digest {
    low: u64,
    high: u64,
}

/// Adds a number to a lane.
fn mixed(lane: u64, number: u64) -> u64 {
    (lane ^ number)
        .wrapping_mul(0x9fb2_1c65_1e98_df25)
        .rotate_left(29)
}

impl Digest {
    pub fn new() -> Self {
        Digest { low: 1, high: 2 }
    }

    pub fn add(&mut self, number: u64) {
        self.low = mixed(self.low, number);
    }

    /// Adds a number, or that there was an error.
    pub fn add_found<T>(&mut self, found: Result<T, BtfError>)
    where
        u64: From<T>,
    {
        match found {
            Ok(number) => self.add(u64::from(number)),
            Err(_) => self.add(u64::MAX),
        }
    }

    /// Adds bytes and their number: 16 at a time, in two lanes, so that a digest costs little.
    pub fn add_bytes(&mut self, bytes: &[u8]) {
        let (chunks, rest) = bytes.as_chunks::<16>();
        for chunk in chunks {
            let number = u128::from_le_bytes(*chunk);
            self.low = mixed(self.low, (number & 0xffff_ffff_ffff_ffff) as u64);
            self.high = mixed(self.high, (number >> 64) as u64);
        }
        self.add_rest(rest);
        self.add(bytes.len() as u64);
    }

    fn add_rest(&mut self, bytes: &[u8]) {
        for byte in bytes {
            self.high = mixed(self.high, u64::from(*byte));
        }
    }

    /// The digest of all that was added.
    pub fn value(&self) -> u64 {
        mixed(self.low, self.high)
    }
}
