//! Versions of Linux.

/// A version of Linux: its first two numbers.
#[derive(Clone, Copy, Debug, PartialEq, Eq)]
pub struct Version {
    /// The first number: 5 of `5.15.0`.
    pub major: u32,
    /// The second number: 15 of `5.15.0`.
    pub minor: u32,
}
