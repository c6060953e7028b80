//! Places in a type.

/// A place in a type that a path leads to: the type itself, an element of an array, or a member.
#[derive(Clone, Copy, Debug, PartialEq, Eq)]
pub struct Field {
    /// The id of the type at the place.
    pub type_id: u32,
    /// The first bit, counted from the beginning of the outermost type.
    pub bit: u32,
    /// The number of bits of a bit-field, else 0.
    pub bits: u32,
    /// Whether the last named step of the path is a member.
    pub is_member: bool,
    /// Whether this member is the last one of its type.
    pub is_last: bool,
}

/// A load that reads a field, and where the field is in the loaded number.
#[derive(Clone, Copy, Debug, PartialEq, Eq)]
pub struct Load {
    /// The first byte.
    pub offset: u32,
    /// The number of bytes.
    pub size: u32,
    /// The bits of the loaded number before the field.
    pub start: u32,
    /// The bits of the field.
    pub bits: u64,
}

/// The value of a field, and the size that a load or store of the field has.
#[derive(Clone, Copy, Debug, PartialEq, Eq)]
pub struct Value {
    /// The value.
    pub value: u64,
    /// The size in bytes; 0 if the kind has none, and for a bit-field.
    pub size: u32,
    /// The id of the type that has the size; 0 if there is none.
    pub type_id: u32,
}
