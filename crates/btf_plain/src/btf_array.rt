//! The words of an array after the third.

/// The element type, the index type and the length of an array, as in the kernel's documentation, "BTF_KIND_ARRAY",
/// `struct btf_array`.
#[derive(Clone, Debug, Drop)]
pub struct BtfArray {
    /// The id of the type of an element.
    pub element_type: u32,
    /// The id of the type of an index.
    pub index_type: u32,
    /// The number of elements.
    pub len: u32,
}
