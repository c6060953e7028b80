//! Who reads the table of a rewritten object.

/// Who reads the table of a rewritten object.
#[derive(Clone, Copy, Debug, PartialEq, Eq)]
pub enum TableReader {
    /// A kernel. Externs are as a loader has them when it has opened the object: Global, with their sizes and offsets.
    Kernel,
    /// Loaders, which open the object. Externs are as the compiler wrote them, because a loader recognizes an extern by
    /// its Extern linkage. A loader determines their sizes and offsets itself.
    Loaders,
}
