//! The linkages of functions and variables: whether other object files see them.

ghost use Rattle.std.specs.Prelude.{◌≡◌};
ghost use Rattle.btf_plain.specs.Linkage.{func_linkage_number, func_linkage_of, var_linkage_number, var_linkage_of};

/// The linkage of a function, as in the kernel's documentation, "BTF_KIND_FUNC".
#[derive(Clone, Debug, Eq, PartialEq, Drop)]
pub enum FuncLinkage {
    /// Visible only in its own object file.
    Static = 0,
    /// Visible in other object files.
    Global = 1,
    /// Defined in another object file.
    Extern = 2,
    /// A linkage that has no name.
    Unknown = 3,
}

impl FuncLinkage {
    /// The number of the linkage.
    pub(crate) fn number(self) -> u32
        ensures { result ≡ func_linkage_number self }
    {
        self as u32
    }
}

impl From<u32> for FuncLinkage {
    ghost from_gives = { λ number linkage. linkage ≡ func_linkage_of number };

    /// The linkage of a number. Numbers other than 0, 1 and 2 are `Unknown`.
    fn from(number: u32) -> Self {
        match number {
            0 => FuncLinkage::Static,
            1 => FuncLinkage::Global,
            2 => FuncLinkage::Extern,
            _ => FuncLinkage::Unknown,
        }
    }
}

/// The linkage of a variable, as in the kernel's documentation, "BTF_KIND_VAR".
#[derive(Clone, Debug, Eq, PartialEq, Drop)]
pub enum VarLinkage {
    /// Visible only in its own object file.
    Static = 0,
    /// Visible in other object files.
    Global = 1,
    /// Defined in another object file.
    Extern = 2,
    /// A linkage that has no name.
    Unknown = 3,
}

impl VarLinkage {
    /// The number of the linkage.
    pub(crate) fn number(self) -> u32
        ensures { result ≡ var_linkage_number self }
    {
        self as u32
    }
}

impl From<u32> for VarLinkage {
    ghost from_gives = { λ number linkage. linkage ≡ var_linkage_of number };

    /// The linkage of a number. Numbers other than 0, 1 and 2 are `Unknown`.
    fn from(number: u32) -> Self {
        match number {
            0 => VarLinkage::Static,
            1 => VarLinkage::Global,
            2 => VarLinkage::Extern,
            _ => VarLinkage::Unknown,
        }
    }
}
