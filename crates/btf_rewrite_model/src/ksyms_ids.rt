//! The ids of a program's `.ksyms`.

/// The ids of a program's `.ksyms`: the id of the DATASEC, and the id of the VAR that replaces functions in it, if
/// there is one.
#[derive(Clone, Copy, Debug, Eq, PartialEq)]
pub struct KsymsIds {
    pub datasec_id: u32,
    pub placeholder_id: Option<u32>,
}
