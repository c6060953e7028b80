//! Essential names.

ghost use Rattle.std.specs.Prelude.{◌≡◌};
ghost use Rattle.btf_relocate_model.specs.Name.{essential};

/// The part of a type's or an enumerator's name that counts when the target is searched: the name without its last
/// flavor. A flavor begins with three underscores between two bytes that are no underscores. So the essential name of
/// `task_struct___v2` is `task_struct`, that of `a___b___c` is `a___b`, and `a____b` has no flavor.
///
/// The source is libbpf's `bpf_core_essential_name_len`. `aya-obj`, and `fields_are_compatible` of this library, cut a
/// name at its first three underscores.
pub fn essential_name(name: &[u8]) -> &[u8]
    ensures { result.now ≡ essential name.now }
{
    // A flavor is four bytes long at least.
    for last in (0..name.len().saturating_sub(4)).rev() {
        // A flavor begins after the byte at this place.
        if let [before, b'_', b'_', b'_', after, ..] = &name[last..]
            && *before != b'_'
            && *after != b'_'
        {
            return &name[..last + 1];
        }
    }
    name
}
