//! The comparison of two types.

ghost use Rattle.btf_plain.specs.Error.{MeetsOrNoMemory};
ghost use Rattle.btf_compare.specs.Compared.{ComparesTypes, ComparesTraced, GainsStarts};
ghost use Rattle.btf_compare.specs.Pairs.{id_pair};

use crate::run::{Untraced, compare};
use btf_plain::BtfError;
use btf_table::Btf;

/// Whether two types are compatible, each in its own table. The rules are libbpf's. The kinds of the two ids must be
/// equal before modifiers are resolved, and again after; ENUM and ENUM64 count as one kind. After modifiers:
///
/// - structures, unions, enumerations, forward declarations, floating-point numbers and the type of id 0 are compatible
///   if their kinds are equal;
/// - integers are compatible if both begin at bit 0;
/// - pointers are compatible if the types that they point to are, and arrays if their element types are;
/// - prototypes are compatible if they have the same number of parameters, each pair of parameter types is compatible,
///   and then the return types are.
///
/// Names and sizes don't count.
///
/// The first difference or error in this order decides the result. The errors are:
///
/// - `UnknownBtfType` of an id that has no type, the local side first, and otherwise the errors of `resolve_type`, at
///   each position, and at each parameter when the comparison reaches it;
/// - `UnexpectedBtfType` of the local id at two variables, functions, sections or declaration tags;
/// - `MaximumTypeDepthReached` of the local id that would come next after 32 positions (the count begins anew at each
///   pair of parameter types), and of the local id of a pair of parameter types that the comparison meets again before
///   it has finished that pair, as in a cycle;
/// - `OutOfMemory` if an allocation fails.
///
/// The function does not recurse, however deep the types nest. It walks no pair of ids twice: this is not proved, but
/// is evident in the code and measured by a test. The list of the traced call has each pair once, which is proved.
pub fn types_are_compatible(
    local: &Btf,
    local_id: u32,
    target: &Btf,
    target_id: u32,
) -> Result<bool, BtfError>
    ensures { MeetsOrNoMemory (λ b. b) result
        (ComparesTypes local.now target.now (id_pair local_id target_id)) }
{
    compare(local, target, (local_id, target_id), &mut Untraced)
}

/// Returns the same answer as `types_are_compatible`, and appends each pair of ids that the comparison starts to the
/// list, the local id first, in the order of the starts. The comparison starts the pair of the call, if both of its ids
/// are known. It starts a pair of resolved parameter types unless the pair is still open or is known to be compatible.
///
/// So no pair is added twice, and earlier elements of the list stay. After an error the list has the pairs that were
/// started until then. After `OutOfMemory` it has a prefix of the pairs that would be added with enough memory.
pub fn types_are_compatible_traced(
    local: &Btf,
    local_id: u32,
    target: &Btf,
    target_id: u32,
    starts: &mut Vec<(u32, u32)>,
) -> Result<bool, BtfError>
    // The answer of the recursion without a record, and the pairs that it starts, each at its first occurrence.
    ensures traces { ComparesTraced local.now target.now (id_pair local_id target_id) result
        starts.old.items starts.new.items }
    // Whatever the result: each added pair has known ids, and no pair is added twice.
    ensures starts { GainsStarts local.now target.now starts.old.items starts.new.items }
{
    compare(local, target, (local_id, target_id), starts)
}
