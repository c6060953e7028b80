//! Access strings.

ghost use Rattle.std.specs.Prelude.{◌≡◌};
ghost use Rattle.btf_relocate_model.specs.Access.{index_of};

use arrayvec::ArrayVec;
use btf_relocate_model::RelocationError;
use std::marker::Model;

/// The maximum number of indices of an access.
const ACCESS_LIMIT: usize = 64;

/// The greatest index.
const INDEX_LIMIT: u64 = 2147483647;

/// Which member, element or enumerator of a type a record is about: the indices of its access string.
///
/// The first index counts whole values of the type. Each further one is the index of a member in a STRUCT or UNION, or
/// of an element in an ARRAY. A record about an enumerator has one index, which counts the enumerators.
#[derive(Debug, Drop)]
pub struct Access {
    indices: ArrayVec<u32, ACCESS_LIMIT>,
}

impl Model for Access {
    ghost use Rattle.std.specs.Prelude.{ℕ, List};

    ghost Value = { List ℕ };

    ghost view = { λ a. a.indices.items };
}

impl Access {
    ghost use Rattle.std.specs.Prelude.{◌≡◌};
    ghost use Rattle.btf_relocate_model.specs.Access.{access_of};
    ghost use Rattle.btf_relocate.specs.Access.{IsAccess};

    /// The access of an access string, as it is in the string section: indices of digits alone with a colon between
    /// them, at least 1 and at most 64, each at most 2147483647.
    ///
    /// Fails with `BadAccess` for any other text. libbpf's `bpf_core_parse_spec` also reads signs and blanks, so it
    /// takes negative indices; no compiler writes them.
    pub fn parse(text: &[u8]) -> Result<Access, RelocationError>
        ensures { IsAccess (access_of text.now) result }
    {
        let mut indices = ArrayVec::new();
        for part in text.split(|byte| *byte == b':') {
            let Some(index) = index_of(part) else {
                return Err(RelocationError::BadAccess);
            };
            if indices.try_push(index).is_err() {
                return Err(RelocationError::BadAccess);
            }
        }
        Ok(Access { indices })
    }

    /// The indices in order.
    pub fn indices(&self) -> &[u32]
        ensures { result.now ≡ self.now }
    {
        &self.indices
    }
}

/// The index that a part of an access string spells; `None` if it is empty, has other bytes than digits, or spells a
/// number above the limit.
fn index_of(part: &[u8]) -> Option<u32>
    ensures { result ≡ index_of part.now }
{
    if part.is_empty() {
        return None;
    }
    let mut index = 0;
    for byte in part {
        if !byte.is_ascii_digit() {
            return None;
        }
        index = index * 10 + u64::from(*byte - b'0');
        if index > INDEX_LIMIT {
            return None;
        }
    }
    Some(index as u32)
}
