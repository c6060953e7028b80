//! Versions of Linux.

ghost use Rattle.std.specs.Prelude.{◌≡◌, ℕ, take, drop, position, IfSome, IfNone};
ghost use Rattle.std.specs.List.{position_or_len};
ghost use Rattle.btf_object_model.specs.Kernel as model;
ghost use Rattle.btf_object_model.specs.Kernel.{IsNumber, IsVersion};
ghost use Rattle.btf_object.specs.Kernel.{is_other};
ghost use Rattle.btf_object_model.specs.declared.version.Version.{Version};

use btf_object_model::Version;
use btf_rewrite_model::BtfFeature;

/// The first release with a feature. The definition names the commits.
fn first_with(feature: BtfFeature) -> Version
    ensures { result ≡ model.first_with feature }
{
    let (major, minor) = match feature {
        BtfFeature::Func => (5, 0),
        BtfFeature::FuncGlobal => (5, 6),
        BtfFeature::DataSec => (5, 2),
        BtfFeature::DataSecZero => (5, 12),
        BtfFeature::Float => (5, 13),
        BtfFeature::DeclTag => (5, 16),
        BtfFeature::TypeTag => (5, 17),
        BtfFeature::Enum64 => (6, 0),
    };
    Version { major, minor }
}

/// Whether Linux of a version has a feature.
pub fn has(version: Version, feature: BtfFeature) -> bool
    ensures { result ≡ model.has_by_version version feature }
{
    let first = first_with(feature);
    first.major < version.major || (first.major == version.major && first.minor <= version.minor)
}

/// The number of a text of decimal digits.
fn read_number(text: &str) -> Option<u32>
    ensures some { IfSome result (IsNumber text.now) }
    ensures none { IfNone result ((n : ℕ) → IsNumber text.now n → ⊥) }
{
    // A sign is no digit, but `parse` would accept it.
    if text.starts_with('+') {
        return None;
    }
    text.parse().ok()
}

/// Whether a text may follow the numbers of a version.
fn ends_version(rest: &str) -> bool
    ensures { result ≡ model.ends_version rest.now }
{
    match rest.as_bytes().first() {
        Some(byte) => matches!(byte, b'.' | b'-' | b'+'),
        None => true,
    }
}

/// The index of the first byte that is no decimal digit.
fn first_other(bytes: &[u8]) -> Option<usize>
    ensures { result ≡ position is_other bytes.now }
{
    bytes.iter().position(|byte| !byte.is_ascii_digit())
}

/// The number of decimal digits at the front of a text.
fn digits_len(text: &str) -> usize
    ensures { result ≡ position_or_len is_other text.now }
{
    match first_other(text.as_bytes()) {
        Some(len) => len,
        None => text.len(),
    }
}

/// The decimal digits that a text begins with, and the text after them.
fn split_digits(text: &str) -> (&str, &str)
    ensures front { result.0.now ≡ take (position_or_len is_other text.now) text.now }
    ensures back { result.1.now ≡ drop (position_or_len is_other text.now) text.now }
{
    text.split_at(digits_len(text))
}

/// The version that a text begins with: two numbers with a dot between them.
pub fn read_version(text: &str) -> Option<Version>
    ensures some { IfSome result (IsVersion text.now) }
    ensures none { IfNone result ((v : Version) → IsVersion text.now v → ⊥) }
{
    let (major, rest) = text.split_once('.')?;
    let (minor, rest) = split_digits(rest);
    if !ends_version(rest) {
        return None;
    }
    let major = read_number(major)?;
    let minor = read_number(minor)?;
    Some(Version { major, minor })
}
