//! The file header.

ghost use Rattle.std.specs.Prelude.{◌≡◌, ◌≤◌, length, IfOk};
ghost use Rattle.btf_elf_model.specs.Header.{header_in, file_header, file_header_len, front, order_of};
ghost use Rattle.btf_elf_model.specs.Object.{identification_error, header_error};
ghost use Rattle.btf_elf.specs.Results.{HasError};

use crate::words::{half_at, word_at, xword_at};
use btf_elf_model::{FileHeader, ParseError};
use btf_model::Endianness;

/// The length of the file header in bytes.
pub const HEADER_LEN: usize = 64;

/// The bytes that each object begins with.
const MAGIC: [u8; 4] = [0x7f, b'E', b'L', b'F'];

/// The file header that 64 bytes spell, in a byte order.
fn header_in(bytes: &[u8], order: Endianness) -> FileHeader
    requires { file_header_len ≤ length bytes.now }
    ensures { result ≡ header_in order bytes.now }
{
    FileHeader {
        order,
        os_abi: bytes[7],
        abi_version: bytes[8],
        kind: half_at(bytes, 16, order),
        machine: half_at(bytes, 18, order),
        version: word_at(bytes, 20, order),
        entry: xword_at(bytes, 24, order),
        program_headers: xword_at(bytes, 32, order),
        section_headers: xword_at(bytes, 40, order),
        flags: word_at(bytes, 48, order),
        header_size: half_at(bytes, 52, order),
        program_header_size: half_at(bytes, 54, order),
        program_header_count: half_at(bytes, 56, order),
        section_header_size: half_at(bytes, 58, order),
        section_header_count: half_at(bytes, 60, order),
        section_names: half_at(bytes, 62, order),
    }
}

/// The byte order of an object's words, by its first 64 bytes, or by all bytes if it has fewer.
///
/// Fails with `NotElf`, `UnsupportedClass`, `UnsupportedEncoding` or `UnsupportedVersion`, tested in this order.
#[tactic(auto, unfolding(btf_elf_model::specs::Object::identification_error))]
fn identify(front: &[u8]) -> Result<Endianness, ParseError>
    ensures error { HasError result (identification_error front.now) }
    ensures ok { IfOk result (λ order. (order ≡ order_of front.now)
        × (file_header_len ≤ length front.now)) }
{
    if front.len() < HEADER_LEN || !front.starts_with(&MAGIC) {
        return Err(ParseError::NotElf);
    }
    if front[4] != 2 {
        return Err(ParseError::UnsupportedClass { class: front[4] });
    }
    let order = match front[5] {
        1 => Endianness::Little,
        2 => Endianness::Big,
        encoding => return Err(ParseError::UnsupportedEncoding { encoding }),
    };
    if front[6] != 1 {
        return Err(ParseError::UnsupportedVersion);
    }
    Ok(order)
}

/// The first 64 bytes, or all bytes if there are fewer.
fn front(bytes: &[u8]) -> &[u8]
    ensures { result.now ≡ front bytes.now }
{
    let len = HEADER_LEN.min(bytes.len());
    &bytes[..len]
}

/// The file header at the front of the bytes. Fails with the errors of the identification: `NotElf`,
/// `UnsupportedClass`, `UnsupportedEncoding` or `UnsupportedVersion`, tested in this order.
#[tactic(auto, unfolding(btf_elf_model::specs::Header::file_header))]
pub fn read_header(bytes: &[u8]) -> Result<FileHeader, ParseError>
    ensures error { HasError result (identification_error (front bytes.now)) }
    ensures ok { IfOk result (λ h. h ≡ file_header bytes.now) }
{
    let front = front(bytes);
    let order = identify(front)?;
    Ok(header_in(front, order))
}

/// Checks the other words of a file header. Fails with `UnsupportedVersion` or `BadHeaderSize`, tested in this order.
#[tactic(auto, unfolding(btf_elf_model::specs::Object::header_error))]
pub fn check_header(header: &FileHeader) -> Result<(), ParseError>
    ensures { HasError result (header_error header.now) }
{
    if header.version != 1 {
        return Err(ParseError::UnsupportedVersion);
    }
    let has_sections = header.section_headers != 0;
    if header.header_size != 64 || (has_sections && header.section_header_size != 64) {
        return Err(ParseError::BadHeaderSize);
    }
    Ok(())
}
