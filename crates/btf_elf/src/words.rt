//! Words at an offset of bytes.

ghost use Rattle.std.specs.Prelude.{◌≡◌, ◌+◌, ◌≤◌, length};
ghost use Rattle.std.specs.Int.{w64};
ghost use Rattle.btf_model.specs.Word.{number_of};
ghost use Rattle.btf_model.specs.Blob as blob;
ghost use Rattle.btf_elf_model.specs.Header as elf;

use btf_model::Endianness;

/// The half-word at a place, of 16 bits.
pub fn half_at(bytes: &[u8], at: usize, order: Endianness) -> u16
    requires { at + 2 ≤ length bytes.now }
    ensures { result ≡ elf.half_at order at bytes.now }
{
    let (_, rest) = bytes.split_at(at);
    let (half, _) = rest.split_first_chunk::<2>().unwrap();
    order.read_u16(*half)
}

/// The word at a place, of 32 bits.
pub fn word_at(bytes: &[u8], at: usize, order: Endianness) -> u32
    requires { at + 4 ≤ length bytes.now }
    ensures { result ≡ blob.word_at order at bytes.now }
{
    let (_, rest) = bytes.split_at(at);
    let (word, _) = rest.split_first_chunk::<4>().unwrap();
    order.read_u32(*word)
}

/// The extended word at a place, of 64 bits.
pub fn xword_at(bytes: &[u8], at: usize, order: Endianness) -> u64
    requires { at + 8 ≤ length bytes.now }
    ensures { result ≡ elf.xword_at order at bytes.now }
{
    let (_, rest) = bytes.split_at(at);
    let (xword, _) = rest.split_first_chunk::<8>().unwrap();
    read_u64(*xword, order)
}

/// The number of eight bytes.
fn read_u64(bytes: [u8; 8], order: Endianness) -> u64
    ensures { result ≡ number_of w64 order bytes }
{
    match order {
        Endianness::Little => u64::from_le_bytes(bytes),
        Endianness::Big => u64::from_be_bytes(bytes),
    }
}
