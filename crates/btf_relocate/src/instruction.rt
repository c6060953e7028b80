//! Patches of instructions.

ghost use Rattle.std.specs.Prelude.{◌≡◌, ◌+◌, ◌≤◌, ◌++◌, length, IfOk};
ghost use Rattle.btf_relocate_model.specs.Instruction as model;
ghost use Rattle.btf_relocate_model.specs.Instruction.{patched_code};
ghost use Rattle.btf_relocate.specs.Patch.{HasPatched};

use arrayvec::ArrayVec;
use btf_model::Endianness;
use btf_relocate_model::{Instruction, Patched, RelocationError, Resolved, Slot};

/// The length of a slot in bytes.
const SLOT_LEN: usize = 8;

/// The opcode of the load of a 64-bit immediate.
const LD_IMM64: u8 = 0x18;

/// The three low bits of the opcode of an arithmetic instruction of 64 bits, which sign-extends its immediate.
const ALU64: u8 = 7;

/// The slot that the kernel refuses if a program can reach it: a call of the helper 0xbad2310.
const POISON: Slot = Slot {
    opcode: 0x85,
    registers: 0,
    offset: 0,
    immediate: 195896080,
};

/// Patches the instruction at an offset of a section's code, in bytes, as a record asks.
///
/// The value becomes the immediate of an arithmetic instruction or of a 64-bit load, or the offset of a load or store.
/// A load or store also gets the size of the target's field if that differs from the local one. Nothing else of the
/// code changes. The instruction is poisoned, so that the kernel refuses a program that can reach it, if the record
/// asks for that, or if the size of a load or store would have to change and may not. The source is libbpf's
/// `bpf_core_patch_insn`.
///
/// An error leaves the code unchanged. It is the first of these that applies:
///
/// - `Misaligned` for an offset that is no multiple of 8; `NoInstruction` if the instruction, and `NoSecondSlot` if the
///   second half of a 64-bit load, is outside the code.
/// - `NotPatchable` for a jump or a call, and `BadLdImm64` for a load of another form than that of a 64-bit immediate.
/// - `NotImmediate` for an arithmetic instruction whose source is a register.
/// - `WrongImmediate` if the field must have the expected value, and has another one.
/// - `ImmediateOverflow` for an arithmetic instruction, if the value is not the sign-extension of 32 bits, nor, in an
///   instruction of 32 bits, their zero-extension. libbpf cuts the value.
/// - `OffsetTooBig` for a load or store, if the value exceeds 32767.
/// - `WrongAccessSize` if a load or store has another size than the local field, `BadAccessSize` if the target's field
///   has none of the sizes 1, 2, 4 and 8; both only if these sizes differ.
pub fn patch(
    code: &mut [u8],
    offset: usize,
    endianness: Endianness,
    resolved: &Resolved,
) -> Result<Patched, RelocationError>
    ensures { HasPatched code.old code.new (patched_code endianness resolved.now code.old offset)
        result }
{
    let instruction = instruction_at(code, offset, endianness)?;
    let (patched, instruction) = patch_by_kind(endianness, resolved, instruction)?;
    let mut bytes = ArrayVec::new();
    match instruction {
        Instruction::Narrow(slot) => add_slot(&mut bytes, &slot, endianness),
        Instruction::Wide(first, second) => {
            add_slot(&mut bytes, &first, endianness);
            add_slot(&mut bytes, &second, endianness);
        }
    }
    code[offset..offset + bytes.len()].copy_from_slice(&bytes);
    Ok(patched)
}

/// The slot at a place.
fn slot_at(code: &[u8], at: usize, order: Endianness) -> Slot
    requires { at + SLOT_LEN ≤ length code.now }
    ensures { result ≡ model.slot_at order code.now at }
{
    let (_, rest) = code.split_at(at + 2);
    let (offset, rest) = rest.split_first_chunk::<2>().unwrap();
    let (immediate, _) = rest.split_first_chunk::<4>().unwrap();
    Slot {
        opcode: code[at],
        registers: code[at + 1],
        offset: order.read_u16(*offset),
        immediate: order.read_u32(*immediate),
    }
}

/// The instruction at an offset of a section's code, in bytes. The errors are `Misaligned`, `NoInstruction` and
/// `NoSecondSlot`, as those of [`patch`].
pub fn instruction_at(
    code: &[u8],
    at: usize,
    order: Endianness,
) -> Result<Instruction, RelocationError>
    ensures value { result ≡ model.instruction_at order code.now at }
    ensures room { IfOk result
        (λ i. at + length (model.instruction_bytes order i) ≤ length code.now) }
{
    if at % SLOT_LEN != 0 {
        return Err(RelocationError::Misaligned);
    }
    let room = code.len().saturating_sub(at);
    if room < SLOT_LEN {
        return Err(RelocationError::NoInstruction);
    }
    let slot = slot_at(code, at, order);
    if slot.opcode != LD_IMM64 {
        return Ok(Instruction::Narrow(slot));
    }
    if room < 2 * SLOT_LEN {
        return Err(RelocationError::NoSecondSlot);
    }
    Ok(Instruction::Wide(slot, slot_at(code, at + SLOT_LEN, order)))
}

/// The sign-extension of 32 bits to 64.
pub fn sign_extended_32(number: u32) -> u64
    ensures { result ≡ model.sign_extended 32 number }
{
    i64::from(number.cast_signed()).cast_unsigned()
}

/// The two bits of an opcode for a number of bytes.
fn size_bits(size: u32) -> Option<u8>
    ensures { result ≡ model.width_bits size }
{
    match size {
        4 => Some(0),
        2 => Some(1),
        1 => Some(2),
        8 => Some(3),
        _ => None,
    }
}

/// An arithmetic instruction with the value as its immediate.
fn patch_immediate(resolved: &Resolved, slot: Slot) -> Result<(Patched, Slot), RelocationError>
    ensures { result ≡ model.patched_immediate resolved.now slot }
{
    if slot.opcode / 8 % 2 == 1 {
        return Err(RelocationError::NotImmediate);
    }
    let field = sign_extended_32(slot.immediate);
    if resolved.validates && field != resolved.expected {
        return Err(RelocationError::WrongImmediate);
    }
    let immediate = (resolved.value % 0x1_0000_0000) as u32;
    let is_extended = slot.opcode % 8 == ALU64 || resolved.value >= 0x1_0000_0000;
    if is_extended && sign_extended_32(immediate) != resolved.value {
        return Err(RelocationError::ImmediateOverflow);
    }
    Ok((Patched::Written, Slot { immediate, ..slot }))
}

/// A load or store with the value as its offset, and with the size of the target's field.
fn patch_offset(resolved: &Resolved, slot: Slot) -> Result<(Patched, Slot), RelocationError>
    ensures { result ≡ model.patched_offset resolved.now slot }
{
    let field = i64::from(slot.offset.cast_signed()).cast_unsigned();
    if resolved.validates && field != resolved.expected {
        return Err(RelocationError::WrongImmediate);
    }
    if resolved.value > 32767 {
        return Err(RelocationError::OffsetTooBig);
    }
    let offset = resolved.value as u16;
    if resolved.local_size == resolved.target_size {
        return Ok((Patched::Written, Slot { offset, ..slot }));
    }
    if !resolved.is_adjustable {
        return Ok((Patched::Poisoned, POISON));
    }
    // The bits of the opcode for the size that is loaded or stored.
    let local_bits = slot.opcode / 8 % 4;
    if size_bits(resolved.local_size) != Some(local_bits) {
        return Err(RelocationError::WrongAccessSize);
    }
    let Some(bits) = size_bits(resolved.target_size) else {
        return Err(RelocationError::BadAccessSize);
    };
    let opcode = slot.opcode - local_bits * 8 + bits * 8;
    Ok((
        Patched::Written,
        Slot {
            opcode,
            offset,
            ..slot
        },
    ))
}

/// The load of a 64-bit immediate with the value.
fn patch_wide(
    order: Endianness,
    resolved: &Resolved,
    first: Slot,
    second: Slot,
) -> Result<(Patched, Instruction), RelocationError>
    ensures { result ≡ model.patched_wide order resolved.now first second }
{
    // A load of a 64-bit immediate has no source register, no offsets, and only the immediate in the second slot.
    let source = match order {
        Endianness::Little => first.registers / 16,
        Endianness::Big => first.registers % 16,
    };
    let is_plain = second.opcode == 0 && second.registers == 0 && second.offset == 0;
    if source != 0 || first.offset != 0 || !is_plain {
        return Err(RelocationError::BadLdImm64);
    }
    let field = u64::from(first.immediate) + u64::from(second.immediate) * 0x1_0000_0000;
    if resolved.validates && field != resolved.expected {
        return Err(RelocationError::WrongImmediate);
    }
    let low = (resolved.value % 0x1_0000_0000) as u32;
    let high = (resolved.value / 0x1_0000_0000) as u32;
    Ok((
        Patched::Written,
        Instruction::Wide(
            Slot {
                immediate: low,
                ..first
            },
            Slot {
                immediate: high,
                ..second
            },
        ),
    ))
}

/// What a relocation makes of an instruction.
fn patch_by_kind(
    order: Endianness,
    resolved: &Resolved,
    instruction: Instruction,
) -> Result<(Patched, Instruction), RelocationError>
    ensures value { result ≡ model.relocated order resolved.now instruction }
    // An instruction keeps its number of slots.
    ensures length { IfOk result (λ p. length (model.instruction_bytes order p.1)
        ≡ length (model.instruction_bytes order instruction)) }
{
    match instruction {
        Instruction::Narrow(_) if resolved.is_poisoned => {
            Ok((Patched::Poisoned, Instruction::Narrow(POISON)))
        }
        Instruction::Wide(_, _) if resolved.is_poisoned => {
            Ok((Patched::Poisoned, Instruction::Wide(POISON, POISON)))
        }
        Instruction::Narrow(slot) => {
            let (patched, slot) = match slot.opcode % 8 {
                0 => return Err(RelocationError::BadLdImm64),
                1..=3 => patch_offset(resolved, slot)?,
                5 | 6 => return Err(RelocationError::NotPatchable),
                _ => patch_immediate(resolved, slot)?,
            };
            Ok((patched, Instruction::Narrow(slot)))
        }
        Instruction::Wide(first, second) => patch_wide(order, resolved, first, second),
    }
}

/// Adds the bytes of a slot.
fn add_slot(bytes: &mut ArrayVec<u8, 16>, slot: &Slot, order: Endianness)
    requires { length bytes.old.items ≤ SLOT_LEN }
    ensures { bytes.new.items ≡ bytes.old.items ++ model.slot_bytes order slot.now }
{
    // There is room for two slots.
    let _ = bytes.try_extend_from_slice(&[slot.opcode, slot.registers]);
    let _ = bytes.try_extend_from_slice(&order.write_u16(slot.offset));
    let _ = bytes.try_extend_from_slice(&order.write_u32(slot.immediate));
}
