//! Byte orders, as C names them.

ghost use Rattle.std.specs.Prelude.{◌≡◌, ◌≢◌, ◌<◌, ◌≤◌};
ghost use Rattle.std.specs.Option.{MatchOption};
ghost use Rattle.vbtf.specs.Orders.{order_named, order_number, order_by_magic, order_chosen};
ghost use Rattle.vbtf.specs.Status.{KeepsHandle};

use crate::fault::CLOSED;
use crate::handle::Handle;
use crate::taken::take_loan;
use btf::Endianness;

/// The byte order of a table: 0 for little, 1 for big.
///
/// Status 101 if the handle's state is not 2.
#[unsafe(no_mangle)]
pub extern "C" fn vbtf_lent_order(table: &mut Handle, order: &mut u32) -> u32
    ensures ordered { table.old.state ≡ 2
        → (result ≡ 0) × (order.new ≡ order_number table.old.opened.btf.order) }
    ensures closed { table.old.state ≢ 2 → result ≡ CLOSED }
    ensures kept { KeepsHandle table.old table.new }
{
    let Some(loan) = take_loan(table) else {
        return CLOSED;
    };
    *order = number_of(loan.get().btf.endianness());
    *table = Handle::from_loan(loan);
    0
}

/// The number of a byte order.
pub(crate) fn number_of(endianness: Endianness) -> u32
    ensures { result ≡ order_number endianness }
{
    match endianness {
        Endianness::Little => 0,
        Endianness::Big => 1,
    }
}

/// The byte order of a number: 0 for little, 1 for big. None for another number.
pub(crate) fn order_of(order: u32) -> Option<Endianness>
    ensures { MatchOption result (1 < order)
        (λ endianness. (order ≤ 1) × (endianness ≡ order_named order)) }
{
    match order {
        0 => Some(Endianness::Little),
        1 => Some(Endianness::Big),
        _ => None,
    }
}

/// The byte order of a number for these bytes: 0 for little, 1 for big, 2 for the order of their magic. None for
/// another number.
pub(crate) fn choose_order(order: u32, bytes: &[u8]) -> Option<Endianness>
    ensures { MatchOption result (2 < order)
        (λ endianness. (order ≤ 2) × (endianness ≡ order_chosen order bytes.now)) }
{
    match order {
        2 => Some(order_by_magic(bytes)),
        _ => order_of(order),
    }
}

/// The byte order in which the first two bytes are the magic 0xeb9f; little if they are the magic in neither order.
fn order_by_magic(bytes: &[u8]) -> Endianness
    ensures { result ≡ order_by_magic bytes.now }
{
    if bytes.starts_with(&[0xeb, 0x9f]) {
        Endianness::Big
    } else {
        Endianness::Little
    }
}
