// Cells of 6 bits, four in three bytes, after array6.rs. A cell may cross into the next byte, so it is read and stored through a window of
// two bytes; the spare byte at the end keeps the last cell's window within the buffer.
ghost use Rattle.std.specs.Prelude.{◌≡◌, ◌+◌, ◌*◌, ◌/◌, ◌%◌, ◌^◌, ◌<◌, length};
ghost use Rattle.model.specs.Packed.{slot_at, unpacked, Put};
ghost use Rattle.packed.specs.Room.{Slot6, Room6};

// The low byte is the lower half, so that the bits of a cell that crosses stand in a row.
fn window(low: u8, high: u8) -> u16
    ensures { result ≡ high * 256 + low }
{
    u16::from_le_bytes([low, high])
}

// No bit may be lost at the top: the shift is then a product, and the exchange below is exact.
fn raised(x: u16, by: u32) -> u16
    requires { (by < 16) × (x * 2 ^ by < 2 ^ 16) }
    ensures { result ≡ x * 2 ^ by }
{
    x << by
}

fn field(window: u16, from: u32) -> u8
    requires { from < 8 }
    ensures { result ≡ window / 2 ^ from % 2 ^ 6 }
{
    ((window >> from) % 64) as u8
}

// The old bits are taken off and the new ones added, as numbers and not by masks: neither step can reach a neighbour's bits.
fn replaced(window: u16, from: u32, value: u8) -> u16
    requires { (from < 8) × (value < 64) }
    ensures { result + window / 2 ^ from % 2 ^ 6 * 2 ^ from ≡ window + value * 2 ^ from }
{
    let old = u16::from(field(window, from));
    window - raised(old, from) + raised(u16::from(value), from)
}

pub fn get_raw(regs: &[u8], slot: u32) -> u8
    requires { Slot6 slot (length regs.now) }
    ensures { result ≡ slot_at 6 regs.now slot }
{
    let bit = slot * 6;
    let at = (bit >> 3) as usize;
    field(window(regs[at], regs[at + 1]), bit % 8)
}

pub fn put_raw(regs: &mut [u8], slot: u32, value: u8)
    requires { Slot6 slot (length regs.old) × (value < 64) }
    ensures { Put 6 regs.old slot value regs.new }
{
    let bit = slot * 6;
    let at = (bit >> 3) as usize;
    let next = replaced(window(regs[at], regs[at + 1]), bit % 8, value);
    regs[at] = (next % 256) as u8;
    regs[at + 1] = (next >> 8) as u8;
}

// Room6 asks for whole groups of four cells, more than a window needs, so that groups of three bytes can take this loop's place.
pub fn unpack(regs: &[u8], out: &mut [u8])
    requires { Room6 (length out.old) (length regs.now) }
    ensures { out.new ≡ unpacked 6 (length out.old) regs.now }
{
    for (slot, cell) in out.iter_mut().enumerate() {
        *cell = get_raw(regs, slot as u32);
    }
}
