// Cells of 4 bits, two in a byte, after the nibbles of array4.rs. The even slot has the low nibble.
ghost use Rattle.std.specs.Prelude.{◌≡◌, ◌*◌, ◌<◌, length};
ghost use Rattle.model.specs.Packed.{slot_at, unpacked, Put};

pub fn get_raw(regs: &[u8], slot: u32) -> u8
    requires { slot < 2 * length regs.now }
    ensures { result ≡ slot_at 4 regs.now slot }
{
    let byte = regs[(slot >> 1) as usize];
    if slot % 2 == 0 { byte % 16 } else { byte >> 4 }
}

pub fn put_raw(regs: &mut [u8], slot: u32, value: u8)
    requires { (slot < 2 * length regs.old) × (value < 16) }
    ensures { Put 4 regs.old slot value regs.new }
{
    let at = (slot >> 1) as usize;
    let byte = regs[at];
    if slot % 2 == 0 {
        regs[at] = byte - byte % 16 + value;
    } else {
        regs[at] = byte % 16 + value * 16;
    }
}

// By bytes and not by slots: the loop has no branch, and each byte is read once.
pub fn unpack(regs: &[u8], out: &mut [u8])
    requires { length out.old ≡ 2 * length regs.now }
    ensures { out.new ≡ unpacked 4 (length out.old) regs.now }
{
    for (at, byte) in regs.iter().enumerate() {
        out[2 * at] = *byte % 16;
        out[2 * at + 1] = *byte >> 4;
    }
}
