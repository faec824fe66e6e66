// For the comparison with the Rust: cells of 6 and of 4 bits.
ghost use Rattle.std.specs.Prelude.{◌≡◌, ◌*◌, ◌<◌, length};
ghost use Rattle.packed.specs.Room.{Slot6, Room6};

#[unsafe(no_mangle)]
pub extern "C" fn lp_six_get_raw(regs: &[u8], slot: u32) -> u8
    requires { Slot6 slot (length regs.now) }
{
    packed::six::get_raw(regs, slot)
}

#[unsafe(no_mangle)]
pub extern "C" fn lp_six_put_raw(regs: &mut [u8], slot: u32, value: u8)
    requires { Slot6 slot (length regs.old) × (value < 64) }
{
    packed::six::put_raw(regs, slot, value)
}

#[unsafe(no_mangle)]
pub extern "C" fn lp_six_unpack(regs: &[u8], out: &mut [u8])
    requires { Room6 (length out.old) (length regs.now) }
{
    packed::six::unpack(regs, out)
}

#[unsafe(no_mangle)]
pub extern "C" fn lp_four_get_raw(regs: &[u8], slot: u32) -> u8
    requires { slot < 2 * length regs.now }
{
    packed::four::get_raw(regs, slot)
}

#[unsafe(no_mangle)]
pub extern "C" fn lp_four_put_raw(regs: &mut [u8], slot: u32, value: u8)
    requires { (slot < 2 * length regs.old) × (value < 16) }
{
    packed::four::put_raw(regs, slot, value)
}

#[unsafe(no_mangle)]
pub extern "C" fn lp_four_unpack(regs: &[u8], out: &mut [u8])
    requires { length out.old ≡ 2 * length regs.now }
{
    packed::four::unpack(regs, out)
}
