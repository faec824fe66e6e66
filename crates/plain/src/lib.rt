// Kinds 6 and 8: a register is a cell of the sketch, read and stored in place. What they share, over the way in which cells stand in the bytes that a caller lends.
#![tactic(auto)]

ghost use Rattle.std.specs.Prelude.{◌≡◌, ℕ, ◌<◌, length};
ghost use Rattle.model.specs.Packed.{slot_at, Put};
ghost use Rattle.plain.specs.Cells.{Held, Counted, Taken, Given};

// How cells stand in bytes: so many bits each.
pub trait Cells {
    ghost width: { ℕ };

    ghost some: { 0 < width };

    fn get_raw(regs: &[u8], slot: u32) -> u8
        requires { Held width slot (length regs.now) }
        ensures { result ≡ slot_at width regs.now slot };

    fn put_raw(regs: &mut [u8], slot: u32, value: u8)
        requires { Held width slot (length regs.old) × (value < 64) }
        ensures { Put width regs.old slot value regs.new };
}

// The number of zeros comes in and goes out: it is kept in the record, and counted only where a whole buffer changes.
pub fn update<C: Cells>(lg_k: u8, num_zeros: u32, regs: &mut [u8], coupon: u32) -> u32
    requires { Counted C.width lg_k num_zeros regs.old }
    ensures { Taken C.width lg_k regs.old coupon regs.new result }
{
    let slot = coupon::home(lg_k, coupon);
    let new_value = coupon::value(coupon);
    let old_value = C::get_raw(regs, slot);
    if new_value <= old_value {
        return num_zeros;
    }
    C::put_raw(regs, slot, new_value);
    if old_value == 0 {
        return num_zeros - 1;
    }
    num_zeros
}

pub fn feed<C: Cells>(lg_k: u8, num_zeros: u32, regs: &mut [u8], coupons: &[u32]) -> u32
    requires { Counted C.width lg_k num_zeros regs.old }
    ensures { Given C.width lg_k regs.old coupons.now regs.new result }
{
    let mut zeros = num_zeros;
    for &coupon in coupons {
        zeros = update::<C>(lg_k, zeros, regs, coupon);
    }
    zeros
}
