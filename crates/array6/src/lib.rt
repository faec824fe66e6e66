// Kind 6, after array6.rs: four registers in three bytes, and a spare byte at the end that is zero. The bytes stay packed while they are
// fed: each coupon reads and stores one cell, as plain::update says for kinds 6 and 8 at once. (array6.rs's get_raw and put_raw are packed::six's.)
#![tactic(auto)]

ghost use Rattle.std.specs.Prelude.{◌≡◌, length};
ghost use Rattle.std.proofs.Common.{lit≤};
ghost use Rattle.model.specs.Packed.{slot_at};
ghost use Rattle.packed.specs.Room.{Slot6};
ghost use Rattle.array6.specs.Asked.{Counted6, Ready6};
ghost use Rattle.array6.specs.Given.{Taken6, Fed6};

use plain::Cells;

pub struct Array6;

impl Cells for Array6 {
    ghost width = { 6 };

    ghost some = { lit≤ tt };

    fn get_raw(regs: &[u8], slot: u32) -> u8 {
        packed::six::get_raw(regs, slot)
    }

    fn put_raw(regs: &mut [u8], slot: u32, value: u8) {
        packed::six::put_raw(regs, slot, value)
    }
}

pub fn get(regs: &[u8], slot: u32) -> u8
    requires { Slot6 slot (length regs.now) }
    ensures { result ≡ slot_at 6 regs.now slot }
{
    packed::six::get_raw(regs, slot)
}

pub fn update(lg_k: u8, num_zeros: u32, regs: &mut [u8], coupon: u32) -> u32
    requires { Counted6 lg_k num_zeros regs.old }
    ensures { Taken6 lg_k regs.old coupon regs.new result }
{
    plain::update::<Array6>(lg_k, num_zeros, regs, coupon)
}

pub fn feed(lg_k: u8, num_zeros: u32, regs: &mut [u8], coupons: &[u32]) -> u32
    requires { Ready6 lg_k num_zeros regs.old }
    ensures { Fed6 lg_k regs.old coupons.now regs.new result }
{
    plain::feed::<Array6>(lg_k, num_zeros, regs, coupons)
}
