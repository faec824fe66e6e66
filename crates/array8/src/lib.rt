// Kind 8, after array8.rs: a byte a register, in the bytes that the caller lends. Nothing here judges what it is lent: the functions ask for
// registers that fit, and the public calls have looked.
#![tactic(auto)]

ghost use Rattle.std.specs.Prelude.{◌≡◌, [], ◌∷◌, ◌%◌, ◌<◌, length, get_or};
ghost use Rattle.std.proofs.Common.{lit≤};
ghost use Rattle.model.specs.Registers as book;
ghost use Rattle.model.specs.Registers.{fed, poured, joined};
ghost use Rattle.array8.specs.Asked.{Power, Finer, Blocked, Ready};
ghost use Rattle.array8.specs.Given.{Fed};

use packed::eight::larger;
use plain::Cells;

pub struct Array8;

impl Cells for Array8 {
    ghost width = { 8 };

    ghost some = { lit≤ tt };

    fn get_raw(regs: &[u8], slot: u32) -> u8 {
        get(regs, slot)
    }

    fn put_raw(regs: &mut [u8], slot: u32, value: u8) {
        regs[slot as usize] = value;
    }
}

pub fn get(regs: &[u8], slot: u32) -> u8
    requires { slot < length regs.now }
    ensures { result ≡ get_or regs.now slot 0 }
{
    regs[slot as usize]
}

pub fn update(lg_k: u8, num_zeros: u32, regs: &mut [u8], coupon: u32) -> u32
    requires { Ready lg_k num_zeros regs.old }
    ensures { Fed lg_k regs.old (coupon ∷ []) regs.new result }
{
    plain::update::<Array8>(lg_k, num_zeros, regs, coupon)
}

pub fn feed(lg_k: u8, num_zeros: u32, regs: &mut [u8], coupons: &[u32]) -> u32
    requires { Ready lg_k num_zeros regs.old }
    ensures { Fed lg_k regs.old coupons.now regs.new result }
{
    plain::feed::<Array8>(lg_k, num_zeros, regs, coupons)
}

// The lent registers themselves, and no copy: the reference handed in.
pub fn values(regs: &[u8]) -> &[u8]
    ensures { result ≡ regs.entry }
{
    regs
}

// A register of any source, whose slot may be past the target's last.
pub fn raise(target: &mut [u8], slot: usize, value: u8)
    requires { Power (length target.old) }
    ensures { target.new ≡ book.raise target.old (slot % length target.old) value }
{
    let dst_slot = slot & (target.len() - 1);
    target[dst_slot] = larger(target[dst_slot], value);
}

// By slot, since no proof knows what a loop over `target.iter_mut().zip(src)` leaves in the target: an adapter of iter_mut says nothing of it.
pub fn merge_array_same_lgk(target: &mut [u8], src: &[u8])
    requires { length target.old ≡ length src.now }
    ensures { target.new ≡ joined (length target.old) target.old src.now }
{
    for (slot, &value) in src.iter().enumerate() {
        target[slot] = larger(target[slot], value);
    }
}

// The source in parts as long as the target: slot s of each goes to slot s.
pub fn merge_array_with_downsample(target: &mut [u8], src: &[u8])
    requires { Finer (length target.old) (length src.now) }
    ensures { target.new ≡ joined (length target.old) target.old src.now }
{
    for part in src.chunks_exact(target.len()) {
        merge_array_same_lgk(target, part);
    }
}

// Neighbouring registers of any source, so few that they stay neighbours in the target: only the first slot is reduced.
pub fn merge_block(target: &mut [u8], from: usize, block: &[u8])
    requires { Blocked (length target.old) from (length block.now) }
    ensures { target.new ≡ poured (length target.old) target.old from block.now }
{
    let first_dst = from & (target.len() - 1);
    merge_array_same_lgk(&mut target[first_dst..first_dst + block.len()], block);
}

// Exception words, as if they were coupons. An empty one has value 0 and raises nothing, so none is passed over.
pub fn raise_words(target: &mut [u8], words: &[u32])
    requires { Power (length target.old) }
    ensures { target.new ≡ fed (length target.old) target.old words.now }
{
    for &word in words {
        raise(target, coupon::slot(word) as usize, coupon::value(word));
    }
}
