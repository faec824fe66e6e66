// What a 32-bit word says, a coupon's or an exception word's, after Coupon in hll/mod.rs: its value in the upper 6 bits, its slot in the lower 26.
#![tactic(auto)]

ghost use Rattle.std.specs.Prelude.{◌≡◌, ◌^◌, ◌≤◌, ◌<◌};
ghost use Rattle.model.specs.Coupon as book;

// The slots that a word can name.
pub const SLOTS: u32 = 1 << 26;

pub fn value(word: u32) -> u8
    ensures { result ≡ book.value word }
{
    (word >> 26) as u8
}

pub fn slot(word: u32) -> u32
    ensures { result ≡ book.slot word }
{
    word % SLOTS
}

// Where it goes among 2 ^ lg_k registers. One mask does for slot and remainder, as lg_k is below 26.
pub fn home(lg_k: u8, word: u32) -> u32
    requires { lg_k ≤ 21 }
    ensures { result ≡ book.home (2 ^ lg_k) word }
{
    word & ((1u32 << lg_k) - 1)
}

// The word of a slot and a value.
pub fn word(slot: u32, value: u8) -> u32
    requires { (slot < 2 ^ 26) × (value < 64) }
    ensures { result ≡ book.word slot value }
{
    (u32::from(value) << 26) + slot
}

// Whether it is the empty word. One with a slot and no value is not.
pub fn is_empty(word: u32) -> bool
    ensures { result ≡ book.is_empty word }
{
    word == 0
}
