// The two sums kxq0 and kxq1 as exact doubles, after `rebuild_cached_values` of array8.rs. They are worked out from sixty-four
// counts, one for each value of a register, and not by float additions. And a double as the eight bytes that an image has.
#![tactic(auto)]

ghost use Rattle.std.specs.Prelude.{◌≡◌, not, List, [], ◌∷◌, ◌++◌, ℕ, ◌≤◌, ◌<◌, T, length, get_or};
ghost use Rattle.std.specs.Float.{binary64};
ghost use Rattle.std.specs.Float.Ieee.{is_nan, to_bits};
ghost use Rattle.model.specs.Packed.{digits};
ghost use Rattle.model.specs.Sums.{scaled};
ghost use Rattle.sums.specs.Tally.{Counted, FewCounted, Registers, Room, Countable, said, CountedWords, Less, summed, sums_for};

// Both sums as one answer, with its number, by value: the form that document 01 names for them.
#[derive(Clone, Copy)]
pub struct Sums {
    pub answer: u8,
    pub kxq0: f64,
    pub kxq1: f64,
}

// One register more, of value v, in counts that a loop lends: handed on by value they would be copied at each register.
pub fn count_in(counts: &mut [u32; 64], v: u8)
    requires { (v < 64) × Room counts.old 0 }
    ensures { (R : List ℕ) → Counted R counts.old → Counted (R ++ (v ∷ [])) counts.new }
{
    counts[usize::from(v)] += 1;
}

// Registers counted in, one after the other.
pub fn count_all(counts: &mut [u32; 64], regs: &[u8])
    requires { Countable counts.old regs.now }
    ensures { (R : List ℕ) → Counted R counts.old → Counted (R ++ regs.now) counts.new }
{
    for &value in regs {
        count_in(counts, value);
    }
}

// The words of an exception table, each as a register of its value; how many are not empty.
pub fn count_words(counts: &mut [u32; 64], words: &[u32]) -> u32
    requires { Room counts.old (length (said words.now)) }
    ensures { CountedWords counts.old words.now counts.new result }
{
    let mut many = 0;
    for &word in words {
        let value = coupon::value(word);
        if value != 0 {
            count_in(counts, value);
            many += 1;
        }
    }
    many
}

// So many registers of value v taken out.
pub fn count_out(counts: &mut [u32; 64], v: u8, many: u32)
    requires { (v < 64) × (many ≤ get_or counts.old v 0) }
    ensures { (L R : List ℕ) → Counted L counts.old → Less v many L R → Counted R counts.new }
{
    counts[usize::from(v)] -= many;
}

// All at once.
pub fn counts(regs: &[u8]) -> [u32; 64]
    requires { Registers regs.now }
    ensures { Counted regs.now result }
{
    let mut seen = [0u32; 64];
    count_all(&mut seen, regs);
    seen
}

// The scaled whole number of the 32 values from `from` on, by Horner's rule: each turn doubles what the lower values have, so no
// power of two is written. Thirty-two counts of 32 bits always fit the 64 bits.
pub fn scaled_of(counts: [u32; 64], from: usize) -> u64
    requires { from ≤ 32 }
    ensures { (R : List ℕ) → Counted R counts → result ≡ scaled from R }
{
    let mut n = 0;
    for &many in &counts[from..from + 32] {
        n = n * 2 + u64::from(many);
    }
    n
}

// Each whole number is at most 2^52, so the cast loses nothing; and it is divided once, by 2^31 and 2^63, which is exact.
pub fn from_counts(counts: [u32; 64]) -> Sums
    requires { FewCounted counts }
    ensures { (R : List ℕ) → Counted R counts → summed result ≡ sums_for R }
{
    let low = scaled_of(counts, 0);
    let high = scaled_of(counts, 32);
    Sums {
        answer: 0,
        kxq0: low as f64 / 2147483648.0,
        kxq1: high as f64 / 9223372036854775808.0,
    }
}

// A double as eight bytes, the lowest first. A NaN has no one pattern; the sums are none.
pub fn f64_bytes(x: f64) -> [u8; 8]
    requires { T (not (is_nan x)) }
    ensures { result ≡ digits 256 8 (to_bits binary64 x) }
{
    x.to_le_bytes()
}
