// Cells of 4 and of 8 bits, a whole number of them to a byte: how many have a value, and the largest that is no token. No window, no branch on a
// value, and counters as narrow as the cells' bytes: so the compiler takes sixteen bytes at a time. (It takes the test of the width out of the loop.)
#![tactic(auto)]

ghost use Rattle.std.specs.Prelude.{◌≡◌, ◌*◌, ◌/◌, length, get_or};
ghost use Rattle.model.specs.Registers.{count_of};
ghost use Rattle.model.specs.Packed.{unpacked};
ghost use Rattle.survey_whole.specs.Whole.{Hits, Cells, Part, plain, highest, most};

// So many bytes that a byte counts their cells.
const PART: usize = 64;

// How many cells of a byte are `is`.
fn hits(width: u8, byte: u8, is: u8) -> u8
    ensures { Hits width byte is result }
{
    if width == 8 {
        return u8::from(byte == is);
    }
    u8::from(byte % 16 == is) + u8::from(byte >> 4 == is)
}

// The narrow counter is what makes vector code of it.
fn count_part(width: u8, part: &[u8], is: u8) -> u8
    requires { Part width part.now }
    ensures { result ≡ count_of is (unpacked width (8 / width * length part.now) part.now) }
{
    let mut n = 0;
    for &byte in part {
        n += hits(width, byte, is);
    }
    n
}

// How many cells are `is`. (survey_six counts parts that overlap by a byte: one function for both would be a closure for the parts and one for the count, around two lines.)
pub fn count(width: u8, regs: &[u8], is: u8) -> u32
    requires { Cells width regs.now }
    ensures { result ≡ count_of is (unpacked width (8 / width * length regs.now) regs.now) }
{
    let (parts, others) = regs.as_chunks::<PART>();
    let mut n = 0;
    for part in parts {
        n += u32::from(count_part(width, part, is));
    }
    n + u32::from(count_part(width, others, is))
}

fn no_token(n: u8) -> u8
    ensures { result ≡ plain 4 n }
{
    if n == 15 { 0 } else { n }
}

// The larger of a byte's two, before any other: as a chain of two the compiler would not see that the order is free.
fn top(width: u8, byte: u8) -> u8
    ensures { result ≡ highest width byte }
{
    if width == 8 {
        return byte;
    }
    no_token(byte % 16).max(no_token(byte >> 4))
}

// The largest cell that is no token, or 0.
pub fn largest(width: u8, regs: &[u8]) -> u8
    requires { Cells width regs.now }
    ensures { result ≡ most (λ i. plain width (get_or (unpacked width (8 / width * length regs.now) regs.now) i 0)) (8 / width * length regs.now) }
{
    let mut most = 0;
    for &byte in regs {
        most = top(width, byte).max(most);
    }
    most
}
