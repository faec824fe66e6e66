// Cells of 6 bits, four in three bytes: how many are zero. Every byte is looked at by itself, with the byte after it, and never as a group:
// what differs with the byte's place in its group stands in a table, so that the compiler takes sixteen bytes at a time.
#![tactic(auto)]

ghost use Rattle.std.specs.Prelude.{◌≡◌, ◌-◌, ◌*◌, ◌/◌, ◌≤◌, length};
ghost use Rattle.model.specs.Registers.{count_of};
ghost use Rattle.model.specs.Packed.{unpacked};
ghost use Rattle.survey_six.specs.Six.{Both, Groups, Part};

// So many bytes, of whole groups, that a byte counts their cells.
const PART: usize = 48;

// By a byte's place in its group of three: 2 to the bit where its last cell begins.
static BEGINS: [u8; PART] = [
    64, 16, 4, 64, 16, 4, 64, 16, 4, 64, 16, 4, 64, 16, 4, 64, 16, 4, 64, 16, 4, 64, 16, 4, 64, 16,
    4, 64, 16, 4, 64, 16, 4, 64, 16, 4, 64, 16, 4, 64, 16, 4, 64, 16, 4, 64, 16, 4,
];

// The cell that is the low six bits, where there is one, and the cell that ends with the byte or goes on in the next one.
fn zeros_at(byte: u8, next: u8, begins: u8) -> u8
    requires { 4 ≤ begins }
    ensures { Both byte next begins result }
{
    let first = byte % 64 < begins >> 6;
    let last = byte < begins && next & ((begins >> 2) - 1) == 0;
    u8::from(first) + u8::from(last)
}

// The narrow counter is what makes vector code of it. Two of the three bytes by index: a zip of the three took 25.8 ns for 12.9 at 16 registers, windows(2) 367 for 271 at 4096.
fn count_part(part: &[u8]) -> u8
    requires { Part part.now }
    ensures { result ≡ count_of 0 (unpacked 6 ((length part.now - 1) / 3 * 4) part.now) }
{
    let mut n = 0;
    for (i, &next) in part[1..].iter().enumerate() {
        n += zeros_at(part[i], next, BEGINS[i]);
    }
    n
}

// A part has one byte more than it counts, the first of the next part: so no chunks, and std's windows go on by one.
pub fn count_zeros(regs: &[u8]) -> u32
    requires { Groups regs.now }
    ensures { result ≡ count_of 0 (unpacked 6 ((length regs.now - 1) / 3 * 4) regs.now) }
{
    let mut n = 0;
    let mut others = regs;
    while PART < others.len() {
        n += u32::from(count_part(&others[..=PART]));
        others = &others[PART..];
    }
    n + u32::from(count_part(others))
}
