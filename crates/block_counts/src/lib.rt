// The sixty-four counts of a sketch's registers, whatever its kind: the floors by blocks, and then the words of the table.
#![tactic(auto)]

ghost use Rattle.std.specs.Prelude.{length};
ghost use Rattle.model.specs.Sketch.{floors, registers};
ghost use Rattle.sums.specs.Tally.{Counted};
ghost use Rattle.block_counts.specs.Asked.{Small, Countable};

use model::{Checked, Sketch};

// By blocks as long as `some`, which is lent for them alone. The counts are lent too: handed on by value they would be copied each time.
fn count_by(s: Sketch, regs: &[u8], some: &mut [u8], seen: &mut [u32; 64])
    requires { Countable s regs.now (length some.old) seen.old }
    ensures { Counted (floors s regs.now) seen.new }
{
    let n = some.len();
    for block in 0..shape::num_registers(s.lg_k) / n {
        blocks::floors(s, regs, block * n, some);
        sums::count_all(seen, some);
    }
}

fn count_floors(s: Sketch, regs: &[u8], seen: &mut [u32; 64])
    requires { Small s regs.now seen.old }
    ensures { Counted (floors s regs.now) seen.new }
{
    let mut some = [0u8; 256];
    let n = blocks::block_len(shape::num_registers(s.lg_k));
    count_by(s, regs, &mut some[..n], seen);
}

// Each word of the table moves one register from its floor, which is cur_min + 15, to the word's value: no search.
pub fn counts(held: Checked) -> [u32; 64]
    ensures { Counted (registers held.entry.sketch held.entry.regs.now held.entry.aux.now) result }
{
    let s = held.sketch;
    let mut seen = [0u32; 64];
    count_floors(s, held.regs, &mut seen);
    if s.kind != 4 {
        return seen;
    }
    let size = array4_read::table_len(s);
    let moved = sums::count_words(&mut seen, &held.aux[..size]);
    if moved == 0 {
        return seen;
    }
    sums::count_out(&mut seen, s.cur_min + 15, moved);
    seen
}
