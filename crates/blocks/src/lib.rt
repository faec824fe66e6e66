// The one reader of a sketch's registers, of whichever kind. The registers are the floors, cur_min above each cell, fed the words of the
// exception table as if they were coupons: whoever takes in the floors and then the words needs no search, and knows no kind.
// Cells, floors and registers are read in blocks of neighbouring slots, as long as the buffer that is lent: sixteen of them or a multiple, since
// sixteen cells of 4, 6 and 8 bits start and end at whole bytes. All of a sketch is a block too.
#![tactic(auto)]

ghost use Rattle.std.specs.Prelude.{◌≡◌, map, ◌+◌, ◌≤◌, length, take, drop};
ghost use Rattle.model.specs.Registers.{fed, joined};
ghost use Rattle.model.specs.Sketch as book;
ghost use Rattle.model.specs.Sketch.{table_in};
ghost use Rattle.array8.specs.Asked.{Power};
ghost use Rattle.blocks.specs.Asked.{Within, Liftable, Floor, PourableBy, Pourable, Worded, Block, Block4, Long};

use model::Sketch;

// What stands at the slots, and kind 4's tokens as they are: it needs neither the exception table nor good order.
pub fn cells(s: Sketch, regs: &[u8], from: usize, out: &mut [u8])
    requires { Within s (length regs.now) from (length out.old) }
    ensures { out.new ≡ take (length out.old) (drop from (book.cells s regs.now)) }
{
    let n = out.len();
    match s.kind {
        8 => packed::eight::copy(&regs[from..from + n], out),
        6 => {
            let at = from / 4 * 3;
            packed::six::unpack(&regs[at..at + n / 4 * 3 + 1], out)
        }
        _ => {
            let at = from / 2;
            packed::four::unpack(&regs[at..at + n / 2], out)
        }
    }
}

// The loop has no branch.
fn lift(out: &mut [u8], by: u8)
    requires { Liftable by out.old }
    ensures { out.new ≡ map (◌+◌ by) out.old }
{
    for cell in out.iter_mut() {
        *cell += by;
    }
}

// cur_min above each cell, kind 4's tokens too: neither the exception table nor a search. The other kinds' cur_min is 0.
pub fn floors(s: Sketch, regs: &[u8], from: usize, out: &mut [u8])
    requires { Floor s (length regs.now) from (length out.old) }
    ensures { out.new ≡ take (length out.old) (drop from (book.floors s regs.now)) }
{
    cells(s, regs, from, out);
    if s.cur_min == 0 {
        return;
    }
    lift(out, s.cur_min);
}

// How long a block is where all registers are gone over: what a call costs is then little beside its work, and the buffer stays small.
pub fn block_len(k: usize) -> usize
    ensures { (p : Power k) → 4 ≤ p.lg → Long p.lg result }
{
    k.min(256)
}

// By blocks as long as `some`, which is lent for them alone. block_counts::count_by is the same walk, a `for` and one call, with another step: as one
// function over a closure its contract would be a relation between the closure's states before and after every block.
fn pour_by(s: Sketch, regs: &[u8], some: &mut [u8], target: &mut [u8])
    requires { PourableBy s (length regs.now) (length some.old) (length target.old) }
    ensures { target.new ≡ joined (length target.old) target.old (book.floors s regs.now) }
{
    let n = some.len();
    for block in 0..shape::num_registers(s.lg_k) / n {
        let from = block * n;
        floors(s, regs, from, some);
        array8::merge_block(target, from, some);
    }
}

// All floors into kind 8's registers, as many or fewer.
pub fn pour(s: Sketch, regs: &[u8], target: &mut [u8])
    requires { Pourable s (length regs.now) (length target.old) }
    ensures { target.new ≡ joined (length target.old) target.old (book.floors s regs.now) }
{
    let mut some = [0u8; 256];
    let n = block_len(target.len());
    pour_by(s, regs, &mut some[..n], target);
}

// What no floor says: the words of kind 4's table, each as if it were a coupon. Where the floors are, whoever feeds these has the registers.
pub fn raise_exceptions(s: Sketch, aux: &[u32], target: &mut [u8])
    requires { Worded s (length aux.now) (length target.old) }
    ensures { target.new ≡ fed (length target.old) target.old (table_in s aux.now) }
{
    if s.kind != 4 {
        return;
    }
    let size = array4_read::table_len(s);
    array8::raise_words(target, &aux[..size]);
}

// Kind 4's nibbles made registers one after the other: a token by a search.
fn resolve(s: Sketch, regs: &[u8], aux: &[u32], from: usize, out: &mut [u8])
    requires { Block4 s regs.now aux.now from (length out.old) }
    ensures { out.new ≡ take (length out.old) (drop from (book.registers s regs.now aux.now)) }
{
    for (i, register) in out.iter_mut().enumerate() {
        *register = array4_read::get(s, regs, aux, (from + i) as u32);
    }
}

// The registers in slot order, for whoever has to meet each in its turn.
pub fn registers(s: Sketch, regs: &[u8], aux: &[u32], from: usize, out: &mut [u8])
    requires { Block s regs.now aux.now from (length out.old) }
    ensures { out.new ≡ take (length out.old) (drop from (book.registers s regs.now aux.now)) }
{
    if s.kind == 4 {
        resolve(s, regs, aux, from, out);
        return;
    }
    cells(s, regs, from, out);
}
