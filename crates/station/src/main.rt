// A tour of the public calls on local memory: what they must give back is proved from their contracts, and expected again as it runs.
// What single calls give is computed, in numbers; that two routes lead to one image is demand 3 itself (crates/station_routes).
#![tactic(auto)]

ghost use Rattle.std.specs.Prelude.{◌≡◌, Ok, IsOk};
ghost use Rattle.station.specs.Tour.{eight, four, joined, refused, totals, flat};

use model::Sketch;
use std::io;

// A coupon has its value in the upper 6 bits and its slot in the lower 26.
const THREE_AT_FIVE: u32 = (5 << 26) + 3;

const ZERO_AT_FIFTEEN: u32 = 15 << 26;

#[derive(Clone, Copy)]
pub struct Eight {
    pub taken: usize,
    pub sketch: Sketch,
    pub regs: [u8; 16],
}

// Not one generic struct with Eight: kind 8's area is nothing to look at, so that `eight` says nothing of it.
#[derive(Clone, Copy)]
pub struct Four {
    pub taken: usize,
    pub sketch: Sketch,
    pub regs: [u8; 8],
    pub aux: [u32; 8],
}

#[derive(Clone, Copy)]
pub struct Joined {
    pub sketch: Sketch,
    pub regs: [u8; 16],
}

// Its sums' answer is a number.
#[derive(Clone, Copy)]
pub struct Totals {
    pub answer: u8,
    pub low: u64,
    pub high: u64,
}

#[derive(Clone, Copy)]
pub struct Flat {
    pub len: usize,
    pub bytes: [u8; 52],
}

// The answer by its number, as it is printed.
#[derive(Clone, Copy)]
pub struct Refused {
    pub answer: u8,
    pub taken: usize,
    pub regs: [u8; 16],
}

// What a call gave that is not refused, which is expected again as it runs.
fn expected<T, E: Drop>(answer: Result<T, E>) -> T
    requires { IsOk answer }
    ensures { answer ≡ Ok result }
{
    check::expect(answer.is_ok());
    answer.unwrap()
}

// Memory is lent with something in it, so that start has something to clear. The coupon, 5 to register 3, goes through the thin form.
fn fill_eight() -> Eight
    ensures { result ≡ eight }
{
    let mut regs = [7u8; 16];
    let mut aux = [9u32; 1];
    let mut scratch = [5u32; 1];
    let coupons = [THREE_AT_FIVE; 1];
    let empty = expected(sketch::start(8, 4, &mut regs, &mut aux));
    let fed = expected(sketch_in_place::feed_by_lending(
        empty,
        &mut regs,
        &mut aux,
        &mut scratch,
        &coupons,
    ));
    Eight {
        taken: fed.taken,
        sketch: fed.sketch,
        regs,
    }
}

// The coupon is 15 to register 0: the least value that a nibble above 0 can't hold.
fn fill_four() -> Four
    ensures { result ≡ four }
{
    let mut regs = [7u8; 8];
    let mut aux = [9u32; 8];
    let mut scratch = [5u32; 8];
    let coupons = [ZERO_AT_FIFTEEN; 1];
    let empty = expected(sketch::start(4, 4, &mut regs, &mut aux));
    let fed = expected(sketch::feed(empty, &mut regs, &mut aux, &mut scratch, &coupons));
    Four {
        taken: fed.taken,
        sketch: fed.sketch,
        regs,
        aux,
    }
}

fn join(target: Eight, source: Four) -> Joined
    requires { (target ≡ eight) × (source ≡ four) }
    ensures { result ≡ joined }
{
    let mut regs = target.regs;
    let sketch = expected(sketch::merge(
        target.sketch,
        &mut regs,
        source.sketch,
        &source.regs,
        &source.aux,
    ));
    Joined { sketch, regs }
}

// A record of no kind is refused before anything is written.
fn refuse(held: Joined) -> Refused
    requires { held ≡ joined }
    ensures { result ≡ refused }
{
    let mut regs = held.regs;
    let mut aux = [9u32; 1];
    let mut scratch = [5u32; 1];
    let coupons = [THREE_AT_FIVE; 1];
    let odd = Sketch {
        kind: 5,
        lg_k: 4,
        cur_min: 0,
        num_at_cur_min: 14,
        aux_count: 0,
    };
    let stopped = sketch::feed(odd, &mut regs, &mut aux, &mut scratch, &coupons).unwrap_err();
    Refused {
        answer: stopped.why.number(),
        taken: stopped.fed.taken,
        regs,
    }
}

// The two sums as the bits of their doubles, in which two results can be told apart.
fn add_up(held: Joined) -> Totals
    requires { held ≡ joined }
    ensures { result ≡ totals }
{
    let sums = sketch_sums::sums(held.sketch, &held.regs, &[9u32; 1]);
    Totals {
        answer: sums.answer,
        low: f64::to_bits(sums.kxq0),
        high: f64::to_bits(sums.kxq1),
    }
}

fn write_out(held: Four) -> Flat
    requires { held ≡ four }
    ensures { result ≡ flat }
{
    let mut bytes = [3u8; 52];
    let len = expected(image_write::write(held.sketch, &held.regs, &held.aux, &mut bytes));
    Flat { len, bytes }
}

// Each part of main expects and prints what its own calls gave.
fn show_joined(rt: &impl Print, f: Four) -> io::Result<()>
    requires { f ≡ four }
{
    let e = fill_eight();
    check::expect(e.taken == 1);
    let j = join(e, f);
    let zeros = j.sketch.num_at_cur_min;
    check::expect(zeros == 14);
    print!(rt; "registers at zero {zeros}")?;
    show_sums(rt, j)?;
    show_refusal(rt, j)
}

fn show_sums(rt: &impl Print, j: Joined) -> io::Result<()>
    requires { j ≡ joined }
{
    let Totals { answer, low, high } = add_up(j);
    check::expect(answer == 0);
    check::expect(low == 0x402c100400000000);
    check::expect(high == 0);
    print!(rt; "\nkxq0 {low:016x}\nkxq1 {high:016x}")
}

fn show_refusal(rt: &impl Print, j: Joined) -> io::Result<()>
    requires { j ≡ joined }
{
    let Refused {
        answer,
        taken,
        regs,
    } = refuse(j);
    let wanted = [15u8, 0, 0, 5, 0, 0, 0, 0, 0, 0, 0, 0, 0, 0, 0, 0];
    check::expect(check::same(&regs, &wanted));
    check::expect(answer == 1);
    check::expect(taken == 0);
    print!(rt; "\nkind 5 is refused by {answer}")
}

fn show_image(rt: &impl Print, f: Four) -> io::Result<()>
    requires { f ≡ four }
{
    let len = write_out(f).len;
    check::expect(len == 52);
    print!(rt; "\nimage bytes {len}")
}

// Any two batches would do: these raise a kind 4 sketch's exceptions, and share a coupon.
fn show_routes(rt: &impl Print) -> io::Result<()> {
    let some = [ZERO_AT_FIFTEEN, THREE_AT_FIVE, 0xffffffff];
    let others = [THREE_AT_FIVE, 0, ZERO_AT_FIFTEEN + 16];
    check::expect(station_routes::same_by_two_routes(&some, &others));
    check::expect(station_routes::same_by_two_routes(&others, &[]));
    println!(rt; "\nmerged or fed, sent or not: the same image")
}

fn main(rt: HostRuntime) -> io::Result<()> {
    let f = fill_four();
    check::expect(f.taken == 1);
    check::expect(f.sketch.aux_count == 1);
    show_joined(&rt, f)?;
    show_image(&rt, f)?;
    show_routes(&rt)
}
