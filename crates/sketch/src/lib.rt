// The public calls over a sketch whose record goes in and comes out by value: start, view, feed, unpack, merge. No call asks for anything:
// each contract is one equation, which fixes the answer, the record, the count and all lent memory but scratch, for every input.
#![tactic(auto)]

ghost use Rattle.std.specs.Prelude.{◌≡◌, [], true, ◌^◌, eqb, length};
ghost use Rattle.model.specs.Answers.{number_of};
ghost use Rattle.model.specs.Registers.{joined};
ghost use Rattle.model.specs.Sketch.{area_of, registers};
ghost use Rattle.model.specs.Calls.{kept_or, made_out, fed_out, start_of, feed_of, unpacked_to, unpack_of, eight_no, view_of, merge_of};
ghost use Rattle.sketch.specs.Asked.{Joinable};

use model::{Checked, Fed, Refusal, Sketch, Stopped};

// Kinds 6 and 8 leave the exception area alone.
fn clear_area(kind: u8, aux: &mut [u32])
    ensures { aux.new ≡ area_of kind [] aux.old }
{
    if kind == 4 {
        aux.fill(0);
    }
}

// Any kind may be asked for: it is a number, of which KIND is an answer.
pub fn start(kind: u8, lg_k: u8, regs: &mut [u8], aux: &mut [u32]) -> Result<Sketch, Refusal>
    ensures { made_out result regs.new aux.new ≡ start_of kind lg_k regs.old aux.old }
{
    sketch_check::check_shape(kind, lg_k, regs.len())?;
    let k = shape::num_registers(lg_k);
    regs.fill(0);
    clear_area(kind, aux);
    Ok(sketch_feed::plain(kind, lg_k, k as u32))
}

// Whether a sketch is of kind 8 and in good order. It is lent no exception area, and needs none.
fn check_eight(s: Sketch, regs: &[u8]) -> Result<(), Refusal>
    ensures { number_of result ≡ eight_no s regs.now }
{
    if s.kind != 8 {
        return Err(Refusal::Kind);
    }
    sketch_check::check(true, s, regs, &[])
}

// The lent registers themselves, uncopied: the reference handed in. Where a check refuses, an empty part of it.
pub fn view(sketch: Sketch, regs: &[u8]) -> &[u8]
    ensures { (result.now ≡ view_of sketch regs.now) × (eight_no sketch regs.now ≡ 0 → result ≡ regs.entry) }
{
    match check_eight(sketch, regs) {
        Err(_) => &regs[..0],
        Ok(()) => array8::values(regs),
    }
}

pub fn feed(
    sketch: Sketch,
    regs: &mut [u8],
    aux: &mut [u32],
    scratch: &mut [u32],
    coupons: &[u32],
) -> Result<Fed, Stopped>
    ensures { fed_out result regs.new aux.new ≡ feed_of sketch regs.old aux.old scratch.old coupons.now }
{
    match sketch_feed::check(sketch, regs, aux, scratch.len()) {
        Err(why) => Err(sketch_feed::refused(why, sketch)),
        Ok(()) => sketch_feed::feed(sketch, regs, aux, scratch, coupons),
    }
}

// Any lg_k may be asked about: from 64 on no slice is so long.
fn is_count(len: usize, lg_k: u8) -> bool
    ensures { result ≡ eqb len (2 ^ lg_k) }
{
    lg_k < 64 && len == 1usize << lg_k
}

// Floors, and then the exceptions, word by word.
fn unpack_good(held: Checked, out: &mut [u8])
    requires { length out.old ≡ 2 ^ held.sketch.lg_k }
    ensures { out.new ≡ registers held.entry.sketch held.entry.regs.now held.entry.aux.now }
{
    blocks::floors(held.sketch, held.regs, 0, out);
    blocks::raise_exceptions(held.sketch, held.aux, out);
}

pub fn unpack(sketch: Sketch, regs: &[u8], aux: &[u32], out: &mut [u8]) -> Result<(), Refusal>
    ensures { unpacked_to (number_of result) out.new ≡ unpack_of sketch regs.now aux.now out.old }
{
    let fits = is_count(out.len(), sketch.lg_k);
    let held = sketch_check::checked(fits, sketch, regs, aux)?;
    unpack_good(held, out);
    Ok(())
}

// The same into registers that hold something already: no buffer is asked for.
fn join_blocks(held: Checked, target: &mut [u8])
    requires { Joinable held.sketch (length target.old) }
    ensures { target.new ≡ joined (length target.old) target.old (registers held.entry.sketch held.entry.regs.now held.entry.aux.now) }
{
    blocks::pour(held.sketch, held.regs, target);
    blocks::raise_exceptions(held.sketch, held.aux, target);
}

// Kind 8 has its registers at hand, and merges as the Rust does. With as many registers no slot is reduced.
fn join(held: Checked, target: &mut [u8])
    requires { Joinable held.sketch (length target.old) }
    ensures { target.new ≡ joined (length target.old) target.old (registers held.entry.sketch held.entry.regs.now held.entry.aux.now) }
{
    if held.sketch.kind != 8 {
        join_blocks(held, target);
    } else if target.len() == held.regs.len() {
        array8::merge_array_same_lgk(target, held.regs);
    } else {
        array8::merge_array_with_downsample(target, held.regs);
    }
}

// Refused, the target's record is the one that came.
pub fn merge(
    target: Sketch,
    tregs: &mut [u8],
    source: Sketch,
    sregs: &[u8],
    saux: &[u32],
) -> Result<Sketch, Refusal>
    ensures { kept_or target result tregs.new [] ≡ merge_of target tregs.old source sregs.now saux.now }
{
    check_eight(target, tregs)?;
    let held = sketch_check::checked(true, source, sregs, saux)?;
    if source.lg_k < target.lg_k {
        return Err(Refusal::Finer);
    }
    join(held, tregs);
    let left = survey_whole::count(8, tregs, 0);
    Ok(sketch_feed::plain(8, target.lg_k, left))
}
