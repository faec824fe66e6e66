// The first four refusals, which every call makes of a sketch handed in: KIND, LGK, SIZE, DAMAGED. start, which makes one, has the first three.
#![tactic(auto)]

ghost use Rattle.std.specs.Prelude.{◌≡◌, true, length, IfOk};
ghost use Rattle.model.specs.Answers.{number_of};
ghost use Rattle.model.specs.Sketch.{Shaped};
ghost use Rattle.model.specs.Check.{good_of, shape_no, check_no};
ghost use Rattle.model.specs.Calls.{IsOf};

use model::{Checked, Refusal, Sketch};

// What can be said without a look at the registers. Of any kind: a number, of which KIND is an answer (claim `Demand1`).
pub fn check_shape(kind: u8, lg_k: u8, len: usize) -> Result<(), Refusal>
    ensures { number_of result ≡ shape_no kind lg_k len }
{
    if !shape::is_kind(kind) {
        return Err(Refusal::Kind);
    }
    if !shape::is_lg_k(lg_k) {
        return Err(Refusal::LgK);
    }
    if len != shape::bytes_of(kind, lg_k) {
        return Err(Refusal::Size);
    }
    Ok(())
}

// Good order: the record alone, then the cells, then kind 4's table. Kinds 6 and 8 do not look at the exception area.
fn is_good(s: Sketch, regs: &[u8], aux: &[u32]) -> bool
    requires { Shaped s.kind s.lg_k (length regs.now) }
    ensures { result ≡ good_of s regs.now aux.now }
{
    if !survey::counts_fit(s) {
        return false;
    }
    let seen = survey::survey(s, regs);
    if !seen.values {
        return false;
    }
    if !seen.spare {
        return false;
    }
    if !seen.tally {
        return false;
    }
    s.kind != 4 || array4_read::table_fits(s, regs, aux, seen.tokens)
}

// `lent`: what else the call is lent has the right size. It is judged after the registers' own size, and before their order.
pub fn check(lent: bool, s: Sketch, regs: &[u8], aux: &[u32]) -> Result<(), Refusal>
    ensures { number_of result ≡ check_no lent s regs.now aux.now }
{
    check_shape(s.kind, s.lg_k, regs.len())?;
    if !lent {
        return Err(Refusal::Size);
    }
    if !is_good(s, regs, aux) {
        return Err(Refusal::Damaged);
    }
    Ok(())
}

// The same, and then what is handed on: it need not be checked again.
pub fn checked<'a>(
    lent: bool,
    sketch: Sketch,
    regs: &'a [u8],
    aux: &'a [u32],
) -> Result<Checked<'a>, Refusal>
    ensures answer { number_of result ≡ check_no lent sketch regs.now aux.now }
    ensures ok { IfOk result (IsOf sketch regs.now aux.now) }
{
    check(lent, sketch, regs, aux)?;
    Ok(Checked { sketch, regs, aux })
}
