// Coupons into a sketch, whatever its kind: the checks that come first, and the batch behind them. feed and feed_image share it.
#![tactic(auto)]

ghost use Rattle.std.specs.Prelude.{◌≡◌, [], ◌^◌, length};
ghost use Rattle.model.specs.Answers.{number_of};
ghost use Rattle.model.specs.Registers.{fed};
ghost use Rattle.model.specs.Sketch.{sketch_of, registers};
ghost use Rattle.model.specs.Check.{scratch_fits, check_no};
ghost use Rattle.model.specs.Calls.{fed_out, refused_fed, batch_of};
ghost use Rattle.sketch_feed.specs.Asked.{Ready, Plain};
ghost use Rattle.sketch_feed.specs.Given.{KeptAs};

use model::{Fed, Refusal, Sketch, Stopped};

// A record that says only how many registers are zero: of kinds 6 and 8, and of an empty sketch. The kind is a number, as in the record.
pub fn plain(kind: u8, lg_k: u8, zeros: u32) -> Sketch
    ensures { result ≡ sketch_of kind lg_k 0 zeros 0 }
{
    Sketch {
        kind,
        lg_k,
        cur_min: 0,
        num_at_cur_min: zeros,
        aux_count: 0,
    }
}

// The sketch's checks, with SIZE of scratch among them.
pub fn check(s: Sketch, regs: &[u8], aux: &[u32], scratch_len: usize) -> Result<(), Refusal>
    ensures { number_of result ≡ check_no (scratch_fits s.kind (length aux.now) scratch_len) s regs.now aux.now }
{
    let fits = shape::scratch_fits(s.kind, aux.len(), scratch_len);
    sketch_check::check(fits, s, regs, aux)
}

// Nothing was fed: the record is the one that came.
pub fn refused(why: Refusal, sketch: Sketch) -> Stopped
    ensures { result ≡ refused_fed why sketch }
{
    Stopped {
        why,
        fed: Fed { sketch, taken: 0 },
    }
}

// Kinds 6 and 8 take every coupon.
fn feed_plain(s: Sketch, regs: &mut [u8], coupons: &[u32]) -> Sketch
    requires { Plain s regs.old }
    ensures { KeptAs s.kind s.lg_k (fed (2 ^ s.lg_k) (registers s regs.old []) coupons.now) result regs.new }
{
    let lg_k = s.lg_k;
    let zeros = s.num_at_cur_min;
    if s.kind == 8 {
        let left = array8::feed(lg_k, zeros, regs, coupons);
        return plain(8, lg_k, left);
    }
    let left = array6::feed(lg_k, zeros, regs, coupons);
    plain(6, lg_k, left)
}

// The batch, of a sketch that has passed its checks.
pub fn feed(
    s: Sketch,
    regs: &mut [u8],
    aux: &mut [u32],
    scratch: &mut [u32],
    coupons: &[u32],
) -> Result<Fed, Stopped>
    requires { Ready s regs.old aux.old scratch.old }
    ensures { fed_out result regs.new aux.new ≡ batch_of s regs.old aux.old coupons.now }
{
    if s.kind == 4 {
        return array4::feed(s, regs, aux, scratch, coupons);
    }
    Ok(Fed {
        sketch: feed_plain(s, regs, coupons),
        taken: coupons.len(),
    })
}
