// feed over a record that is lent and changed in place. It is thin: the record is taken out, fed by value, and put back.
#![tactic(auto)]

ghost use Rattle.std.specs.Prelude.{◌≡◌};
ghost use Rattle.model.specs.Calls.{fed_out, feed_of};
ghost use Rattle.sketch_in_place.specs.InPlace.{fed_in_place_out};

use model::{Fed, Refusal, Sketch, Stopped};

// Why a batch was refused or stopped, and how many of its coupons were taken all the same. The record is in its place.
#[derive(Clone, Copy)]
pub struct StoppedInPlace {
    pub why: Refusal,
    pub taken: usize,
}

// How many coupons were taken.
pub fn feed_in_place(
    sketch: &mut Sketch,
    regs: &mut [u8],
    aux: &mut [u32],
    scratch: &mut [u32],
    coupons: &[u32],
) -> Result<usize, StoppedInPlace>
    ensures { fed_in_place_out result sketch.new regs.new aux.new ≡ feed_of sketch.old regs.old aux.old scratch.old coupons.now }
{
    match sketch::feed(*sketch, regs, aux, scratch, coupons) {
        Ok(fed) => {
            *sketch = fed.sketch;
            Ok(fed.taken)
        }
        Err(Stopped { why, fed }) => {
            *sketch = fed.sketch;
            Err(StoppedInPlace {
                why,
                taken: fed.taken,
            })
        }
    }
}

// A record by value through the thin form: it is kept in a local, and lent.
pub fn feed_by_lending(
    mut sketch: Sketch,
    regs: &mut [u8],
    aux: &mut [u32],
    scratch: &mut [u32],
    coupons: &[u32],
) -> Result<Fed, Stopped>
    ensures { fed_out result regs.new aux.new ≡ feed_of sketch regs.old aux.old scratch.old coupons.now }
{
    match feed_in_place(&mut sketch, regs, aux, scratch, coupons) {
        Ok(taken) => Ok(Fed { sketch, taken }),
        Err(StoppedInPlace { why, taken }) => Err(Stopped {
            why,
            fed: Fed { sketch, taken },
        }),
    }
}
