// The public call sums: kxq0 and kxq1 of a sketch of any kind. It asks for nothing, and its contract is one equation for every input.
#![tactic(auto)]

ghost use Rattle.std.specs.Prelude.{◌≡◌};
ghost use Rattle.model.specs.Calls.{sums_of};
ghost use Rattle.sums.specs.Tally.{summed};

use model::Sketch;
use sums::Sums;

// Where a check refuses, both sums are +0.
pub fn sums(sketch: Sketch, regs: &[u8], aux: &[u32]) -> Sums
    ensures { summed result ≡ sums_of sketch regs.now aux.now }
{
    match sketch_check::checked(true, sketch, regs, aux) {
        Err(why) => Sums {
            answer: why.number(),
            kxq0: 0.0,
            kxq1: 0.0,
        },
        Ok(held) => sums::from_counts(block_counts::counts(held)),
    }
}
