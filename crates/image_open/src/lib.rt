// The public call open. It asks for nothing, and its contract is one equation for every input.
#![tactic(auto)]

ghost use Rattle.std.specs.Prelude.{◌≡◌};
ghost use Rattle.model.specs.Calls.{made_out};
ghost use Rattle.model.specs.Image.{open_of};

use model::{Refusal, Sketch};

pub fn open(
    image: &[u8],
    regs: &mut [u8],
    aux: &mut [u32],
    scratch: &mut [u32],
) -> Result<Sketch, Refusal>
    ensures { made_out result regs.new aux.new ≡ open_of image.now regs.old aux.old scratch.old }
{
    let image = image_header::read(image)?;
    image_load::load(image, regs, aux, scratch)
}
