// Writing an image: the public call over image_put. It asks for nothing, and its contract is one equation for every input.
#![tactic(auto)]

ghost use Rattle.std.specs.Prelude.{◌≡◌};
ghost use Rattle.model.specs.Image.{wrote_out, write_of};

use model::{Refusal, Sketch};

// How long the image is.
pub fn write(sketch: Sketch, regs: &[u8], aux: &[u32], out: &mut [u8]) -> Result<usize, Refusal>
    ensures { wrote_out result out.new ≡ write_of sketch regs.now aux.now out.old }
{
    let held = sketch_check::checked(true, sketch, regs, aux)?;
    let len = image_put::image_len(held);
    if out.len() < len {
        return Err(Refusal::Out);
    }
    let sums = sums::from_counts(block_counts::counts(held));
    image_put::write_image(held, sums, out);
    Ok(len)
}
