// What an image holds into lent memory, by its header, which was decoded before. It is checked first, so that a refusal has written nothing.
#![tactic(auto)]

ghost use Rattle.std.specs.Prelude.{◌≡◌, map, ◌^◌, length};
ghost use Rattle.model.specs.Table.{base_for, made};
ghost use Rattle.model.specs.Sketch.{area_of};
ghost use Rattle.model.specs.Calls.{made_out};
ghost use Rattle.model.specs.Image.{homed, entries_in, open_of};
ghost use Rattle.image_load.specs.Loaded.{Accepted};

use image_header::Image;
use model::{Refusal, Sketch};
use shape::REGISTERS_BYTE;

// The exception area: for kind 4 the table of the image's entries, inserted in their order, and zeros. They go through scratch's end, as
// the table has them; kinds 6 and 8 leave both alone.
fn lay(image: Image, aux: &mut [u32], scratch: &mut [u32])
    requires { Accepted image (length aux.old) (length scratch.old) }
    ensures { aux.new ≡ area_of image.entry.header.kind (made (base_for image.entry.header.lg_k) (map (homed (2 ^ image.entry.header.lg_k)) (entries_in image.entry.bytes.now))) aux.old }
{
    let h = image.header;
    if h.kind != 4 {
        return;
    }
    let end = REGISTERS_BYTE + shape::bytes_of(h.kind, h.lg_k);
    let many = h.word_count();
    let top = image_words::collect(h.lg_k, &image.bytes[end..], many, scratch);
    aux.fill(0);
    let base = aux_map::base_for(h.lg_k);
    aux_table::build(aux, scratch, base, top);
}

pub fn load(
    image: Image,
    regs: &mut [u8],
    aux: &mut [u32],
    scratch: &mut [u32],
) -> Result<Sketch, Refusal>
    ensures { made_out result regs.new aux.new ≡ open_of image.entry.bytes.now regs.old aux.old scratch.old }
{
    image_check::check(image, regs.len(), aux.len(), scratch.len())?;
    let end = REGISTERS_BYTE + regs.len();
    packed::eight::copy(&image.bytes[REGISTERS_BYTE..end], regs);
    lay(image, aux, scratch);
    Ok(Sketch::from(image.header))
}
