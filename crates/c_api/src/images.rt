// write, open and feed_image for C.
ghost use Rattle.std.specs.Prelude.{◌≡◌};
ghost use Rattle.model.specs.Image.{wrote, write_of, open_of};
ghost use Rattle.model.specs.Lists.{feed_image_of};
ghost use Rattle.c_api.specs.Words.{record_in};
ghost use Rattle.c_api.specs.Worded.{worded, handed};

use crate::record::{get, nothing, number, parted, put, told};

#[unsafe(no_mangle)]
pub extern "C" fn lp_write(
    words: &[u32; 5],
    regs: &[u8],
    aux: &[u32],
    out: &mut [u8],
    len: &mut usize,
) -> u32
    ensures { wrote result len.new out.new ≡ write_of (record_in words.now) regs.now aux.now out.old }
{
    let written = image_write::write(get(words), regs, aux, out);
    *len = written.unwrap_or(0);
    number(written)
}

// `place`: where the image is wrong, if the answer says; else 0.
#[unsafe(no_mangle)]
pub extern "C" fn lp_open(
    image: &[u8],
    words: &mut [u32; 5],
    regs: &mut [u8],
    aux: &mut [u32],
    scratch: &mut [u32],
    place: &mut u32,
) -> u32
    ensures { worded result place.new words.new 0 regs.new aux.new ≡ handed words.old (open_of image.now regs.old aux.old scratch.old) }
{
    let opened = image_open::open(image, regs, aux, scratch);
    put(words, opened.unwrap_or(nothing()));
    told(opened, place)
}

// `place`: the first zero word's position, if the answer is that there is one; else 0.
#[unsafe(no_mangle)]
pub extern "C" fn lp_feed_image(
    words: &mut [u32; 5],
    regs: &mut [u8],
    aux: &mut [u32],
    scratch: &mut [u32],
    image: &[u8],
    taken: &mut usize,
    place: &mut u32,
) -> u32
    ensures { worded result place.new words.new taken.new regs.new aux.new ≡ handed words.old (feed_image_of (record_in words.old) regs.old aux.old scratch.old image.now) }
{
    let (fed, answer) = parted(image_feed::feed_image(get(words), regs, aux, scratch, image));
    put(words, fed.sketch);
    *taken = fed.taken;
    told(answer, place)
}
