// The writing side of the binary image, below the public call: `serialize` of the arrays. Whoever calls has checked the sketch, has worked
// out its two sums, and has seen by `image_len` that the buffer has room.
#![tactic(auto)]

mod header;
mod words;

ghost use Rattle.std.specs.Prelude.{◌≡◌, ◌++◌, length, drop};
ghost use Rattle.model.specs.Image.{image_in};
ghost use Rattle.image_put.specs.Write.{Writable};

use header::put_header;
use model::Checked;
use packed::eight::put;
use shape::REGISTERS_BYTE;
use sums::Sums;
use words::put_words;

// Forty bytes, the registers, and four bytes for each exception, of which the record counts the words.
pub fn image_len(held: Checked) -> usize
    ensures { result ≡ length (image_in held.entry.sketch held.entry.regs.now held.entry.aux.now) }
{
    REGISTERS_BYTE + held.regs.len() + 4 * (held.sketch.aux_count as usize)
}

// The image over the front of the buffer; bytes past it stay. Kinds 6 and 8 have an exception count of zero, so no words follow.
pub fn write_image(held: Checked, sums: Sums, out: &mut [u8])
    requires { Writable held sums.kxq0 sums.kxq1 out.old }
    ensures { out.new ≡ image_in held.entry.sketch held.entry.regs.now held.entry.aux.now ++ drop (length (image_in held.entry.sketch held.entry.regs.now held.entry.aux.now)) out.old }
{
    let s = held.sketch;
    let regs = held.regs;
    put_header(s, sums, out);
    put(&mut out[REGISTERS_BYTE..], 0, regs);
    put_words(
        out,
        REGISTERS_BYTE + regs.len(),
        held.aux,
        s.aux_count as usize,
    );
}
