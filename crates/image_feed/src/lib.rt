// The public call feed_image: the coupons of a list or a set into a sketch of any kind, from the image's own bytes. It asks for nothing: its contract is one
// equation, which fixes the answer, the record, the count and all lent memory but scratch, for every input.
#![tactic(auto)]

ghost use Rattle.std.specs.Prelude.{◌≡◌, ◌+◌, ◌*◌, ◌^◌, ◌<◌, ◌≤◌, length};
ghost use Rattle.model.specs.Packed.{unpacked};
ghost use Rattle.model.specs.Calls.{fed_out, batch_of};
ghost use Rattle.model.specs.Lists.{feed_image_of};
ghost use Rattle.sketch_feed.specs.Asked.{Ready};
ghost use Rattle.image_feed.specs.Judged.{later, Judged};

use image_list::Coupons;
use model::{Fed, Refusal, Sketch, Stopped};

// Words that are fed at a time: enough that what a batch costs besides its coupons does not show.
const BLOCK: usize = 64;

// A block is unpacked here, so that no buffer is asked for.
fn feed_block(
    s: Sketch,
    regs: &mut [u8],
    aux: &mut [u32],
    scratch: &mut [u32],
    words: &[u8],
    n: usize,
) -> Result<Fed, Stopped>
    requires { Ready s regs.old aux.old scratch.old × (n ≤ 64) × (4 * n ≤ length words.now) }
    ensures { fed_out result regs.new aux.new ≡ batch_of s regs.old aux.old (unpacked 32 n words.now) }
{
    let mut block = [0u32; BLOCK];
    packed::words::unpack(words, &mut block[..n]);
    sketch_feed::feed(s, regs, aux, scratch, &block[..n])
}

// A block that stopped, after i words that were taken.
fn behind(i: usize, stopped: Stopped) -> Stopped
    requires { i + stopped.fed.taken < 2 ^ 64 }
    ensures { result ≡ later i stopped }
{
    Stopped {
        why: stopped.why,
        fed: Fed {
            sketch: stopped.fed.sketch,
            taken: i + stopped.fed.taken,
        },
    }
}

// Block by block. Where one stops, those before it have been taken whole.
// Not over `chunks`: that was proved too, but took 2,398 ns for 300 coupons into kind 4 and 20,545 for 3,000, where this takes 1,990 and 16,650.
fn feed_words(
    s: Sketch,
    regs: &mut [u8],
    aux: &mut [u32],
    scratch: &mut [u32],
    words: &[u8],
    many: usize,
) -> Result<Fed, Stopped>
    requires { Ready s regs.old aux.old scratch.old × (4 * many ≤ length words.now) }
    ensures { fed_out result regs.new aux.new ≡ batch_of s regs.old aux.old (unpacked 32 many words.now) }
{
    let mut fed = s;
    let mut i = 0;
    while i < many {
        let n = BLOCK.min(many - i);
        match feed_block(fed, regs, aux, scratch, &words[4 * i..], n) {
            Ok(block) => fed = block.sketch,
            Err(stopped) => return Err(behind(i, stopped)),
        }
        i += n;
    }
    Ok(Fed {
        sketch: fed,
        taken: i,
    })
}

// All that refuses, before a word is fed.
fn check(
    sketch: Sketch,
    regs: &[u8],
    aux: &[u32],
    scratch: &[u32],
    image: &[u8],
) -> Result<Coupons, Refusal>
    ensures { Judged sketch regs.now aux.now scratch.now image.now result }
{
    sketch_feed::check(sketch, regs, aux, scratch.len())?;
    image_list::preamble(image)?;
    let c = image_list::coupons_in(image);
    image_list::check(image, c, sketch.lg_k)?;
    Ok(c)
}

pub fn feed_image(
    sketch: Sketch,
    regs: &mut [u8],
    aux: &mut [u32],
    scratch: &mut [u32],
    image: &[u8],
) -> Result<Fed, Stopped>
    ensures { fed_out result regs.new aux.new ≡ feed_image_of sketch regs.old aux.old scratch.old image.now }
{
    match check(sketch, regs, aux, scratch, image) {
        Err(why) => Err(sketch_feed::refused(why, sketch)),
        Ok(c) => feed_words(sketch, regs, aux, scratch, &image[c.words..], c.count),
    }
}
