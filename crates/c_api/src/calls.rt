// start, feed, unpack, view, merge and sums for C.
ghost use Rattle.std.specs.Prelude.{◌≡◌, [], length};
ghost use Rattle.model.specs.Calls.{start_of, feed_of, unpacked_to, unpack_of, view_of, merge_of, sums_of};
ghost use Rattle.c_api.specs.Words.{narrowed, record_in};
ghost use Rattle.c_api.specs.Worded.{worded, handed, two, two_of};

use crate::record::{get, narrow, nothing, number, parted, put};

#[unsafe(no_mangle)]
pub extern "C" fn lp_start(
    kind: u32,
    lg_k: u32,
    words: &mut [u32; 5],
    regs: &mut [u8],
    aux: &mut [u32],
) -> u32
    ensures { worded result 0 words.new 0 regs.new aux.new ≡ handed words.old (start_of (narrowed kind) (narrowed lg_k) regs.old aux.old) }
{
    let made = sketch::start(narrow(kind), narrow(lg_k), regs, aux);
    put(words, made.unwrap_or(nothing()));
    number(made)
}

#[unsafe(no_mangle)]
pub extern "C" fn lp_feed(
    words: &mut [u32; 5],
    regs: &mut [u8],
    aux: &mut [u32],
    scratch: &mut [u32],
    coupons: &[u32],
    taken: &mut usize,
) -> u32
    ensures { worded result 0 words.new taken.new regs.new aux.new ≡ handed words.old (feed_of (record_in words.old) regs.old aux.old scratch.old coupons.now) }
{
    let (fed, answer) = parted(sketch::feed(get(words), regs, aux, scratch, coupons));
    put(words, fed.sketch);
    *taken = fed.taken;
    number(answer)
}

#[unsafe(no_mangle)]
pub extern "C" fn lp_unpack(words: &[u32; 5], regs: &[u8], aux: &[u32], out: &mut [u8]) -> u32
    ensures { unpacked_to result out.new ≡ unpack_of (record_in words.now) regs.now aux.now out.old }
{
    number(sketch::unpack(get(words), regs, aux, out))
}

// How many registers `regs` shows: all of its bytes, or none.
#[unsafe(no_mangle)]
pub extern "C" fn lp_view(words: &[u32; 5], regs: &[u8]) -> usize
    ensures { result ≡ length (view_of (record_in words.now) regs.now) }
{
    sketch::view(get(words), regs).len()
}

#[unsafe(no_mangle)]
pub extern "C" fn lp_merge(
    target: &mut [u32; 5],
    tregs: &mut [u8],
    source: &[u32; 5],
    sregs: &[u8],
    saux: &[u32],
) -> u32
    ensures { worded result 0 target.new 0 tregs.new [] ≡ handed target.old (merge_of (record_in target.old) tregs.old (record_in source.now) sregs.now saux.now) }
{
    let came = get(target);
    let merged = sketch::merge(came, tregs, get(source), sregs, saux);
    put(target, merged.unwrap_or(came));
    number(merged)
}

// kxq0 and kxq1.
#[unsafe(no_mangle)]
pub extern "C" fn lp_sums(words: &[u32; 5], regs: &[u8], aux: &[u32], sums: &mut [f64; 2]) -> u32
    ensures { two result sums.new ≡ two_of (sums_of (record_in words.now) regs.now aux.now) }
{
    let found = sketch_sums::sums(get(words), regs, aux);
    *sums = [found.kxq0, found.kxq1];
    u32::from(found.answer)
}
