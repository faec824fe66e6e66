// The exception words of an image: those of a table that are not empty, in table order, four bytes each.
ghost use Rattle.std.specs.Prelude.{◌≡◌};
ghost use Rattle.image_put.specs.Parts.{over, word_bytes};
ghost use Rattle.image_put.specs.Write.{WordsFit};

use packed::eight::put;
use packed::words::u32_bytes;

// The walk ends with the last word and not with the slice, so an area much longer than its table costs nothing.
pub fn put_words(out: &mut [u8], at: usize, words: &[u32], count: usize)
    requires { WordsFit words.now count out.old at }
    ensures { out.new ≡ over out.old at (word_bytes count words.now) }
{
    let entries = words.iter().copied().filter(|w| !coupon::is_empty(*w));
    for (n, w) in entries.take(count).enumerate() {
        put(out, at + 4 * n, &u32_bytes(w));
    }
}
