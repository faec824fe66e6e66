// The exception words of a kind 4 image, cells of 32 bits behind its register bytes, as a table is built of them: the entries go to scratch's end.
#![tactic(auto)]

ghost use Rattle.std.specs.Prelude.{◌≡◌, ◌^◌, ◌≤◌};
ghost use Rattle.model.specs.Image.{homed};
ghost use Rattle.image_words.specs.Entries.{Collectable, Collected};

// A word as the table has it: its slot modulo the number of registers.
fn take(lg_k: u8, w: u32) -> u32
    requires { lg_k ≤ 21 }
    ensures { result ≡ homed (2 ^ lg_k) w }
{
    coupon::word(coupon::home(lg_k, w), coupon::value(w))
}

// The entries, as the table will have them and in their order, to the end of `into`. The answer is where they start.
pub fn collect(lg_k: u8, words: &[u8], many: usize, into: &mut [u32]) -> usize
    requires { Collectable lg_k words.now many into.old }
    ensures { Collected lg_k words.now many into.new result }
{
    let mut top = into.len();
    for j in (0..many).rev() {
        let w = packed::words::word_at(words, j);
        if !coupon::is_empty(w) {
            top -= 1;
            into[top] = take(lg_k, w);
        }
    }
    top
}
