// Coupon lists and coupon sets, the compact images of stations that have read little, after list.rs and hash_set.rs: how they are laid out, what they say,
// and whether they may be fed to a sketch. It looks at the image alone. Nothing is written.
#![tactic(auto)]

ghost use Rattle.std.specs.Prelude.{◌≡◌, ◌*◌, ◌≤◌, eqb, length, get_or};
ghost use Rattle.std.specs.List.{position, range_with_len};
ghost use Rattle.model.specs.Pick.{both};
ghost use Rattle.model.specs.Answers.{said, said_of};
ghost use Rattle.model.specs.Packed.{slot_at};
ghost use Rattle.model.specs.Lists.{layout_of, preamble_no, coupons_no, empty_place};
ghost use Rattle.image_list.specs.Read.{layout_as, coupons_at, Read};

use model::Refusal;
use shape::{FLAGS_BYTE, LG_K_BYTE, MAGIC_BYTE, MODE_BYTE};

// The bytes that a list and a set begin with.
const LEAST: usize = 8;

// How an image is laid out: what its first byte says, the low two bits of its mode, where its count stands and in how many bits, where its words begin.
// All numbers, and no enum of list and set: so the book has it, and `layout_as` holds the two against each other field by field.
#[derive(Clone, Copy)]
struct Layout {
    preamble: u8,
    mode: u8,
    count: usize,
    bits: u8,
    words: usize,
}

const LIST: Layout = Layout {
    preamble: 2,
    mode: 0,
    count: 6,
    bits: 8,
    words: 8,
};

const SET: Layout = Layout {
    preamble: 3,
    mode: 1,
    count: 8,
    bits: 32,
    words: 12,
};

// A set's for a first byte of 3, else a list's.
fn layout_of(first: u8) -> Layout
    ensures { result ≡ layout_as (layout_of first) }
{
    if first == 3 { SET } else { LIST }
}

// The first three bytes: as the layout asks, the version, the family.
fn begins(image: &[u8], preamble: u8) -> bool
    requires { 8 ≤ length image.now }
    ensures { result ≡ both (eqb (get_or image.now 0 0) preamble) (both (eqb (get_or image.now 1 0) 1) (eqb (get_or image.now 2 0) 7)) }
{
    image[MAGIC_BYTE] == preamble && image[MAGIC_BYTE + 1] == 1 && image[MAGIC_BYTE + 2] == 7
}

// SHORT, HEADER, SHORT of a set, MODE, LGK, FORM.
pub fn preamble(image: &[u8]) -> Result<(), Refusal>
    ensures { said_of result ≡ said (preamble_no image.now) 0 }
{
    if image.len() < LEAST {
        return Err(Refusal::Short);
    }
    let y = layout_of(image[MAGIC_BYTE]);
    if !begins(image, y.preamble) {
        return Err(Refusal::Header);
    }
    if image.len() < y.words {
        return Err(Refusal::Short);
    }
    if image[MODE_BYTE] % 4 != y.mode {
        return Err(Refusal::Mode);
    }
    if !shape::is_lg_k(image[LG_K_BYTE]) {
        return Err(Refusal::LgK);
    }
    if image[FLAGS_BYTE] / 8 % 2 != 1 {
        return Err(Refusal::Form);
    }
    Ok(())
}

// Where the words begin, and how many there are said to be.
#[derive(Clone, Copy)]
pub struct Coupons {
    pub words: usize,
    pub count: usize,
}

pub fn coupons_in(image: &[u8]) -> Coupons
    requires { preamble_no image.now ≡ 0 }
    ensures { result ≡ coupons_at image.now }
{
    let y = layout_of(image[MAGIC_BYTE]);
    let at = y.count;
    if y.bits == 8 {
        return Coupons {
            words: y.words,
            count: usize::from(image[at]),
        };
    }
    let count = packed::words::word_at(&image[at..], 0);
    Coupons {
        words: y.words,
        count: count as usize,
    }
}

// The position of the first word that is zero.
fn first_empty(words: &[u8], many: usize) -> Option<usize>
    requires { 4 * many ≤ length words.now }
    ensures { result ≡ position (λ i. eqb (slot_at 32 words.now i) 0) (range_with_len 0 many) }
{
    (0..many).position(|i| packed::words::word_at(words, i) == 0)
}

// SHORT of the words, LISTEMPTY, FINER. A count of 32 bits times four can't wrap.
pub fn check(image: &[u8], c: Coupons, lg_k: u8) -> Result<(), Refusal>
    requires { Read image.now c }
    ensures { said_of result ≡ said (coupons_no lg_k image.now) (empty_place image.now (coupons_no lg_k image.now)) }
{
    let from = c.words;
    let many = c.count;
    if image.len() < from + 4 * many {
        return Err(Refusal::Short);
    }
    if let Some(empty) = first_empty(&image[from..], many) {
        return Err(Refusal::ListEmpty(empty as u32));
    }
    if image[LG_K_BYTE] < lg_k {
        return Err(Refusal::Finer);
    }
    Ok(())
}
