// The header of an image: whether there is one, and what it says, decoded once and then handed on.
#![tactic(auto)]

ghost use Rattle.std.specs.Prelude.{◌≡◌, true, ◌≤◌, length, IfOk};
ghost use Rattle.model.specs.Answers.{number_of};
ghost use Rattle.model.specs.Image.{kind_of, header_no};
ghost use Rattle.image_header.specs.Header.{header_in, record_in, lg_arr_in, words_in, Headed};

use model::{Refusal, Sketch};
use shape::{
    AUX_COUNT_BYTE, CUR_MIN_BYTE, FLAGS_BYTE, LG_ARR_BYTE, LG_K_BYTE, MODE_BYTE,
    NUM_AT_CUR_MIN_BYTE, REGISTERS_BYTE,
};

// What the fields say, whatever they are: nothing here has been judged. A sketch's record is another thing, though the fields that both have agree.
#[derive(Clone, Copy)]
pub struct Header {
    pub kind: u8,
    pub lg_k: u8,
    pub lg_arr: u8,
    pub compact: bool,
    pub cur_min: u8,
    pub num_at_cur_min: u32,
    pub aux_count: u32,
}

// The bytes of an image that begins as every image does, and its header: whoever is handed one decodes nothing again.
#[derive(Clone, Copy)]
pub struct Image<'a> {
    pub bytes: &'a [u8],
    pub header: Header,
    ghost headed: { Headed bytes.now header },
}

// SHORT of the header, HEADER.
pub fn check(image: &[u8]) -> Result<(), Refusal>
    ensures { number_of result ≡ header_no image.now }
{
    if image.len() < REGISTERS_BYTE {
        return Err(Refusal::Short);
    }
    if !image.starts_with(b"\x0A\x01\x07") {
        return Err(Refusal::Header);
    }
    Ok(())
}

// The kind that a mode byte says, or 0. A number, since `header_in` takes every byte, and `image_check::form` promises an answer for every kind.
#[tactic(auto, unfolding(model::specs::Image::kind_of))]
fn kind_of(mode: u8) -> u8
    ensures { result ≡ kind_of mode }
{
    match mode {
        10 => 8,
        6 => 6,
        2 => 4,
        _ => 0,
    }
}

pub fn header_in(image: &[u8]) -> Header
    requires { 40 ≤ length image.now }
    ensures { result ≡ header_in image.now }
{
    Header {
        kind: kind_of(image[MODE_BYTE]),
        lg_k: image[LG_K_BYTE],
        lg_arr: image[LG_ARR_BYTE],
        compact: image[FLAGS_BYTE] / 8 % 2 == 1,
        cur_min: image[CUR_MIN_BYTE],
        num_at_cur_min: packed::words::word_at(image, NUM_AT_CUR_MIN_BYTE / 4),
        aux_count: packed::words::word_at(image, AUX_COUNT_BYTE / 4),
    }
}

// The header's own refusals, and then the bytes with what it says of them.
pub fn read(bytes: &[u8]) -> Result<Image<'_>, Refusal>
    ensures answer { number_of result ≡ header_no bytes.now }
    ensures ok { IfOk result (λ image. image.bytes.now ≡ bytes.now) }
{
    check(bytes)?;
    let header = header_in(bytes);
    Ok(Image { bytes, header })
}

// The record of the sketch that the image is of.
impl From<Header> for Sketch {
    fn from(h: Header) -> Sketch
        ensures { result ≡ record_in h }
    {
        Sketch {
            kind: h.kind,
            lg_k: h.lg_k,
            cur_min: h.cur_min,
            num_at_cur_min: h.num_at_cur_min,
            aux_count: h.aux_count,
        }
    }
}

impl Header {
    // lg_arr is looked at in the second form alone, where it has words.
    pub fn lg_arr_fits(self) -> bool
        ensures { result ≡ lg_arr_in self }
    {
        self.compact || self.aux_count == 0 || self.lg_arr <= 22
    }

    // How many exception words the image has. A lg_arr that is too large has been refused, so the shift is one.
    pub fn word_count(self) -> usize
        requires { lg_arr_in self ≡ true }
        ensures { result ≡ words_in self }
    {
        if self.compact {
            return self.aux_count as usize;
        }
        if self.aux_count == 0 {
            return 0;
        }
        1 << self.lg_arr
    }
}
