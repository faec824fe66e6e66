// Whether an image may be opened: opening's ladder of refusals behind the header's own, part by part, and the whole in document 01's order. It looks at
// the image, whose header was decoded before, and the lengths of what is lent. Nothing is written.
#![tactic(auto)]

ghost use Rattle.std.specs.Prelude.{◌≡◌, ◌≤◌};
ghost use Rattle.model.specs.Answers.{number_of, said_of};
ghost use Rattle.model.specs.Image.{aux_in, form_no, memory_no, counts_no, room_no, body_no, said_in, open_no};
ghost use Rattle.image_check.specs.Passed.{Formed, Roomy, Sound, Full};

use image_header::Image;
use model::{Refusal, Sketch};
use shape::REGISTERS_BYTE;

// MODE, LGK. A kind is a number here and below, 0 for a mode of none: `form_no` and `memory_no` have an answer for each.
pub fn form(kind: u8, lg_k: u8) -> Result<(), Refusal>
    ensures { number_of result ≡ form_no kind lg_k }
{
    if !shape::is_kind(kind) {
        return Err(Refusal::Mode);
    }
    if !shape::is_lg_k(lg_k) {
        return Err(Refusal::LgK);
    }
    Ok(())
}

// SIZE of what is lent.
pub fn memory(
    kind: u8,
    lg_k: u8,
    regs_len: usize,
    aux_len: usize,
    scratch_len: usize,
) -> Result<(), Refusal>
    requires { lg_k ≤ 21 }
    ensures { number_of result ≡ memory_no kind lg_k regs_len aux_len scratch_len }
{
    if regs_len != shape::bytes_of(kind, lg_k) {
        return Err(Refusal::Size);
    }
    if !shape::scratch_fits(kind, aux_len, scratch_len) {
        return Err(Refusal::Size);
    }
    Ok(())
}

// COUNTS, LGARR, SHORT of the payload: in this order no product and no shift can wrap.
pub fn counts(image: Image) -> Result<(), Refusal>
    requires { Formed image }
    ensures { number_of result ≡ counts_no image.entry.bytes.now }
{
    let h = image.header;
    if !survey::counts_fit(Sketch::from(h)) {
        return Err(Refusal::Counts);
    }
    if !h.lg_arr_fits() {
        return Err(Refusal::LgArr);
    }
    let bytes = shape::bytes_of(h.kind, h.lg_k);
    let many = h.word_count();
    if image.bytes.len() < REGISTERS_BYTE + bytes + 4 * many {
        return Err(Refusal::Short);
    }
    Ok(())
}

// NO_ROOM.
pub fn room(lg_k: u8, aux_count: u32, aux_len: usize) -> Result<(), Refusal>
    requires { Roomy lg_k aux_count }
    ensures { number_of result ≡ room_no lg_k aux_count aux_len }
{
    let base = aux_map::base_for(lg_k);
    let size = aux_map::table_size(base, aux_count as usize);
    if aux_len < size {
        return Err(Refusal::NoRoom);
    }
    Ok(())
}

// What is wrong with kind 4's words, given how many nibbles are 15. Most images have neither, and need no bitmap.
fn aux_fault(image: Image, fulls: u32) -> Result<(), Refusal>
    requires { Full image fulls }
    ensures { said_of result ≡ aux_in image.entry.bytes.now }
{
    let h = image.header;
    if h.kind != 4 {
        return Ok(());
    }
    if h.aux_count == 0 && fulls == 0 {
        return Ok(());
    }
    let end = REGISTERS_BYTE + shape::bytes_of(h.kind, h.lg_k);
    let many = h.word_count();
    image_faults::aux_fault(
        h,
        &image.bytes[REGISTERS_BYTE..end],
        &image.bytes[end..],
        many,
        fulls,
    )
}

// VALUE, the five of the exception words, SPARE, TALLY.
pub fn body(image: Image) -> Result<(), Refusal>
    requires { Sound image }
    ensures { said_of result ≡ said_in image.entry.bytes.now (body_no image.entry.bytes.now) }
{
    let h = image.header;
    let end = REGISTERS_BYTE + shape::bytes_of(h.kind, h.lg_k);
    let seen = survey::survey(Sketch::from(h), &image.bytes[REGISTERS_BYTE..end]);
    if !seen.values {
        return Err(Refusal::Value);
    }
    aux_fault(image, seen.tokens)?;
    if !seen.spare {
        return Err(Refusal::Spare);
    }
    if !seen.tally {
        return Err(Refusal::Tally);
    }
    Ok(())
}

// All of it, behind the header's own refusals.
pub fn check(
    image: Image,
    regs_len: usize,
    aux_len: usize,
    scratch_len: usize,
) -> Result<(), Refusal>
    ensures { said_of result ≡ said_in image.entry.bytes.now (open_no image.entry.bytes.now regs_len aux_len scratch_len) }
{
    let h = image.header;
    form(h.kind, h.lg_k)?;
    memory(h.kind, h.lg_k, regs_len, aux_len, scratch_len)?;
    counts(image)?;
    room(h.lg_k, h.aux_count, aux_len)?;
    body(image)
}
