// The forty bytes before the registers, in three parts: fields of one byte with the HIP sum, the two other sums, the two counts.
ghost use Rattle.std.specs.Prelude.{◌≡◌, ◌≤◌, length};
ghost use Rattle.model.specs.Image.{mode_of, flags_of};
ghost use Rattle.image_put.specs.Parts.{over, field_bytes, sum_bytes, count_bytes, header_bytes};
ghost use Rattle.image_put.specs.Write.{HeaderFits};

use model::Sketch;
use packed::eight::put;
use packed::words::u32_bytes;
use sums::{Sums, f64_bytes};

// Of the record's kind, which is a number; the mode and the flags are bytes of the image.
fn mode_of(kind: u8) -> u8
    ensures { result ≡ mode_of kind }
{
    match kind {
        8 => 10,
        6 => 6,
        _ => 2,
    }
}

// Out of order, since no HIP sum is kept; and compact for kind 4, which lists its exceptions alone.
fn flags_of(kind: u8) -> u8
    ensures { result ≡ flags_of kind }
{
    if kind == 4 { 24 } else { 16 }
}

fn put_fields(s: Sketch, out: &mut [u8])
    requires { 40 ≤ length out.old }
    ensures { out.new ≡ over out.old 0 (field_bytes s) }
{
    let fields = [s.lg_k, 0, flags_of(s.kind), s.cur_min, mode_of(s.kind)];
    put(out, shape::MAGIC_BYTE, b"\x0A\x01\x07");
    put(out, shape::LG_K_BYTE, &fields);
    put(out, shape::HIP_BYTE, b"\0\0\0\0\0\0\0\0");
}

fn put_sums(sums: Sums, out: &mut [u8])
    requires { HeaderFits sums.kxq0 sums.kxq1 out.old }
    ensures { out.new ≡ over out.old 16 (sum_bytes sums.kxq0 sums.kxq1) }
{
    let low = f64_bytes(sums.kxq0);
    let high = f64_bytes(sums.kxq1);
    put(out, shape::KXQ0_BYTE, &low);
    put(out, shape::KXQ1_BYTE, &high);
}

fn put_counts(s: Sketch, out: &mut [u8])
    requires { 40 ≤ length out.old }
    ensures { out.new ≡ over out.old 32 (count_bytes s) }
{
    let num = u32_bytes(s.num_at_cur_min);
    let count = u32_bytes(s.aux_count);
    put(out, shape::NUM_AT_CUR_MIN_BYTE, &num);
    put(out, shape::AUX_COUNT_BYTE, &count);
}

pub fn put_header(s: Sketch, sums: Sums, out: &mut [u8])
    requires { HeaderFits sums.kxq0 sums.kxq1 out.old }
    ensures { out.new ≡ over out.old 0 (header_bytes s sums.kxq0 sums.kxq1) }
{
    put_fields(s, out);
    put_sums(sums, out);
    put_counts(s, out);
}
