// Kind 4's feeding, after array4.rs: a register is a nibble above cur_min, and one that a nibble can't hold stands in the exception table.
#![tactic(auto)]

ghost use Rattle.std.specs.Prelude.{◌≡◌, ◌-◌, ◌<◌, eqb, ltb, length};
ghost use Rattle.model.specs.Pick.{pick};
ghost use Rattle.model.specs.Table.{base_for};
ghost use Rattle.model.specs.Four.{value_at, step4};
ghost use Rattle.model.specs.Sketch.{table_in};
ghost use Rattle.model.specs.Calls.{fed_out, state_of, batch_of};
ghost use Rattle.array4.specs.Held.{Held, Rests};
ghost use Rattle.array4.specs.Rise.{lowered_byte, Above, Lowerable, Lowered, Freeable, Freed, Risable, Rose, settled_of};
ghost use Rattle.array4.specs.Update.{Readable, Placeable, Placed, put_of, Resting, Stepped, Feedable};

use model::{Fed, Refusal, Sketch, Stopped};
use packed::four::{get_raw, put_raw};

// The nibble of an exception: its value is in the table.
const AUX_TOKEN: u8 = 15;

// The register that a nibble means. A nibble of 15 has a word in the table; 0 is the value of the empty one.
fn old_value(s: Sketch, aux: &[u32], slot: u32, raw: u8) -> u8
    requires { Readable s aux.now raw }
    ensures { result ≡ value_at s.cur_min (table_in s aux.now) raw slot }
{
    if raw < AUX_TOKEN {
        return s.cur_min + raw;
    }
    let base = aux_map::base_for(s.lg_k);
    let size = aux_map::table_size(base, s.aux_count as usize);
    aux_map::get(&aux[..size], slot).unwrap_or(0)
}

// How many registers are at cur_min once one whose nibble was `raw` has left.
fn count_left(num: u32, raw: u8) -> u32
    requires { raw ≡ 0 → 0 < num }
    ensures { result ≡ pick (eqb raw 0) (num - 1) num }
{
    num - u32::from(raw == 0)
}

// The four cases by whether the register was an exception and is one. That it ceases to be one can't be: a register never falls, and
// cur_min is the same. Room is judged before anything is stored: None where there is none.
fn place(
    s: Sketch,
    regs: &mut [u8],
    aux: &mut [u32],
    scratch: &mut [u32],
    slot: u32,
    raw: u8,
    value: u8,
) -> Option<Sketch>
    requires { Placeable s regs.old aux.old scratch.old slot raw value }
    ensures { Placed (put_of s regs.old aux.old slot value) result s regs.old aux.old regs.new aux.new }
{
    let num_at_cur_min = count_left(s.num_at_cur_min, raw);
    if value < s.cur_min + AUX_TOKEN {
        put_raw(regs, slot, value - s.cur_min);
        return Some(Sketch {
            num_at_cur_min,
            ..s
        });
    }
    let base = aux_map::base_for(s.lg_k);
    let count = s.aux_count as usize;
    let size = aux_map::size_for(base, count);
    if raw == AUX_TOKEN {
        aux_map::replace(&mut aux[..size], slot, value);
        return Some(s);
    }
    let need = aux_map::size_for(base, count + 1);
    if aux.len() < need {
        return None;
    }
    put_raw(regs, slot, AUX_TOKEN);
    aux_map::insert(aux, scratch, size, count, coupon::word(slot, value));
    Some(Sketch {
        num_at_cur_min,
        aux_count: s.aux_count + 1,
        ..s
    })
}

// A coupon whose value is not above its register has no effect, and most have not: the first two tests need no table. None where its
// exception finds no room.
fn update(
    s: Sketch,
    regs: &mut [u8],
    aux: &mut [u32],
    scratch: &mut [u32],
    coupon: u32,
) -> Option<Sketch>
    requires { Resting s regs.old aux.old scratch.old }
    ensures { Stepped (step4 (base_for s.lg_k) (length aux.old) (state_of s regs.old aux.old) coupon) result s regs.old aux.old regs.new aux.new }
{
    let value = coupon::value(coupon);
    if value <= s.cur_min {
        return Some(s);
    }
    let slot = coupon::home(s.lg_k, coupon);
    let raw = get_raw(regs, slot);
    if value <= raw + s.cur_min {
        return Some(s);
    }
    let old = old_value(s, aux, slot, raw);
    if value <= old {
        return Some(s);
    }
    let placed = place(s, regs, aux, scratch, slot, raw, value)?;
    Some(settle(placed, regs, aux, scratch))
}

// What a nibble loses when cur_min rises by one.
fn less(nibble: u8) -> u8
    ensures { result ≡ pick (ltb nibble 15) 1 0 }
{
    u8::from(nibble < AUX_TOKEN)
}

fn lower_byte(byte: u8) -> u8
    requires { Above byte }
    ensures { result ≡ lowered_byte byte }
{
    byte - less(byte % 16) - less(byte >> 4) * 16
}

// Every nibble lowered, two at a time. The answer is how many are then zero.
fn lower(regs: &mut [u8]) -> u32
    requires { Lowerable regs.old }
    ensures { Lowered regs.old regs.new result }
{
    let mut n = 0;
    for byte in regs.iter_mut() {
        let lowered = lower_byte(*byte);
        *byte = lowered;
        n += u32::from(lowered % 16 == 0) + u32::from(lowered >> 4 == 0);
    }
    n
}

// The slots of the table's words of that value: a nibble holds it now.
fn free(table: &[u32], regs: &mut [u8], value: u8)
    requires { Freeable table.now value regs.old }
    ensures { Freed table.now value (length table.now) regs.old regs.new }
{
    for &w in table {
        if coupon::value(w) == value {
            put_raw(regs, coupon::slot(w), 14);
        }
    }
}

// One rise. The table is made anew of the words that a nibble still can't hold. Cold, so that it stays out of the way of the coupons without
// effect in the loop of `feed`: with few registers these take half as long again or more where it is inlined.
#[cold]
fn shift_to_bigger_cur_min(
    s: Sketch,
    regs: &mut [u8],
    aux: &mut [u32],
    scratch: &mut [u32],
) -> Sketch
    requires { Risable s regs.old aux.old scratch.old }
    ensures { Rose s.lg_k s.cur_min (state_of s regs.old aux.old) result regs.new aux.new }
{
    let cur_min = s.cur_min + 1;
    let num_at_cur_min = lower(regs);
    if s.aux_count == 0 {
        return Sketch {
            cur_min,
            num_at_cur_min,
            ..s
        };
    }
    let base = aux_map::base_for(s.lg_k);
    let size = aux_map::table_size(base, s.aux_count as usize);
    free(&aux[..size], regs, s.cur_min + AUX_TOKEN);
    let left = aux_table::rebuild(aux, scratch, base, size, u32::from(s.cur_min) + 16);
    Sketch {
        cur_min,
        num_at_cur_min,
        aux_count: left as u32,
        ..s
    }
}

// cur_min rises until a register is at it.
fn settle(s: Sketch, regs: &mut [u8], aux: &mut [u32], scratch: &mut [u32]) -> Sketch
    requires { Held s regs.old aux.old scratch.old }
    ensures { Rests s.lg_k (settled_of s regs.old aux.old) result regs.new aux.new }
{
    let mut risen = s;
    while risen.num_at_cur_min == 0 {
        risen = shift_to_bigger_cur_min(risen, regs, aux, scratch);
    }
    risen
}

// The coupons in order, up to the first whose exception finds no room.
pub fn feed(
    s: Sketch,
    regs: &mut [u8],
    aux: &mut [u32],
    scratch: &mut [u32],
    coupons: &[u32],
) -> Result<Fed, Stopped>
    requires { Feedable s regs.old aux.old scratch.old }
    ensures { fed_out result regs.new aux.new ≡ batch_of s regs.old aux.old coupons.now }
{
    let mut sketch = s;
    for (taken, &coupon) in coupons.iter().enumerate() {
        let Some(next) = update(sketch, regs, aux, scratch, coupon) else {
            return Err(Stopped {
                why: Refusal::NoRoom,
                fed: Fed { sketch, taken },
            });
        };
        sketch = next;
    }
    Ok(Fed {
        sketch,
        taken: coupons.len(),
    })
}
