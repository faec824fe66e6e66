// What only reads kind 4, after array4.rs: one register, and the check of the exception table.
#![tactic(auto)]

ghost use Rattle.std.specs.Prelude.{◌≡◌, get_or};
ghost use Rattle.model.specs.Pick.{Tells};
ghost use Rattle.model.specs.Table.{base_for, table_size};
ghost use Rattle.model.specs.Sketch.{registers};
ghost use Rattle.model.specs.Check.{table_fits};
ghost use Rattle.array4_read.specs.Asks.{Checkable, Tabulated, Readable};
ghost use Rattle.array4_read.specs.Fits.{Few, WordIn, WordsIn};

use model::Sketch;

// How many words at the area's front are the table.
pub fn table_len(s: Sketch) -> usize
    requires { Tabulated s }
    ensures { result ≡ table_size (base_for s.lg_k) s.aux_count }
{
    let base = aux_map::base_for(s.lg_k);
    aux_map::table_size(base, s.aux_count as usize)
}

// A word alone: one read of its slot's nibble.
fn word_fits(low: u8, regs: &[u8], w: u32) -> bool
    requires { Few regs.now }
    ensures { Tells result (WordIn low regs.now w) }
{
    let slot = coupon::slot(w);
    (slot as usize) < 2 * regs.len()
        && packed::four::get_raw(regs, slot) == 15
        && u32::from(low) + 15 <= u32::from(coupon::value(w))
}

// Each word once.
fn words_fit(low: u8, regs: &[u8], table: &[u32]) -> bool
    requires { Few regs.now }
    ensures { Tells result (WordsIn low regs.now table.now) }
{
    for &w in table {
        if w != 0 && !word_fits(low, regs, w) {
            return false;
        }
    }
    true
}

// The table beside the nibbles, of which `tokens` are 15. Its order comes before its words: what is damaged is mostly refused by the cheap tests.
// No lookup by slot: the counts agree, so to look at each word is enough.
pub fn table_fits(s: Sketch, regs: &[u8], aux: &[u32], tokens: u32) -> bool
    requires { Checkable s regs.now tokens }
    ensures { result ≡ table_fits s regs.now aux.now }
{
    if tokens != s.aux_count {
        return false;
    }
    let base = aux_map::base_for(s.lg_k);
    if !aux_table::check(aux, base, s.aux_count as usize) {
        return false;
    }
    let size = table_len(s);
    words_fit(s.cur_min, regs, &aux[..size])
}

// The register of a slot. In good order the table has a word for every nibble of 15, so None can't come; cur_min is the Rust's answer there.
pub fn get(s: Sketch, regs: &[u8], aux: &[u32], slot: u32) -> u8
    requires { Readable s regs.now aux.now slot }
    ensures { result ≡ get_or (registers s regs.now aux.now) slot 0 }
{
    let raw = packed::four::get_raw(regs, slot);
    if raw < 15 {
        return s.cur_min + raw;
    }
    let size = table_len(s);
    aux_map::get(&aux[..size], slot).unwrap_or(s.cur_min)
}
