// The exception table of kind 4 in a lent area, after aux_map.rs: its size, the search, replacing, inserting and growing.
#![tactic(auto)]

ghost use Rattle.std.specs.Prelude.{◌≡◌, ◌/◌, ◌%◌, length, get_or, replicate};
ghost use Rattle.model.specs.Coupon.{word};
ghost use Rattle.model.specs.Table.{bases, base_for, size_for, table_size, Room, place, replace, grown};
ghost use Rattle.aux_map.specs.Sizes.{Listed, Power, Sizable};
ghost use Rattle.aux_map.specs.Search.{finds, gets, Replaceable};
ghost use Rattle.aux_map.specs.Grow.{Doubled, Growable, Grew, Insertable, Inserted};

const LG_AUX_ARR_INTS: [u8; 27] = [
    0, 2, 2, 2, 2, 2, 2, 3, 3, 3, 4, 4, 5, 5, 6, 7, 8, 9, 10, 11, 12, 13, 14, 15, 16, 17, 18,
];

// The base's exponent for a sketch of 2^lg_k registers.
pub fn lg_aux_arr_ints(lg_k: u8) -> u8
    requires { Listed lg_k }
    ensures { result ≡ get_or bases lg_k 0 }
{
    LG_AUX_ARR_INTS[usize::from(lg_k)]
}

// The least size of a table.
pub fn base_for(lg_k: u8) -> usize
    requires { Listed lg_k }
    ensures { result ≡ base_for lg_k }
{
    1 << lg_aux_arr_ints(lg_k)
}

// The least doubling of the base that so many words fill to three quarters at most.
pub fn size_for(base: usize, count: usize) -> usize
    requires { Sizable base count }
    ensures { result ≡ size_for base count }
{
    let mut size = base;
    while 3 * size < 4 * count {
        size *= 2;
    }
    size
}

// The size of a table of so many words: that one, and none for no words.
pub fn table_size(base: usize, count: usize) -> usize
    requires { Sizable base count }
    ensures { result ≡ table_size base count }
{
    if count == 0 { 0 } else { size_for(base, count) }
}

// The remainder and the quotient by a power of two, as a mask and a shift: a search divides nowhere.
fn wrap(x: usize, size: usize) -> usize
    requires { Power size }
    ensures { result ≡ x % size }
{
    x & (size - 1)
}

fn quotient(x: usize, size: usize) -> usize
    requires { Power size }
    ensures { result ≡ x / size }
{
    let lg = usize::trailing_zeros(size);
    x >> lg
}

// Where the search for a slot ends: at its word, or at the first empty place. The places come by an odd stride and wrap, so that no slice's
// iterator goes over them: a loop left by `break` with the place.
pub fn probe(table: &[u32], slot: u32) -> usize
    requires { Room table.now }
    ensures { result ≡ place table.now slot }
{
    let size = table.len();
    let step = quotient(slot as usize, size) / 2 * 2 + 1;
    let mut at = wrap(slot as usize, size);
    loop {
        let w = table[at];
        if w == 0 {
            break at;
        }
        if coupon::slot(w) == slot {
            break at;
        }
        at = wrap(at + step, size);
    }
}

// The place of the slot's word, or Err of the empty place where the search ends: as `binary_search` answers.
pub fn find(table: &[u32], slot: u32) -> Result<usize, usize>
    requires { Room table.now }
    ensures { result ≡ finds table.now slot }
{
    let at = probe(table, slot);
    if table[at] == 0 { Err(at) } else { Ok(at) }
}

// The value that the table has for a slot.
pub fn get(table: &[u32], slot: u32) -> Option<u8>
    requires { Room table.now }
    ensures { result ≡ gets table.now slot }
{
    let at = find(table, slot).ok()?;
    Some(coupon::value(table[at]))
}

// Another value for a slot that the table has.
pub fn replace(table: &mut [u32], slot: u32, value: u8)
    requires { Replaceable table.old slot value }
    ensures { table.new ≡ replace table.old (word slot value) }
{
    if let Ok(at) = find(table, slot) {
        table[at] = coupon::word(slot, value);
    }
}

// A table's words re-inserted in table order into one twice its size.
fn grow(table: &[u32], into: &mut [u32])
    requires { Doubled table.now into.old }
    ensures { into.new ≡ grown table.now }
{
    into.fill(0);
    for &w in table {
        if w != 0 {
            let at = probe(into, coupon::slot(w));
            into[at] = w;
        }
    }
}

// The table, the area's first `size` words, grown if more than three quarters are used. The answer is its size.
fn check_grow(area: &mut [u32], scratch: &mut [u32], size: usize, count: usize) -> usize
    requires { Growable area.old scratch.old size count }
    ensures { Grew area.old scratch.old size result area.new scratch.new }
{
    if 4 * count <= 3 * size {
        return size;
    }
    let twice = size + size;
    packed::eight::copy(&area[..size], &mut scratch[..size]);
    grow(&scratch[..size], &mut area[..twice]);
    twice
}

// A word for a slot that the table, the area's first `size` words, has not; then the table grows if it must. The answer is its size.
// Inlined into the loop of aux_table::build, which is a tenth slower or more by a call.
#[inline]
pub fn insert(area: &mut [u32], scratch: &mut [u32], size: usize, count: usize, w: u32) -> usize
    requires { Insertable area.old scratch.old size count w }
    ensures { Inserted area.old scratch.old size w result area.new scratch.new }
{
    let Err(at) = find(&area[..size], coupon::slot(w)) else {
        return size;
    };
    area[at] = w;
    check_grow(area, scratch, size, count + 1)
}
