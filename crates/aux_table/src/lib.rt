// Whole exception tables: made of a list of words, made anew where cur_min rises, and checked where one is handed in.
#![tactic(auto)]

ghost use Rattle.std.specs.Prelude.{◌≡◌, length, drop};
ghost use Rattle.model.specs.Pick.{Tells};
ghost use Rattle.model.specs.Table.{made, laid, used, Reached};
ghost use Rattle.aux_map.specs.Sizes.{Based};
ghost use Rattle.aux_table.specs.Build.{NoShorter, Gathered, Buildable, Rebuildable, Rebuilt};
ghost use Rattle.aux_table.specs.Check.{Walkable, Ordered};

use coupon::SLOTS;

// A table in an area of zeros, of the words at the scratch's end: each inserted in their order, growing on the way. Growth copies the
// table to the scratch's front, which is never longer than what stands before the words that are left: it may reach past `top`, so these
// words can't be a slice of their own, and are taken by index.
pub fn build(area: &mut [u32], scratch: &mut [u32], base: usize, top: usize)
    requires { Buildable area.old scratch.old base top }
    ensures { area.new ≡ laid (length area.old) (made base (drop top scratch.old)) }
{
    let mut size = base;
    for j in top..scratch.len() {
        let w = scratch[j];
        size = aux_map::insert(area, scratch, size, j - top, w);
    }
}

// A table's words whose value is at least the limit, in table order, to the end of `into`. The answer is where they start.
fn keep(table: &[u32], into: &mut [u32], limit: u32) -> usize
    requires { NoShorter table.now into.old }
    ensures { Gathered limit table.now into.new result }
{
    let mut top = into.len();
    for &w in table.iter().rev() {
        if limit <= u32::from(coupon::value(w)) {
            top -= 1;
            into[top] = w;
        }
    }
    top
}

// The table, the area's first `size` words, made anew from the base of its words whose value is at least the limit. The answer is how many.
pub fn rebuild(area: &mut [u32], scratch: &mut [u32], base: usize, size: usize, limit: u32) -> usize
    requires { Rebuildable area.old scratch.old base size limit }
    ensures { Rebuilt area.old base size limit result area.new }
{
    let top = keep(&area[..size], scratch, limit);
    let left = scratch.len() - top;
    area[..size].fill(0);
    build(area, scratch, base, top);
    left
}

// How many words are not empty. Not by `filter` and `count`: tried, and nine times as slow, as no vector code comes of it.
pub fn count_used(table: &[u32]) -> usize
    ensures { result ≡ used table.now }
{
    let mut n = 0;
    for &w in table {
        if w != 0 {
            n += 1;
        }
    }
    n
}

// Whether each word is where the search for its slot ends.
pub fn in_order(table: &[u32]) -> bool
    requires { Walkable table.now }
    ensures { Tells result (Reached table.now) }
{
    for (at, &w) in table.iter().enumerate() {
        if w != 0 && aux_map::probe(table, coupon::slot(w)) != at {
            return false;
        }
    }
    true
}

// Whether a table of so many words, in order, stands at the area's front and nothing behind it. The words are counted before any search:
// a table of that many has an empty place, and a search in a full one might not end.
pub fn check(area: &[u32], base: usize, count: usize) -> bool
    requires { Based base }
    ensures { Tells result (Ordered base count area.now) }
{
    if SLOTS as usize <= count {
        return false;
    }
    let size = aux_map::table_size(base, count);
    if area.len() < size {
        return false;
    }
    let here = count_used(&area[..size]);
    if here != count {
        return false;
    }
    let past = count_used(&area[size..]);
    if past != 0 {
        return false;
    }
    in_order(&area[..size])
}
