// For the comparison with the Rust: the exception table's sizes, search, replacing and inserting.
ghost use Rattle.model.specs.Table.{Room};
ghost use Rattle.aux_map.specs.Sizes.{Listed, Sizable};
ghost use Rattle.aux_map.specs.Search.{Replaceable};
ghost use Rattle.aux_map.specs.Grow.{Insertable};

#[unsafe(no_mangle)]
pub extern "C" fn lp_base_for(lg_k: u8) -> usize
    requires { Listed lg_k }
{
    aux_map::base_for(lg_k)
}

#[unsafe(no_mangle)]
pub extern "C" fn lp_table_size(base: usize, count: usize) -> usize
    requires { Sizable base count }
{
    aux_map::table_size(base, count)
}

// The place; its top bit is set where the slot's word is there.
#[unsafe(no_mangle)]
pub extern "C" fn lp_find(table: &[u32], slot: u32) -> u64
    requires { Room table.now }
{
    match aux_map::find(table, slot) {
        Ok(at) => at as u64 | 1 << 63,
        Err(at) => at as u64,
    }
}

// The value, or 255 where there is none.
#[unsafe(no_mangle)]
pub extern "C" fn lp_get(table: &[u32], slot: u32) -> u8
    requires { Room table.now }
{
    aux_map::get(table, slot).unwrap_or(255)
}

#[unsafe(no_mangle)]
pub extern "C" fn lp_replace(table: &mut [u32], slot: u32, value: u8)
    requires { Replaceable table.old slot value }
{
    aux_map::replace(table, slot, value)
}

#[unsafe(no_mangle)]
pub extern "C" fn lp_insert(
    area: &mut [u32],
    scratch: &mut [u32],
    size: usize,
    count: usize,
    w: u32,
) -> usize
    requires { Insertable area.old scratch.old size count w }
{
    aux_map::insert(area, scratch, size, count, w)
}
