// For the comparison with the Rust: whole exception tables made, made anew and checked.
ghost use Rattle.aux_map.specs.Sizes.{Based};
ghost use Rattle.aux_table.specs.Build.{Buildable, Rebuildable};

#[unsafe(no_mangle)]
pub extern "C" fn lp_build(area: &mut [u32], scratch: &mut [u32], base: usize, top: usize)
    requires { Buildable area.old scratch.old base top }
{
    aux_table::build(area, scratch, base, top)
}

#[unsafe(no_mangle)]
pub extern "C" fn lp_rebuild(
    area: &mut [u32],
    scratch: &mut [u32],
    base: usize,
    size: usize,
    limit: u32,
) -> usize
    requires { Rebuildable area.old scratch.old base size limit }
{
    aux_table::rebuild(area, scratch, base, size, limit)
}

// A number, so that the caller can see any answer but the two.
#[unsafe(no_mangle)]
pub extern "C" fn lp_check(area: &[u32], base: usize, count: usize) -> u8
    requires { Based base }
{
    u8::from(aux_table::check(area, base, count))
}
