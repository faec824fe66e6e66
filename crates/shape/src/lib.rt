// Kinds and sizes: which there are, how many registers and register bytes, whether scratch is long enough, and where in an image each part begins.
#![tactic(auto)]

ghost use Rattle.std.specs.Prelude.{◌≡◌, ◌^◌, ◌≤◌};
ghost use Rattle.model.specs.Pick.{Tells};
ghost use Rattle.model.specs.Sketch.{is_kind, bytes_of};
ghost use Rattle.model.specs.Check.{scratch_fits};

// Bytes of an image: the first three are the same in every one.
pub const MAGIC_BYTE: usize = 0;

pub const LG_K_BYTE: usize = 3;

pub const LG_ARR_BYTE: usize = 4;

pub const FLAGS_BYTE: usize = 5;

pub const CUR_MIN_BYTE: usize = 6;

pub const MODE_BYTE: usize = 7;

pub const HIP_BYTE: usize = 8;

pub const KXQ0_BYTE: usize = 16;

pub const KXQ1_BYTE: usize = 24;

pub const NUM_AT_CUR_MIN_BYTE: usize = 32;

pub const AUX_COUNT_BYTE: usize = 36;

pub const REGISTERS_BYTE: usize = 40;

// A kind is a number wherever it is handed in, since KIND answers every other one (claim `Demand1`), and C lends it as a word.
pub fn is_kind(kind: u8) -> bool
    ensures { result ≡ is_kind kind }
{
    matches!(kind, 4 | 6 | 8)
}

// The sizes that there are.
pub fn is_lg_k(lg_k: u8) -> bool
    ensures { Tells result ((4 ≤ lg_k) × (lg_k ≤ 21)) }
{
    (4..=21).contains(&lg_k)
}

// Only kind 4 uses scratch: no less of it than exception area.
pub fn scratch_fits(kind: u8, aux_len: usize, scratch_len: usize) -> bool
    ensures { result ≡ scratch_fits kind aux_len scratch_len }
{
    kind != 4 || aux_len <= scratch_len
}

pub fn num_registers(lg_k: u8) -> usize
    requires { lg_k ≤ 21 }
    ensures { result ≡ 2 ^ lg_k }
{
    1usize << lg_k
}

// The register bytes of a kind and a size.
pub fn bytes_of(kind: u8, lg_k: u8) -> usize
    requires { lg_k ≤ 21 }
    ensures { result ≡ bytes_of kind lg_k }
{
    let k = num_registers(lg_k);
    match kind {
        8 => k,
        6 => k / 4 * 3 + 1,
        _ => k / 2,
    }
}
