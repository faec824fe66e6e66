// Two routes to one image: two batches go into sketches of kinds 4 and 6, one of which travels as bytes, and both are merged; or one sketch is fed both.
// That the bytes are the same is not computed: it is demand 3, cited for every two batches.
#![tactic(auto)]

ghost use Rattle.std.specs.Prelude.{◌≡◌, true, List, ◌++◌, ℕ, Ok, IsOkAnd};
ghost use Rattle.model.specs.Image.{image_in};
ghost use Rattle.station_routes.specs.Routes.{Roomy, In, Reached};

use model::{Refusal, Sketch, Stopped};

// A sketch and the memory that it is kept in.
#[derive(Clone, Copy)]
pub struct Held<const REGS: usize, const AUX: usize> {
    pub sketch: Sketch,
    pub regs: [u8; REGS],
    pub aux: [u32; AUX],
}

// 32 registers of kinds 4 and 6, 16 of kind 8. Only kind 4 uses its area.
pub type Four = Held<16, 64>;

pub type Six = Held<25, 1>;

pub type Eight = Held<16, 1>;

// Memory is lent with anything in it. With so much room no call refuses. The kind is a number, as `start` takes it.
fn filled<const REGS: usize, const AUX: usize>(
    kind: u8,
    lg_k: u8,
    coupons: &[u32],
) -> Held<REGS, AUX>
    requires { Roomy kind lg_k REGS AUX }
    ensures { In kind lg_k coupons.now result }
{
    let mut regs = [7u8; REGS];
    let mut aux = [9u32; AUX];
    let mut scratch = [5u32; AUX];
    let empty = sketch::start(kind, lg_k, &mut regs, &mut aux).unwrap();
    let fed = sketch::feed(empty, &mut regs, &mut aux, &mut scratch, coupons).unwrap();
    let sketch = fed.sketch;
    Held { sketch, regs, aux }
}

// The journey: written into a buffer that holds the longest image of this size, and opened in other memory.
fn sent(source: Four) -> Result<Four, Refusal>
    ensures { (got : List ℕ) → In 4 5 got source → IsOkAnd result (λ h. In 4 5 got h) }
{
    let mut buf = [3u8; 184];
    let mut regs = [1u8; 16];
    let mut aux = [2u32; 64];
    let mut scratch = [5u32; 64];
    image_write::write(source.sketch, &source.regs, &source.aux, &mut buf)?;
    let sketch = image_open::open(&buf, &mut regs, &mut aux, &mut scratch)?;
    Ok(Held { sketch, regs, aux })
}

// Whatever had reached the two, the target now has both. The source is of any kind: only its size is asked.
fn merged<const REGS: usize, const AUX: usize>(
    mut target: Eight,
    source: &Held<REGS, AUX>,
) -> Result<Eight, Refusal>
    ensures { (kind : ℕ) (got more : List ℕ) → In 8 4 got target → In kind 5 more source.now → IsOkAnd result (λ h. In 8 4 (got ++ more) h) }
{
    target.sketch = sketch::merge(
        target.sketch,
        &mut target.regs,
        source.sketch,
        &source.regs,
        &source.aux,
    )?;
    Ok(target)
}

// Kind 8 always has room.
fn with_coupons(mut target: Eight, coupons: &[u32]) -> Result<Eight, Stopped>
    ensures { (got : List ℕ) → In 8 4 got target → IsOkAnd result (λ h. In 8 4 (got ++ coupons.now) h) }
{
    let mut scratch = [5u32; 1];
    let fed = sketch::feed(
        target.sketch,
        &mut target.regs,
        &mut target.aux,
        &mut scratch,
        coupons,
    )?;
    target.sketch = fed.sketch;
    Ok(target)
}

// The buffer is as long as the image, so nothing of what it held is left.
fn image_of(source: Eight) -> Result<[u8; 56], Refusal>
    ensures { (got : List ℕ) → In 8 4 got source → result ≡ Ok (image_in source.sketch source.regs source.aux) }
{
    let mut bytes = [3u8; 56];
    image_write::write(source.sketch, &source.regs, &source.aux, &mut bytes)?;
    Ok(bytes)
}

// The empty target is one that was fed nothing.
pub fn by_merging(a: &[u32], b: &[u32]) -> [u8; 56]
    ensures { Reached a.now b.now result }
{
    let empty: Eight = filled(8, 4, &[]);
    let four = sent(filled(4, 5, a)).unwrap();
    let one = merged(empty, &four).unwrap();
    let six: Six = filled(6, 5, b);
    let two = merged(one, &six).unwrap();
    image_of(two).unwrap()
}

// The other order, so that order is seen not to matter.
pub fn by_feeding(a: &[u32], b: &[u32]) -> [u8; 56]
    ensures { Reached a.now b.now result }
{
    let one = filled(8, 4, b);
    let two = with_coupons(one, a).unwrap();
    image_of(two).unwrap()
}

pub fn same_by_two_routes(a: &[u32], b: &[u32]) -> bool
    ensures { result ≡ true }
{
    let merged = by_merging(a, b);
    let fed = by_feeding(a, b);
    check::same(&merged, &fed)
}
