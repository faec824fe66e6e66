// A sketch with its memory, by value, and what each line does with it through the public calls. Memory is lent as long as kind and lg_k
// ask for; a call that refuses gives no sketch, so that the one at hand stays as it was and one fault counts once.
ghost use Rattle.std.specs.Prelude.{◌≤◌};

use crate::hex;
use model::{Refusal, Sketch};

// Registers for lg_k up to 10, and a table for as many exceptions as there can be.
#[derive(Clone, Copy)]
pub struct Held {
    sketch: Sketch,
    regs: [u8; 1024],
    aux: [u32; 2048],
}

// The register bytes of a kind and a size; none for sizes that there is no room for, which every call refuses as too few.
fn size_of(kind: u8, lg_k: u8) -> usize
    ensures { result ≤ 1024 }
{
    if 10 < lg_k {
        return 0;
    }
    let k = 1usize << lg_k;
    match kind {
        4 => k / 2,
        6 => k / 4 * 3 + 1,
        _ => k,
    }
}

// The kind that an image's mode byte says.
fn kind_of(mode: u8) -> Option<u8> {
    match mode {
        2 => Some(4),
        6 => Some(6),
        10 => Some(8),
        _ => None,
    }
}

// The register bytes of the sketch that an image is of. One of no kind is refused whatever is lent.
fn size_in(image: &[u8]) -> usize
    ensures { result ≤ 1024 }
{
    match image {
        [_, _, _, lg_k, _, _, _, mode, ..] => match kind_of(*mode) {
            Some(kind) => size_of(kind, *lg_k),
            None => 0,
        },
        _ => 0,
    }
}

// The number and the place that a line says of the call's answer, and the image behind them.
fn answer_in(said: &[u8]) -> Option<(u8, u32, &[u8])> {
    let (number, rest) = said.split_first()?;
    let (place, image) = rest.split_first_chunk::<4>()?;
    Some((*number, u32::from_be_bytes(*place), image))
}

// Whether a call answered with this number and this place.
fn says<T>(answer: &Result<T, Refusal>, number: u8, place: u32) -> bool {
    match answer {
        Ok(_) => number == 0 && place == 0,
        Err(why) => why.number() == number && why.place() == place,
    }
}

// Where an image of ours differs by design: the flags, and from 8 up to a place.
fn is_free(at: usize, upto: usize) -> bool {
    at == 5 || 8 <= at && at < upto
}

// Whether an image of ours begins with what was said.
fn agrees(ours: &[u8], said: &[u8], upto: usize) -> bool {
    ours.iter()
        .zip(said)
        .enumerate()
        .all(|(at, (a, b))| a == b || is_free(at, upto))
}

// SIZE and NO_ROOM speak of the memory lent and not of the image.
pub fn refuses(image: &[u8]) -> bool {
    match Held::open(image) {
        Ok(_) => false,
        Err(why) => !matches!(why, Refusal::Size | Refusal::NoRoom),
    }
}

pub fn answers(said: &[u8]) -> bool {
    match answer_in(said) {
        Some((number, place, image)) => says(&Held::open(image), number, place),
        None => false,
    }
}

impl Held {
    // No sketch: each call refuses it.
    pub fn none() -> Self {
        Self {
            sketch: Sketch {
                kind: 0,
                lg_k: 0,
                cur_min: 0,
                num_at_cur_min: 0,
                aux_count: 0,
            },
            regs: [0; 1024],
            aux: [0; 2048],
        }
    }

    fn size(&self) -> usize
        ensures { result ≤ 1024 }
    {
        size_of(self.sketch.kind, self.sketch.lg_k)
    }

    // The register bytes that kind and lg_k ask for.
    fn registers(&self) -> &[u8] {
        &self.regs[..self.size()]
    }

    // Memory comes with something in it, so that start has something to clear.
    pub fn start(said: &[u8]) -> Option<Self> {
        let [kind, lg_k] = said else {
            return None;
        };
        let mut regs = [7u8; 1024];
        let mut aux = [9u32; 2048];
        let n = size_of(*kind, *lg_k);
        let sketch = sketch::start(*kind, *lg_k, &mut regs[..n], &mut aux).ok()?;
        Some(Self { sketch, regs, aux })
    }

    pub fn open(image: &[u8]) -> Result<Self, Refusal> {
        let mut regs = [7u8; 1024];
        let mut aux = [9u32; 2048];
        let mut scratch = [5u32; 2048];
        let n = size_in(image);
        let sketch = image_open::open(image, &mut regs[..n], &mut aux, &mut scratch)?;
        Ok(Self { sketch, regs, aux })
    }

    pub fn feed(mut self, said: &[u8]) -> Option<Self> {
        let mut coupons = [0u32; 4096];
        let mut scratch = [5u32; 2048];
        let coupons = hex::words(said, &mut coupons)?;
        let n = self.size();
        let fed = sketch::feed(
            self.sketch,
            &mut self.regs[..n],
            &mut self.aux,
            &mut scratch,
            coupons,
        )
        .ok()?;
        self.sketch = fed.sketch;
        Some(self)
    }

    // The sketch after the call, and its answer. Refused or stopped, the record stays, and the memory is as the call left it.
    fn after_image(mut self, image: &[u8]) -> (Self, Result<(), Refusal>) {
        let mut scratch = [5u32; 2048];
        let n = self.size();
        match image_feed::feed_image(
            self.sketch,
            &mut self.regs[..n],
            &mut self.aux,
            &mut scratch,
            image,
        ) {
            Ok(fed) => {
                self.sketch = fed.sketch;
                (self, Ok(()))
            }
            Err(stopped) => (self, Err(stopped.why)),
        }
    }

    pub fn feed_image(self, image: &[u8]) -> Option<Self> {
        let (after, answer) = self.after_image(image);
        answer.ok()?;
        Some(after)
    }

    // Refused, the memory is what it was.
    pub fn feed_answers(self, said: &[u8]) -> bool {
        let Some((number, place, image)) = answer_in(said) else {
            return false;
        };
        let (after, answer) = self.after_image(image);
        let kept = after.regs == self.regs && after.aux == self.aux;
        (answer.is_ok() || kept) && says(&answer, number, place)
    }

    pub fn merge(mut self, source: &Held) -> Option<Self> {
        let n = self.size();
        self.sketch = sketch::merge(
            self.sketch,
            &mut self.regs[..n],
            source.sketch,
            source.registers(),
            &source.aux,
        )
        .ok()?;
        Some(self)
    }

    // unpack refuses any other length than k.
    pub fn has_registers(&self, said: &[u8]) -> bool {
        let mut out = [0u8; 1024];
        let Some(out) = out.get_mut(..said.len()) else {
            return false;
        };
        sketch::unpack(self.sketch, self.registers(), &self.aux, out).is_ok() && *out == *said
    }

    pub fn has_table(&self, said: &[u8]) -> bool {
        let mut wanted = [0u32; 2048];
        hex::words(said, &mut wanted).is_some() && self.aux == wanted
    }

    pub fn has_image(&self, said: &[u8], upto: usize) -> bool {
        let mut out = [0u8; 16384];
        match image_write::write(self.sketch, self.registers(), &self.aux, &mut out) {
            Ok(len) => len == said.len() && agrees(&out, said, upto),
            Err(_) => false,
        }
    }
}
