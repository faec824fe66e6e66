// Which exception word of a kind 4 image is wrong, with no scratch: a bitmap of the slots listed, for a window of 524,288 slots at a time.
#![tactic(auto)]

ghost use Rattle.std.specs.Prelude.{◌≡◌, true, false, ◌+◌, ◌*◌, ◌^◌, ◌≤◌, ◌<◌, min, length};
ghost use Rattle.model.specs.Packed.{slot_at, unpacked, Put};
ghost use Rattle.model.specs.Answers.{refusal_no, refusal_place, said_of};
ghost use Rattle.model.specs.Faults.{aux_fault};
ghost use Rattle.image_faults.specs.Windows.{bit, no_of, Turned, Passed, LeastIn, unlike_at, Viewed, Clear, Sweepable, Sweeping, Swept, Judgeable};

use image_header::Header;
use model::Refusal;

// The slots of a window: the bits of a bitmap of 64 KiB.
const WINDOW: u32 = 524288;

// ---- the bitmap: cells of one bit

// Whether a slot of the window was listed.
fn marked(marks: &[u8], s: u32) -> bool
    requires { s < 8 * length marks.now }
    ensures { result ≡ bit marks.now s }
{
    let byte = marks[(s >> 3) as usize];
    (byte >> (s % 8)) % 2 == 1
}

// A bit is set once, so that it can be added.
fn mark(marks: &mut [u8], s: u32)
    requires { (s < 8 * length marks.old) × (bit marks.old s ≡ false) }
    ensures { Put 1 marks.old s 1 marks.new }
{
    let at = (s >> 3) as usize;
    let byte = marks[at];
    marks[at] = byte + (1u8 << (s % 8));
}

// ---- the words, for one window

// What can be wrong with a word.
#[derive(Clone, Copy)]
pub enum Fault {
    Empty,
    Twice,
    Low,
}

// The first word that is wrong and how; the entries before it, and whether the nibbles of those are 15.
#[derive(Clone, Copy)]
pub struct Walk {
    pub fault: Option<Fault>,
    pub at: usize,
    pub entries: usize,
    pub even: bool,
}

// ---- the slots of a window

// The first slot whose nibble and mark tell different things.
fn unlike(bytes: &[u8], marks: &[u8], from: u32, to: u32) -> Option<u32>
    requires { (from ≤ to) × (to ≤ 2 * length bytes.now) × (min to 524288 ≤ 8 * length marks.now) }
    ensures { LeastIn (unlike_at (slot_at 4 bytes.now) marks.now) from to result }
{
    for s in from..to {
        let full = packed::four::get_raw(bytes, s) == 15;
        let here = marked(marks, s % WINDOW);
        if full != here {
            return Some(s);
        }
    }
    None
}

// The walk over the words and, where they were looked at, the first slot that is unlike.
#[derive(Clone, Copy)]
pub struct View {
    pub walk: Walk,
    pub slot: Option<u32>,
}

// ---- all windows, one after the other

// A kind 4 image as a sweep reads it: its header, a nibble for each slot, and so many exception words.
#[derive(Clone, Copy)]
struct Image<'a> {
    header: Header,
    nibbles: &'a [u8],
    words: &'a [u8],
    many: usize,
    ghost sweepable: { Sweepable header nibbles.now words.now many },
}

impl Image<'_> {
    // The number of registers, which ends the last window.
    fn slots(&self) -> u32
        ensures { result ≡ 2 ^ self.now.header.lg_k }
    {
        1u32 << self.header.lg_k
    }

    // All that is asked of a word, so that its window is tested once. An empty one that is passed over is None; an entry tells whether its nibble is 15, or that it is of another window. In its window, an entry that is not wrong is marked.
    fn turn(&self, b: u32, marks: &mut [u8], w: u32) -> Result<Option<bool>, Fault>
        requires { min (2 ^ self.now.header.lg_k) 524288 ≤ 8 * length marks.old }
        ensures { Turned self.now.header b (slot_at 4 self.now.nibbles.now) marks.old w result marks.new }
    {
        let none = coupon::is_empty(w);
        if none {
            if self.header.compact {
                return Err(Fault::Empty);
            }
            // The second form passes over an empty word.
            return Ok(None);
        }
        let slot = coupon::home(self.header.lg_k, w);
        if slot / WINDOW != b {
            return Ok(Some(true));
        }
        let low = u32::from(coupon::value(w)) < u32::from(self.header.cur_min) + 15;
        let before = marked(marks, slot % WINDOW);
        if before {
            return Err(Fault::Twice);
        }
        if low {
            return Err(Fault::Low);
        }
        mark(marks, slot % WINDOW);
        let even = packed::four::get_raw(self.nibbles, slot) == 15;
        Ok(Some(even))
    }

    // The words before limit. All entries are counted, so that any window's count is the image's.
    fn pass(&self, b: u32, limit: usize, marks: &mut [u8]) -> Walk
        requires { (limit ≤ self.now.many) × Clear self.now.header marks.old }
        ensures { Passed self.now.header b (slot_at 32 self.now.words.now) (slot_at 4 self.now.nibbles.now) limit result marks.new }
    {
        let mut entries = 0;
        let mut even = true;
        for i in 0..limit {
            let w = packed::words::word_at(self.words, i);
            match self.turn(b, marks, w) {
                Ok(None) => continue,
                Ok(Some(here)) => {
                    entries += 1;
                    even = even && here;
                }
                Err(fault) => {
                    return Walk {
                        fault: Some(fault),
                        at: i,
                        entries,
                        even,
                    };
                }
            }
        }
        Walk {
            fault: None,
            at: limit,
            entries,
            even,
        }
    }

    // A window, with the bitmap lent. The slots are looked at only on demand.
    fn window_in(&self, b: u32, look: bool, limit: usize, marks: &mut [u8]) -> View
        requires { (limit ≤ self.now.many) × Clear self.now.header marks.old × (b * 524288 < 2 ^ self.now.header.lg_k) }
        ensures { Viewed look self.now.header b (slot_at 32 self.now.words.now) (slot_at 4 self.now.nibbles.now) limit result }
    {
        let walk = self.pass(b, limit, marks);
        if !look {
            return View { walk, slot: None };
        }
        // The last window may be the whole sketch, and shorter.
        let end = ((b + 1) * WINDOW).min(self.slots());
        let slot = unlike(self.nibbles, marks, b * WINDOW, end);
        View { walk, slot }
    }

    // A window, with a bitmap of N bytes.
    fn by_bitmap<const N: usize>(&self, b: u32, look: bool, limit: usize) -> View
        requires { (limit ≤ self.now.many) × (b * 524288 < 2 ^ self.now.header.lg_k) × (min (2 ^ self.now.header.lg_k) 524288 ≤ 8 * N) × (N ≤ 65536) }
        ensures { Viewed look self.now.header b (slot_at 32 self.now.words.now) (slot_at 4 self.now.nibbles.now) limit result }
    {
        let mut marks = [0u8; N];
        self.window_in(b, look, limit, &mut marks)
    }

    // A small sketch: one window, and no larger a bitmap than its slots need, since clearing it can cost more than the words do.
    fn whole(&self, look: bool) -> View
        requires { self.now.header.lg_k ≤ 17 }
        ensures { Viewed look self.now.header 0 (slot_at 32 self.now.words.now) (slot_at 4 self.now.nibbles.now) self.now.many result }
    {
        if self.header.lg_k <= 12 {
            self.by_bitmap::<512>(0, look, self.many)
        } else {
            self.by_bitmap::<16384>(0, look, self.many)
        }
    }

    // The windows before b: a word that is wrong in one bounds the walk of the next. By recursion, since a function that calls itself is not inlined: the frames of `whole` and of `by_bitmap` are then no caller's.
    fn windows(&self, b: u32, look: bool) -> View
        requires { b * 524288 < 2 ^ self.now.header.lg_k + 524288 }
        ensures { Sweeping look self.now.header (slot_at 32 self.now.words.now) (slot_at 4 self.now.nibbles.now) self.now.many b (no_of result.walk.fault) result.walk.at result.walk.entries result.walk.even result.slot }
    {
        if b == 0 {
            return View {
                walk: Walk {
                    fault: None,
                    at: self.many,
                    entries: 0,
                    even: true,
                },
                slot: None,
            };
        }
        if self.header.lg_k <= 17 {
            return self.whole(look);
        }
        let last = b - 1;
        let u = self.windows(last, look);
        let v = self.by_bitmap::<65536>(last, look, u.walk.at);
        // What a later window found stands before what was found, and a slot found in a window below before all of this one.
        let even = u.walk.even && v.walk.even;
        View {
            walk: Walk {
                fault: v.walk.fault.or(u.walk.fault),
                at: v.walk.at,
                entries: v.walk.entries,
                even,
            },
            slot: u.slot.or(v.slot),
        }
    }

    // All of them: the last may be short.
    fn sweep(&self, look: bool) -> View
        ensures { Swept look self.now.header (unpacked 32 self.now.many self.now.words.now) (unpacked 4 (2 ^ self.now.header.lg_k) self.now.nibbles.now) result }
    {
        let b = (self.slots() - 1) / WINDOW + 1;
        self.windows(b, look)
    }
}

// ---- the answer

// The refusal of a word that is wrong.
fn refusal(fault: Fault, at: u32) -> Refusal
    ensures { (refusal_no result ≡ no_of (Some fault)) × (refusal_place result ≡ at) }
{
    match fault {
        Fault::Empty => Refusal::AuxEmpty(at),
        Fault::Twice => Refusal::AuxTwice(at),
        Fault::Low => Refusal::AuxLow(at),
    }
}

// As many entries as nibbles of 15, each entry's nibble 15 and no slot twice make one set: only where that is not known are the slots looked at.
pub fn aux_fault(
    h: Header,
    bytes: &[u8],
    words: &[u8],
    many: usize,
    fulls: u32,
) -> Result<(), Refusal>
    requires { Judgeable h bytes.now words.now many fulls }
    ensures { said_of result ≡ aux_fault h.compact (2 ^ h.lg_k) h.cur_min h.aux_count (unpacked 32 many words.now) (unpacked 4 (2 ^ h.lg_k) bytes.now) }
{
    let image = Image {
        header: h,
        nibbles: bytes,
        words,
        many,
    };
    let v = image.sweep(false);
    if let Some(fault) = v.walk.fault {
        return Err(refusal(fault, v.walk.at as u32));
    }
    if v.walk.entries != h.aux_count as usize {
        return Err(Refusal::AuxCount);
    }
    if v.walk.even && fulls == h.aux_count {
        return Ok(());
    }
    match image.sweep(true).slot {
        Some(slot) => Err(Refusal::AuxMatch(slot)),
        None => Ok(()),
    }
}
