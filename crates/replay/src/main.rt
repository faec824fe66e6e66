// Replays the original Rust's answers, kept in data/, through the public calls, so that a test needs no Rust. `oracle replay` made the
// list, and `oracle places` one of document 02's answers to images, which the Rust does not number. What is compared is counted and printed; no contract says what a list holds, so each function is proved safe and ending.
//
// A line is a capital letter, which says what to do with the sketch at hand, then bytes as pairs of the digits 0-9 and a-f with nothing
// between, then a line feed. A word is four bytes, highest first; an image's bytes stand in their order. Another sketch waits aside.
//
//     S KIND LGK    an empty sketch is started (a byte each)
//     F WORD..      it is fed these coupons
//     L BYTE..      it is fed the coupons of this image, a list or a set
//     O BYTE..      this image is opened, and is the sketch from here on
//     P             the sketch and the one aside change places
//     M             the one aside is merged into the sketch
//     R BYTE..      the sketch's registers are these
//     T WORD..      its exception table has these words in their places, and the area behind it is zeros
//     I BYTE..      its image is this, bytes 5 and 8 to 15 not compared
//     J BYTE..      the same of a sketch that was opened: 16 to 31 are not compared either, since the Rust keeps what it read there
//     X BYTE..      this image is refused; the sketch stays as it is
//     A NO PLACE BYTE..   this image has this answer, a byte, at this place, a word; 0 and 0 if it opens. The sketch stays as it is
//     B NO PLACE BYTE..   the same of a list or a set that is fed to the sketch, which stays as it is; 0 and 0 if it is taken
//
// A line that says something else than our calls counts as one difference, and so does one that can't be read.
#![tactic(auto)]

mod held;
mod hex;
mod sum;
mod tally;

ghost use Rattle.std.specs.Prelude.{◌≡◌, length};

use held::Held;
use std::io::Result;
use std::mem;
use std::rt::Files;
use tally::Tally;

#[derive(Clone, Copy)]
struct Sketches {
    held: Held,
    aside: Held,
}

impl Sketches {
    // Whether the line says what our calls do; if not, the sketches stay as they are. The letters are those of the table above, and stay
    // letters: an enum of them would say each line's letter once more and nothing else.
    fn obey(&mut self, letter: u8, said: &[u8]) -> bool {
        let after = match letter {
            b'S' => Held::start(said),
            b'F' => self.held.feed(said),
            b'L' => self.held.feed_image(said),
            b'O' => Held::open(said).ok(),
            b'M' if said.is_empty() => self.held.merge(&self.aside),
            b'P' if said.is_empty() => Some(mem::replace(&mut self.aside, self.held)),
            _ => return tells(letter, said, &self.held),
        };
        match after {
            Some(held) => {
                self.held = held;
                true
            }
            None => false,
        }
    }
}

// The lines that only say what the sketch is.
fn tells(letter: u8, said: &[u8], held: &Held) -> bool {
    match letter {
        b'R' => held.has_registers(said),
        b'T' => held.has_table(said),
        b'I' => held.has_image(said, 16),
        b'J' => held.has_image(said, 32),
        b'X' => held::refuses(said),
        b'A' => held::answers(said),
        b'B' => held.feed_answers(said),
        _ => false,
    }
}

// The letter of a line that is right, and how many bytes it says.
fn step(sketches: &mut Sketches, line: &[u8]) -> Option<(u8, usize)> {
    let mut bytes = [0u8; 16384];
    let (letter, said) = hex::line(line, &mut bytes)?;
    if sketches.obey(letter, said) {
        Some((letter, said.len()))
    } else {
        None
    }
}

fn run(rt: &impl Print, text: &[u8]) -> Result<Tally> {
    let mut tally = Tally::default();
    let mut sketches = Sketches {
        held: Held::none(),
        aside: Held::none(),
    };
    for line in text.split_inclusive(|b| *b == b'\n') {
        match step(&mut sketches, line) {
            Some((letter, n)) => tally.agree(letter, n),
            None => tally.differ(rt)?,
        }
    }
    Ok(tally)
}

// Room for a list. Its length alone is said, since nobody needs to look at so many zeros.
fn room() -> [u8; 1048576]
    ensures { 1048576 ≡ length result }
{
    [0; 1048576]
}

// A file that fills the room was cut, or could have been.
fn replay<R: Files + Print>(rt: &R, path: &str) -> Result<()> {
    let mut text = room();
    println!(rt; "list={path}")?;
    let Ok(n) = files::load(rt, path.as_bytes(), &mut text) else {
        return println!(rt; "fault=not read");
    };
    if n == text.len() {
        return println!(rt; "fault=too long");
    }
    let text = &text[..n];
    let sum = sum::of(text);
    println!(rt; "sum={sum}")?;
    run(rt, text)?.report(rt)
}

fn main(rt: HostRuntime) -> Result<()> {
    replay(&rt, "answers")?;
    replay(&rt, "places")?;
    replay(&rt, "wrong")
}
