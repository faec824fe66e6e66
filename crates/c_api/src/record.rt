// A sketch's record as the five words that C holds, and an answer as its number and its place.
ghost use Rattle.std.specs.Prelude.{◌≡◌, List, ℕ};
ghost use Rattle.model.specs.Answers.{number_of, place_of, said, said_of};
ghost use Rattle.model.specs.Calls as book;
ghost use Rattle.model.specs.Calls.{out, fed_out};
ghost use Rattle.c_api.specs.Words.{narrowed, record_in, Carried, Put};

use model::{Fed, Refusal, Sketch, Stopped};

// 255 where a word is no byte: neither a kind nor an lg_k nor a cur_min, so the call refuses it.
pub fn narrow(word: u32) -> u8
    ensures { result ≡ narrowed word }
{
    if word < 256 { word as u8 } else { 255 }
}

// The word itself as long as it stands for the byte: a refused record stays as it was, also where a word is no byte.
fn keep(word: u32, byte: u8) -> u32
    ensures { Carried word byte result }
{
    if narrow(word) == byte {
        word
    } else {
        u32::from(byte)
    }
}

pub fn get(words: &[u32; 5]) -> Sketch
    ensures { result ≡ record_in words.now }
{
    Sketch {
        kind: narrow(words[0]),
        lg_k: narrow(words[1]),
        cur_min: narrow(words[2]),
        num_at_cur_min: words[3],
        aux_count: words[4],
    }
}

pub fn put(words: &mut [u32; 5], s: Sketch)
    ensures { Put words.old s words.new }
{
    let kind = keep(words[0], s.kind);
    let lg_k = keep(words[1], s.lg_k);
    let cur_min = keep(words[2], s.cur_min);
    *words = [kind, lg_k, cur_min, s.num_at_cur_min, s.aux_count];
}

// The record that stands in for one that a refused call did not make.
pub fn nothing() -> Sketch
    ensures { result ≡ book.nothing }
{
    Sketch {
        kind: 0,
        lg_k: 0,
        cur_min: 0,
        num_at_cur_min: 0,
        aux_count: 0,
    }
}

// What a batch came to, and its answer: C is told both, whatever the answer.
pub fn parted(fed: Result<Fed, Stopped>) -> (Fed, Result<(), Refusal>)
    ensures { (regs aux : List ℕ) → out (number_of result.1) (place_of result.1) result.0.sketch result.0.taken regs aux ≡ fed_out fed regs aux }
{
    match fed {
        Ok(fed) => (fed, Ok(())),
        Err(stopped) => (stopped.fed, Err(stopped.why)),
    }
}

// The answer's number in the table of refusals.
pub fn number<T: Copy>(answer: Result<T, Refusal>) -> u32
    ensures { result ≡ number_of answer }
{
    match answer {
        Ok(_) => 0,
        Err(why) => u32::from(why.number()),
    }
}

// The same, with the place handed out.
pub fn told<T: Copy>(answer: Result<T, Refusal>, place: &mut u32) -> u32
    ensures { said result place.new ≡ said_of answer }
{
    match answer {
        Ok(_) => {
            *place = 0;
            0
        }
        Err(why) => {
            *place = why.place();
            u32::from(why.number())
        }
    }
}
