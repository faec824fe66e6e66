// Texts as bytes: written one behind the other into one of fixed size, and compared.
#![tactic(auto)]

ghost use Rattle.std.specs.Prelude.{ℕ, ◌≡◌, ◌+◌, ◌≤◌, List, [], ◌++◌, length, take, drop};
ghost use Rattle.text.specs.Text.{decimal, stands_at};

use std::marker::Model;

// A text of at most N bytes. There is no heap: it lies where its owner does.
#[derive(Drop)]
pub struct Text<const N: usize> {
    bytes: [u8; N],
    len: usize,
}

// Clauses see the text's bytes alone: what stands behind them is nobody's matter.
impl<const N: usize> Model for Text<N> {
    ghost Value = { List ℕ };

    ghost view = { λ t. take t.len t.bytes };

    ghost invariant = { λ t. t.len ≤ N };
}

impl<const N: usize> Text<N> {
    pub fn new() -> Self
        ensures { result ≡ [] }
    {
        Text {
            bytes: [0; N],
            len: 0,
        }
    }

    // Behind what is there, if there is room.
    pub fn push(&mut self, s: &[u8])
        requires { length self.old + length s.now ≤ N }
        ensures { self.new ≡ self.old ++ s.now }
    {
        packed::eight::put(&mut self.bytes, self.len, s);
        self.len += s.len();
    }

    pub fn push_decimal(&mut self, n: u64)
        requires { length self.old + length (decimal n) ≤ N }
        ensures { self.new ≡ self.old ++ decimal n }
    {
        let mut digits = [0u8; 20];
        let k = io::decimal(n, &mut digits);
        self.push(&digits[..k]);
    }

    pub fn as_slice(&self) -> &[u8]
        ensures bytes { result.now ≡ self.now }
        ensures within { length self.now ≤ N }
    {
        &self.bytes[..self.len]
    }
}

// Whether p stands in s at a place, which may lie past the end.
pub fn stands(s: &[u8], at: usize, p: &[u8]) -> bool
    ensures { result ≡ stands_at p.now (drop at s.now) }
{
    match s.get(at..) {
        Some(rest) => rest.starts_with(p),
        None => p.is_empty(),
    }
}
