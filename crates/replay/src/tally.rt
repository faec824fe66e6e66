use std::io::Result;

// What was compared, and how much of it differed. A line that differs counts as that alone.
#[derive(Clone, Copy, Default)]
pub struct Tally {
    pub lines: u64,
    pub histories: u64,
    pub batches: u64,
    pub lists: u64,
    pub opens: u64,
    pub refusals: u64,
    pub places: u64,
    pub merges: u64,
    pub registers: u64,
    pub words: u64,
    pub bytes: u64,
    pub differ: u64,
}

// Wraps, so that there is nothing to prove: no list is that long.
fn add(total: &mut u64, n: usize) {
    *total = total.wrapping_add(n as u64);
}

impl Tally {
    // A line that is right, by its letter and how many bytes it says.
    pub fn agree(&mut self, letter: u8, n: usize) {
        add(&mut self.lines, 1);
        match letter {
            b'S' => add(&mut self.histories, 1),
            b'F' => add(&mut self.batches, 1),
            b'L' => add(&mut self.lists, 1),
            b'O' => add(&mut self.opens, 1),
            b'X' => add(&mut self.refusals, 1),
            b'A' | b'B' => add(&mut self.places, 1),
            b'M' => add(&mut self.merges, 1),
            b'R' => add(&mut self.registers, n),
            b'T' => add(&mut self.words, n / 4),
            b'I' => add(&mut self.bytes, n.saturating_sub(9)),
            b'J' => add(&mut self.bytes, n.saturating_sub(25)),
            _ => {}
        }
    }

    // The first few lines that differ are named.
    pub fn differ(&mut self, rt: &impl Print) -> Result<()> {
        add(&mut self.lines, 1);
        add(&mut self.differ, 1);
        let line = self.lines;
        if self.differ <= 10 {
            println!(rt; "differs_at={line}")?;
        }
        Ok(())
    }

    pub fn report(&self, rt: &impl Print) -> Result<()> {
        let counts = [
            ("lines", self.lines),
            ("histories", self.histories),
            ("batches", self.batches),
            ("lists", self.lists),
            ("opens", self.opens),
            ("refusals", self.refusals),
            ("places", self.places),
            ("merges", self.merges),
            ("registers", self.registers),
            ("table_words", self.words),
            ("image_bytes", self.bytes),
            ("differ", self.differ),
        ];
        for (name, n) in counts {
            println!(rt; "{name}={n}")?;
        }
        Ok(())
    }
}
