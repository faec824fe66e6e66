// The merge program's report, as a text.
#![tactic(auto)]

ghost use Rattle.std.specs.Prelude.{◌≡◌, ◌+◌, ◌≤◌, ◌++◌, length};
ghost use Rattle.sums.specs.Tally.{Registers};
ghost use Rattle.text.specs.Text.{text, decimal, line};
ghost use Rattle.report.specs.Report.{name_of, most, place_text, refused_text, merged_text};

use text::Text;

// An answer's name by its number. No other number has one, nor has 13.
#[tactic(auto, unfolding(crate::specs::Report::name_of))]
fn name_of(code: u8) -> &'static [u8]
    ensures { result.now ≡ name_of code }
{
    match code {
        0 => b"OK",
        1 => b"KIND",
        2 => b"LGK",
        3 => b"SIZE",
        4 => b"DAMAGED",
        5 => b"FINER",
        6 => b"NO_ROOM",
        7 => b"SHORT",
        8 => b"HEADER",
        9 => b"MODE",
        10 => b"COUNTS",
        11 => b"LGARR",
        12 => b"VALUE",
        14 => b"SPARE",
        15 => b"TALLY",
        16 => b"OUT",
        17 => b"LONG",
        18 => b"JOB",
        19 => b"IO",
        20 => b"LARGE",
        21 => b"AUX_EMPTY",
        22 => b"AUX_TWICE",
        23 => b"AUX_LOW",
        24 => b"AUX_COUNT",
        25 => b"AUX_MATCH",
        _ => b"",
    }
}

// A line whose value is a number.
fn put_line(out: &mut Text<160>, key: &[u8], n: u64)
    requires { length out.old + length (line key.now (decimal n)) ≤ 160 }
    ensures { out.new ≡ out.old ++ line key.now (decimal n) }
{
    out.push(key);
    out.push_decimal(n);
    out.push(b"\n");
}

// A report of which the first line is there.
fn answered(code: u8) -> Text<160>
    ensures { result ≡ line (text "answer=") (name_of code) }
{
    let mut out = Text::new();
    out.push(b"answer=");
    out.push(name_of(code));
    out.push(b"\n");
    out
}

// The line that only answers about exception words have.
fn put_place(out: &mut Text<160>, code: u8, place: u32)
    requires { length out.old + 17 ≤ 160 }
    ensures { out.new ≡ out.old ++ place_text code place }
{
    match code {
        21..=25 => put_line(out, b"place=", u64::from(place)),
        _ => {}
    }
}

fn most_of(regs: &[u8]) -> u8
    ensures { result ≡ most regs.now }
{
    regs.iter().copied().max().unwrap_or(0)
}

// A refusal, by its number as it is printed and not by an enum: any number has a report, that of no answer too (`unknown` in
// proofs/Examples). No report is longer than 141 bytes.
pub fn refused(code: u8, place: u32, file: usize) -> Text<160>
    ensures { result ≡ refused_text code place file }
{
    let mut out = answered(code);
    put_line(&mut out, b"code=", u64::from(code));
    put_line(&mut out, b"file=", file as u64);
    put_place(&mut out, code, place);
    out
}

// The zeros and the two sums come from the sixty-four counts.
pub fn merged(files: usize, lg_k: u8, regs: &[u8]) -> Text<160>
    requires { Registers regs.now }
    ensures { result ≡ merged_text files lg_k regs.now }
{
    let counts = sums::counts(regs);
    let zeros = u64::from(counts[0]);
    let low = sums::scaled_of(counts, 0);
    let high = sums::scaled_of(counts, 32);
    let top = u64::from(most_of(regs));
    let mut out = answered(0);
    put_line(&mut out, b"files=", files as u64);
    put_line(&mut out, b"lgk=", u64::from(lg_k));
    put_line(&mut out, b"zeros=", zeros);
    put_line(&mut out, b"max=", top);
    put_line(&mut out, b"kxq0n=", low);
    put_line(&mut out, b"kxq1n=", high);
    out
}
