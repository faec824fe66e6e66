// The merge program's job: whether a text is one, and where it says what. It is judged whole before any file is touched.
#![tactic(auto)]

ghost use Rattle.std.specs.Prelude.{◌≡◌, ◌+◌, ◌≤◌, ◌<◌, MatchOption, position, not, length, drop};
ghost use Rattle.std.specs.Char.{is_ascii_graphic};
ghost use Rattle.text.specs.Text.{stands_at};
ghost use Rattle.job.specs.Job.{path_in, size_line, in_lines, size_in, ins_in, job_of, places_of, PathIn};

use text::Text;

// The most images that a job lists.
const IMAGES: usize = 64;

// The lg_k asked for, how many images are listed, and where the first `in=` line and the `out=` line start.
#[derive(Clone, Copy)]
pub struct Places {
    pub lg_k: u8,
    pub files: usize,
    pub first: usize,
    pub last: usize,
}

// How many bytes of a path stand at the front, if another byte stands behind them.
fn span(line: &[u8]) -> Option<usize>
    ensures { result ≡ position (λ b. not (is_ascii_graphic b)) line.now }
{
    line.iter().position(|b| !b.is_ascii_graphic())
}

// The path in the line of this key at a place.
pub fn path_in<'a>(job: &'a [u8], at: usize, key: &[u8]) -> Option<&'a [u8]>
    ensures { MatchOption result (path_in key.now (drop at job.now) ≡ 0) (λ path. PathIn key.now (drop at job.now) path.now) }
{
    let line = job.get(at..)?.strip_prefix(key)?;
    let n = span(line)?;
    if n == 0 || n > 200 || line[n] != b'\n' {
        return None;
    }
    Some(&line[..n])
}

// Whether the first line asks for this size.
fn asks_for(job: &[u8], lg_k: u8) -> bool
    requires { lg_k ≤ 12 }
    ensures { result ≡ stands_at (size_line lg_k) job.now }
{
    let mut line: Text<24> = Text::new();
    line.push(b"lgk=");
    line.push_decimal(u64::from(lg_k));
    line.push(b"\n");
    text::stands(job, 0, line.as_slice())
}

// The lg_k that the first line asks for.
fn size_in(job: &[u8]) -> Option<u8>
    ensures { MatchOption result (size_in job.now ≡ 0) (λ lg_k. (lg_k ≡ size_in job.now) × (4 ≤ lg_k) × (lg_k ≤ 12)) }
{
    for lg_k in 4..=12 {
        if asks_for(job, lg_k) {
            return Some(lg_k);
        }
    }
    None
}

// How many `in=` lines stand from a place on, at most IMAGES, and where they end.
#[derive(Clone, Copy)]
pub struct Listed {
    pub files: usize,
    pub end: usize,
}

fn lines_in(job: &[u8], at: usize) -> Listed
    requires { at ≤ length job.now }
    ensures { (result.files ≡ length (ins_in 64 (drop at job.now))) × (result.end ≡ at + length (in_lines (ins_in 64 (drop at job.now)))) }
{
    let mut end = at;
    for files in 0..IMAGES {
        let Some(path) = path_in(job, end, b"in=") else {
            return Listed { files, end };
        };
        end += path.len() + 4;
    }
    Listed { files: IMAGES, end }
}

// Where the first line ends.
fn size_end(lg_k: u8) -> usize
    requires { (4 ≤ lg_k) × (lg_k ≤ 12) }
    ensures { result ≡ length (size_line lg_k) }
{
    if lg_k < 10 { 6 } else { 7 }
}

// None for a text that is no job.
pub fn parse(job: &[u8]) -> Option<Places>
    ensures { MatchOption result ((job_of job.now).lgk ≡ 0) (λ places. (places ≡ places_of (job_of job.now)) × (0 < places.lg_k)) }
{
    if 4096 < job.len() {
        return None;
    }
    let lg_k = size_in(job)?;
    let first = size_end(lg_k);
    let listed = lines_in(job, first);
    let files = listed.files;
    let last = listed.end;
    let path = path_in(job, last, b"out=")?;
    if files == 0 || job.len() - last != path.len() + 5 {
        return None;
    }
    Some(Places {
        lg_k,
        files,
        first,
        last,
    })
}
