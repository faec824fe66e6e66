// Plays the jobs of data/: 0.job, 1.job and so on, until one is missing. Before each report stands the job's number, and behind it what the file N.out
// then holds, which is the job's output or what stood there before.
#![tactic(auto)]

ghost use Rattle.std.specs.Prelude.{◌≡◌, ◌≤◌, ◌<◌, ◌++◌, length};
ghost use Rattle.text.specs.Text.{decimal};

use std::io;
use std::io::Result;
use std::rt::Files;
use text::Text;

fn main(rt: HostRuntime) -> Result<()> {
    for i in 0..1000 {
        if !play(&rt, i)? {
            break;
        }
    }
    Ok(())
}

fn play<R: Files + Print>(rt: &R, i: usize) -> Result<bool> {
    let name = name_of(i, b".job");
    let Ok(mut job) = files::open(rt, name.as_slice()) else {
        return Ok(false);
    };
    line(rt, "job=", i as u64)?;
    merge_job::run(rt, &mut job, &mut io::writer(rt));
    show(rt, i)?;
    Ok(true)
}

fn name_of(i: usize, ending: &[u8]) -> Text<40>
    requires { length ending.now ≤ 10 }
    ensures { result ≡ decimal i ++ ending.now }
{
    let mut name = Text::new();
    name.push_decimal(i as u64);
    name.push(ending);
    name
}

fn line(rt: &impl Print, key: &str, n: u64) -> Result<()> {
    println!(rt; "{key}{n}")
}

// The bytes themselves would fill pages; a sum tells them apart.
fn show<R: Files + Print>(rt: &R, i: usize) -> Result<()> {
    let name = name_of(i, b".out");
    let mut bytes = [0u8; 5000];
    let Ok(len) = files::load(rt, name.as_slice(), &mut bytes) else {
        return println!(rt; "output=none");
    };
    line(rt, "bytes=", len as u64)?;
    line(rt, "sum=", sum_of(&bytes[..len]))
}

// The bytes as digits to base 257, modulo the largest prime below 2^32.
fn sum_of(bytes: &[u8]) -> u64 {
    let mut sum = 1;
    for b in bytes {
        sum = next(sum, *b);
    }
    sum
}

fn next(sum: u64, b: u8) -> u64
    requires { sum < 4294967291 }
    ensures { result < 4294967291 }
{
    (sum * 257 + u64::from(b)) % 4294967291
}
