// Reading lines: a line's letter, and the bytes and words that its digits say. What can't be read whole is None.
ghost use Rattle.std.specs.Prelude.{◌≤◌, ◌<◌, length};
ghost use Rattle.std.specs.Option.{IfSome};

// Small letters alone: to_digit would take capital ones as well.
fn digit(c: u8) -> Option<u8>
    ensures { IfSome result (λ d. d < 16) }
{
    match c {
        b'0'..=b'9' => Some(c - b'0'),
        b'a'..=b'f' => Some(c - b'a' + 10),
        _ => None,
    }
}

fn pair(high: u8, low: u8) -> Option<u8> {
    Some(digit(high)? * 16 + digit(low)?)
}

// The bytes that pairs of digits say, in the front of out.
fn bytes<'a>(digits: &[u8], out: &'a mut [u8]) -> Option<&'a [u8]>
    ensures { IfSome result (λ said. length said.now ≤ length out.old) }
{
    let (pairs, odd) = digits.as_chunks::<2>();
    if !odd.is_empty() || out.len() < pairs.len() {
        return None;
    }
    for (byte, [high, low]) in out.iter_mut().zip(pairs) {
        *byte = pair(*high, *low)?;
    }
    Some(&out[..pairs.len()])
}

// The letter, and the bytes. A line without its line feed was cut.
pub fn line<'a>(line: &[u8], out: &'a mut [u8]) -> Option<(u8, &'a [u8])>
    ensures { IfSome result (λ said. length said.1.now ≤ length out.old) }
{
    let (letter, digits) = line.strip_suffix(b"\n")?.split_first()?;
    Some((*letter, bytes(digits, out)?))
}

// The words that these bytes say, in the front of out.
pub fn words<'a>(bytes: &[u8], out: &'a mut [u32]) -> Option<&'a [u32]>
    ensures { IfSome result (λ said. length said.now ≤ length out.old) }
{
    let (quads, odd) = bytes.as_chunks::<4>();
    if !odd.is_empty() || out.len() < quads.len() {
        return None;
    }
    for (word, quad) in out.iter_mut().zip(quads) {
        *word = u32::from_be_bytes(*quad);
    }
    Some(&out[..quads.len()])
}
