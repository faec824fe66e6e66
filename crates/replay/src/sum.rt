// A sum over a whole list.

// Each byte times how many there are from it to the end: no single change leaves the sum as it was, whether an answer depends on it or not.
pub fn of(text: &[u8]) -> u64 {
    let mut plain = 0u64;
    let mut weighed = 0u64;
    for byte in text {
        plain = plain.wrapping_add(u64::from(*byte));
        weighed = weighed.wrapping_add(plain);
    }
    weighed
}
