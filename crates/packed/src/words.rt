// Cells of 32 bits, four bytes each, the lowest first: the counts of an image and its words.
ghost use Rattle.std.specs.Prelude.{◌≡◌, ◌+◌, ◌*◌, ◌≤◌, length};
ghost use Rattle.model.specs.Packed.{digits, slot_at, unpacked};

pub fn word_at(bytes: &[u8], i: usize) -> u32
    requires { 4 * i + 4 ≤ length bytes.now }
    ensures { result ≡ slot_at 32 bytes.now i }
{
    let at = 4 * i;
    u32::from_le_bytes([bytes[at], bytes[at + 1], bytes[at + 2], bytes[at + 3]])
}

// As many as `out` has room for.
pub fn unpack(bytes: &[u8], out: &mut [u32])
    requires { 4 * length out.old ≤ length bytes.now }
    ensures { out.new ≡ unpacked 32 (length out.old) bytes.now }
{
    for (i, word) in out.iter_mut().enumerate() {
        *word = word_at(bytes, i);
    }
}

pub fn u32_bytes(n: u32) -> [u8; 4]
    ensures { result ≡ digits 256 4 n }
{
    n.to_le_bytes()
}
