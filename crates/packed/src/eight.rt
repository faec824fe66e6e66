// Cells of 8 bits: a byte each, so that they are copied, put and compared as they are, and cleared by std's own method.
ghost use Rattle.std.specs.Prelude.{◌≡◌, max, ◌+◌, ◌≤◌, length};
ghost use Rattle.std.proofs.Math.Seq.{paste};

// Values over as many others. Not std's copy_from_slice: that goes by raw pointers, of which the compiler makes memmove, and of a loop over
// slices memcpy, which is all that the library for C may call to copy. Of any type, since exception tables are copied too.
pub fn copy<T: Copy>(from: &[T], to: &mut [T])
    requires { length to.old ≡ length from.now }
    ensures { to.new ≡ from.now }
{
    for (i, value) in to.iter_mut().enumerate() {
        *value = from[i];
    }
}

// Bytes over a buffer from a place on; all others stay.
pub fn put(out: &mut [u8], at: usize, bytes: &[u8])
    requires { at + length bytes.now ≤ length out.old }
    ensures { out.new ≡ paste out.old at bytes.now (length bytes.now) }
{
    copy(bytes, &mut out[at..at + bytes.len()]);
}

// The compiler makes one instruction of it, so that a loop over it becomes vector code.
pub fn larger(a: u8, b: u8) -> u8
    ensures { result ≡ max a b }
{
    a.max(b)
}
