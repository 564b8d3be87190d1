// House packing: a bit of a packed buffer is reached by shift and mask, the first of eight weighing 128.
#![tactic(auto)]

ghost use Rattle.std.specs.Prelude.{◌≡◌, ℕ, ◌+◌, ◌*◌, ◌%◌, ◌<◌, length, replicate};
ghost use Rattle.bits.specs.Bits.{bit_at, put as «put-bit»};
ghost use Rattle.bits.specs.Tests.{same as «same_bytes»};

// Bit n of the bytes s.
pub fn get(s: &[u8], n: usize) -> u8
    requires { n < 8 * length s.now }
    ensures { result ≡ bit_at s.now n }
{
    (s[n >> 3] >> (7 - (n & 7))) & 1
}

// Writes the bit b at place n, and leaves every other bit as it is.
pub fn put(s: &mut [u8], n: usize, b: u8)
    requires { (n < 8 * length s.old) × (b < 2) }
    ensures { bit_at s.new ≡ «put-bit» n b (bit_at s.old) }
{
    let u = 7 - (n & 7);
    let j = n >> 3;
    s[j] = (s[j] & !(1u8 << u)) | (b << u);
}

// Copies src to dst.
pub fn copy(src: &[u8], dst: &mut [u8])
    requires { length src.now ≡ length dst.old }
    ensures { dst.new ≡ src.now }
{
    // Not `copy_from_slice`, which calls memmove: the C library calls nothing of C but memcpy and memset (include/layer1.h).
    for i in 0..src.len() {
        dst[i] = src[i];
    }
}

// Fills dst with the byte b.
pub fn fill(dst: &mut [u8], b: u8)
    ensures { dst.new ≡ replicate (length dst.old) b }
{
    dst.fill(b);
}

// Whether two buffers hold the same bytes.
#[tactic(auto, using(crate::proofs::Tests::same_pointwise))]
pub fn same(a: &[u8], b: &[u8]) -> bool
    ensures { result ≡ «same_bytes» a.now b.now }
{
    a == b
}

// The place after r, of the places 0 to n - 1 counted around: what a remainder by n comes to, without the division.
pub fn next_around(n: usize, r: usize) -> usize
    requires { r < n }
    ensures { ((i : ℕ) → r ≡ i % n → result ≡ (i + 1) % n) × (result < n) }
{
    let s = r + 1;
    if s < n {
        return s;
    }
    0
}
