// A side's memory, as one copy to compare with.

// Appends s to the first `at` bytes, and answers how many there are then.
fn append(all: &mut [u8; 55298], at: usize, s: &[u8]) -> usize {
    let mut to = at;
    for b in s {
        if to >= 55298 {
            return to;
        }
        all[to] = *b;
        to += 1;
    }
    to
}

// All bytes of a side's memory, each part at most one byte longer than a reading in MP11 asks.
pub fn memory(m3: &[u8], m4: &[u8]) -> [u8; 55298] {
    let mut all = [0u8; 55298];
    let a = append(&mut all, 0, m3);
    append(&mut all, a, m4);
    all
}

// Whether two copies are the same. It takes arrays, whose length no proof has to follow.
pub fn is_same(a: &[u8; 55298], b: &[u8; 55298]) -> bool {
    bits::same(a, b)
}

// Turns bit n of s over.
pub fn turn_over(s: &mut [u8], n: usize) {
    let j = n >> 3;
    if j < s.len() {
        s[j] = s[j] ^ (128u8 >> (n & 7));
    }
}
