// Bit n of the scrambling sequence (section 8.2) without the steps before it: the sequence repeats itself after 2,047 bits.
ghost use Rattle.std.specs.Prelude.{◌≡◌, ℕ, ◌+◌, ◌-◌, ◌*◌, ◌/◌, ◌%◌, ◌^◌, ◌<◌};
ghost use Rattle.scrambling.specs.Scrambler.{sequence};

// The bits 0 to 2,047 of the sequence, 64 in a word, the first weighing most.
const SEQUENCE: [u64; 32] = [
    0x665a5c5ca3452085,
    0x408abeece4b0b813,
    0xfd337873f2cd1e29,
    0xae91bd6c8e14fde6,
    0x30f8195688ebe465,
    0xf09816a8eeb1b839,
    0x53dd362dae3b06d5,
    0xb76d8e3e53087ea6,
    0x45a09017fd99c3ca,
    0xcbb46df1cd61da9c,
    0x435f89943df9cc34,
    0xadee31ad6e24fa19,
    0x03d53778d9497427,
    0x50dd49de9ce9e430,
    0xad448a14575d89c1,
    0x6025508814020055,
    0x5ddc9cbcb9ec31f8,
    0x33f866a5ba390680,
    0xeab11282eae44f5e,
    0x7658f6b247a0c54a,
    0x21057f73278595c2,
    0x35077f267a59097e,
    0x8ceb4ede49a16fdb,
    0x36d2485ea3107d59,
    0xdc360700d5488beb,
    0x9b96c24af44df498,
    0xbc135788c14a8bbe,
    0xc64a5ef64da1c560,
    0x8feb312d7b738d3e,
    0x2cfb4c74a7458a3e,
    0xf9b3c79f3cd34874,
    0x0dfe330780c01ffc,
];

// Word w of them.
fn word(w: usize) -> u64
    requires { w < 32 }
    ensures { (k : ℕ) → k < 64 → result / 2 ^ (63 - k) % 2 ≡ sequence (64 * w + k) }
{
    SEQUENCE[w]
}

// Bit n of the scrambling sequence.
pub fn sequence_bit(n: usize) -> u8
    ensures { result ≡ sequence n }
{
    let m = n % 2047;
    let x = word(m / 64);
    ((x >> (63 - m % 64)) % 2) as u8
}
