// A scale as it is typed: one to three digits, then perhaps a point and one to sixteen digits, which must be a number of single precision exactly.
#![tactic(auto)]

ghost use Rattle.std.specs.Prelude.{◌≡◌, ◌-◌, ◌*◌, ◌^◌, ◌<◌, ◌≤◌, true, false};
ghost use Rattle.std.specs.Float.Ieee.Exact.{HasValue};
ghost use Rattle.text.specs.Numbers.{digits_alone, value};
ghost use Rattle.scales.specs.Scales.{exact_of, is_short, is_single, scale_of};

// Whether a text is digits alone.
#[tactic(auto, using(crate::proofs::Digits::digits_at, crate::proofs::Digits::digits_end), unfolding(text::specs::Numbers::is_digit))]
fn are_digits(text: &[u8]) -> bool
    ensures { result ≡ digits_alone text.now }
{
    for byte in text {
        if !byte.is_ascii_digit() {
            return false;
        }
    }
    true
}

// Whether a text is a number of at most so many digits.
#[tactic(auto, using(crate::proofs::Digits::number_is), unfolding(crate::specs::Scales::is_short))]
fn is_short(text: &[u8], most: usize) -> bool
    ensures { result ≡ is_short most text.now }
{
    !text.is_empty() && text.len() <= most && are_digits(text)
}

// What digits are worth.
fn worth(text: &[u8]) -> u64
    requires { is_short 16 text.now ≡ true }
    ensures { result ≡ value text.now }
{
    let mut n: u64 = 0;
    for byte in text {
        n = 10 * n + u64::from(byte - b'0');
    }
    n
}

// The number of so many digits behind the point, with zeros behind it till there are sixteen.
#[tactic(auto, using(crate::proofs::Digits::padded_below))]
fn padded(number: u64, digits: usize) -> u64
    requires { (digits ≤ 16) × (number < 10 ^ digits) }
    ensures { (result ≡ number * 10 ^ (16 - digits)) × (result < 10 ^ 16) }
{
    let zeros = 16 - digits;
    number * 10u64.pow(zeros as u32)
}

// Whether single precision has so many times 2^-16.
#[tactic(auto, unfolding(crate::specs::Scales::is_single))]
fn is_single(times: u32) -> bool
    ensures { result ≡ is_single times }
{
    times < 16_777_216
        || (times < 33_554_432 && times % 2 == 0)
        || (times < 67_108_864 && times % 4 == 0)
}

// So many times 10^-16 as times 2^-16, if single precision has it.
#[tactic(auto, unfolding(crate::specs::Scales::exact_of))]
fn exact(n: u64) -> Option<u32>
    requires { n < 1000 * 10 ^ 16 }
    ensures { result ≡ exact_of n }
{
    if n % 152_587_890_625 != 0 {
        return None;
    }
    let times = (n / 152_587_890_625) as u32;
    is_single(times).then_some(times)
}

// The scale that a text gives: how many times 2^-16.
pub fn scale_of(text: &[u8]) -> Option<u32>
    ensures { result ≡ scale_of text.now }
{
    let end = text::end_of(text, 0, b'.');
    let whole = &text[..end];
    if !is_short(whole, 3) {
        return None;
    }
    let high = worth(whole);
    if end == text.len() {
        return exact(10_000_000_000_000_000 * high);
    }
    let next = end + 1;
    let behind = &text[next..];
    if !is_short(behind, 16) {
        return None;
    }
    let low = padded(worth(behind), behind.len());
    exact(10_000_000_000_000_000 * high + low)
}

// So many times 2^-16 in single precision. Of what `scale_of` gives neither step rounds.
pub fn value_of(times: u32) -> f32
    ensures { is_single times ≡ true → HasValue result false times 65536 }
{
    std::num::nearest_u32_to_f32(times) / 65536.0
}
