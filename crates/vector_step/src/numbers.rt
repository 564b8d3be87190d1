// A part of the vector in decimal digits, exactly.
ghost use Rattle.std.specs.Prelude.{◌≡◌, ◌+◌, ◌^◌, ◌≤◌, ◌<◌, length};
ghost use Rattle.text.specs.Put.{Put};
ghost use Rattle.vector_step.specs.Numbers.{digits, exactly, fraction, part_text, times_in};
ghost use Rattle.vector_step.specs.Shown.{Shows};

const POWERS: [u64; 16] = [
    1,
    10,
    100,
    1_000,
    10_000,
    100_000,
    1_000_000,
    10_000_000,
    100_000_000,
    1_000_000_000,
    10_000_000_000,
    100_000_000_000,
    1_000_000_000_000,
    10_000_000_000_000,
    100_000_000_000_000,
    1_000_000_000_000_000,
];

// A power of ten.
fn power(k: usize) -> u64
    requires { k < 16 }
    ensures { result ≡ 10 ^ k }
{
    POWERS[k]
}

// A digit in ASCII.
fn digit(n: u64) -> u8
    requires { n < 10 }
    ensures { result ≡ 48 + n }
{
    48 + n as u8
}

// Puts a number below 10^16 in sixteen digits, without the zeros at its end.
fn put_digits(out: &mut [u8], at: usize, n: u64) -> usize
    requires { (n < 10 ^ 16) × (at + 16 ≤ length out.old) }
    ensures { Put out.old out.new at result 16 (digits 16 n) }
{
    let mut left = n;
    let mut end = at;
    for k in (0..16usize).rev() {
        if left == 0 {
            return end;
        }
        let unit = power(k);
        out[end] = digit(left / unit);
        left = left % unit;
        end += 1;
    }
    end
}

// Puts so many times 2^-16, below 1, behind a point.
fn put_fraction(out: &mut [u8], at: usize, n: u64) -> usize
    requires { (n < 65536) × (at + 17 ≤ length out.old) }
    ensures { Put out.old out.new at result 17 (fraction n) }
{
    if n == 0 {
        return text::put(out, at, b"");
    }
    let m = text::put(out, at, b".");
    put_digits(out, m, n * 152_587_890_625)
}

// Puts so many times 2^-16.
fn put_times(out: &mut [u8], at: usize, n: u64) -> usize
    requires { at + 37 ≤ length out.old }
    ensures { Put out.old out.new at result 37 (exactly n) }
{
    let m = text::number(out, at, n / 65536);
    put_fraction(out, m, n % 65536)
}

// How many times 2^-16 a part is: none, or as many as its scale.
fn times_of(part: f32, times: u64) -> u64
    requires { Shows times part }
    ensures { result ≡ times_in part }
{
    if part == 0.0 {
        return 0;
    }
    times
}

// Puts a part.
pub fn put_part(out: &mut [u8], at: usize, part: f32, times: u64) -> usize
    requires { Shows times part × (at + 38 ≤ length out.old) }
    ensures { Put out.old out.new at result 38 (part_text part) }
{
    let n = times_of(part, times);
    if part < 0.0 {
        let m = text::put(out, at, b"-");
        return put_times(out, m, n);
    }
    put_times(out, at, n)
}
