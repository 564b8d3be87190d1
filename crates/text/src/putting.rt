// Text put behind what a buffer holds: each function answers where the text ends.
ghost use Rattle.std.specs.Prelude.{◌+◌, ◌≤◌, [], ◌∷◌, ◌++◌, length};
ghost use Rattle.text.specs.Numbers.{decimal};
ghost use Rattle.text.specs.Put.{Put};
ghost use Rattle.text.specs.Refused.{refused};

// Puts a text at `at`.
pub fn put(out: &mut [u8], at: usize, text: &[u8]) -> usize
    requires { at + length text.now ≤ length out.old }
    ensures { Put out.old out.new at result (length text.now) text.now }
{
    let end = at + text.len();
    out[at..end].copy_from_slice(text);
    end
}

// Puts a number in decimal.
pub fn number(out: &mut [u8], at: usize, n: u64) -> usize
    requires { at + 20 ≤ length out.old }
    ensures { Put out.old out.new at result 20 (decimal n) }
{
    let mut text = [0u8; 20];
    let k = io::decimal(n, &mut text);
    put(out, at, &text[..k])
}

// Puts a number in decimal, and the byte that ends it.
pub fn field(out: &mut [u8], at: usize, n: u64, end: u8) -> usize
    requires { at + 21 ≤ length out.old }
    ensures { Put out.old out.new at result 21 (decimal n ++ (end ∷ [])) }
{
    let m = number(out, at, n);
    out[m] = end;
    m + 1
}

// Puts a refused line.
pub fn refuse(out: &mut [u8], at: usize, number: u64) -> usize
    requires { at + 92 ≤ length out.old }
    ensures { Put out.old out.new at result 92 (refused number) }
{
    let m = put(out, at, b"REFUSED ");
    field(out, m, number, 10)
}
