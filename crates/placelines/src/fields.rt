// The numbers of a line.
ghost use Rattle.std.specs.Prelude.{◌≡◌, ◌+◌, ◌≤◌, ◌<◌, true, length, drop};
ghost use Rattle.operands.specs.Operands.{operand_of};
ghost use Rattle.text.specs.Lines.{after, space};
ghost use Rattle.placelines.specs.Read.{after_spaces, eight_at, is_read, number_at, value_of};

use operands::decimal;

// Where the text after the next space begins: at the line's end, where there is none.
fn past_space(line: &[u8], at: usize) -> usize
    requires { at ≤ length line.now }
    ensures { (result ≤ length line.now) × (drop result line.now ≡ after space (drop at line.now)) }
{
    let end = text::end_of(line, at, b' ');
    if end < line.len() {
        return end + 1;
    }
    end
}

// Where the text after the first k spaces begins.
fn past_spaces(line: &[u8], k: usize) -> usize
    ensures { (result ≤ length line.now) × (drop result line.now ≡ after_spaces k line.now) }
{
    let mut at: usize = 0;
    for i in 0..k {
        at = past_space(line, at);
    }
    at
}

// The number of a word, if it is one that a byte holds.
fn value(word: &[u8]) -> Option<u8>
    ensures { result ≡ value_of (operand_of word.now) }
{
    let n = decimal(word)?;
    if n < 256 {
        return Some(n as u8);
    }
    None
}

// Number k of a line.
fn number_at(line: &[u8], k: usize) -> Option<u8>
    ensures { result ≡ number_at k line.now }
{
    let at = past_spaces(line, k);
    if k < 15 {
        return value(text::word(&line[at..]));
    }
    value(&line[at..])
}

// Whether a line is sixteen numbers.
pub fn is_read(line: &[u8]) -> bool
    ensures { result ≡ is_read 16 line.now }
{
    for k in 0..16 {
        if number_at(line, k).is_none() {
            return false;
        }
    }
    true
}

// Eight numbers of a line, from number k on.
pub fn eight_at(line: &[u8], k: usize) -> [u8; 8]
    requires { (is_read 16 line.now ≡ true) × (k ≤ 8) }
    ensures { result ≡ eight_at k line.now }
{
    let mut numbers = [0u8; 8];
    for d in 0..8 {
        numbers[d] = number_at(line, k + d).unwrap_or(0);
    }
    numbers
}
