// A text cut at its first separator, as parts of what is lent.
ghost use Rattle.std.specs.Prelude.{◌≡◌, ◌+◌, ◌≤◌, length, drop};
ghost use Rattle.text.specs.Lines.{after, before, newline, plain, plain_length, space};

// Where the first separator stands from `at` on: at the text's end, where there is none.
pub fn end_of(text: &[u8], at: usize, separator: u8) -> usize
    requires { at ≤ length text.now }
    ensures { (result ≡ at + length (before separator (drop at text.now))) × (result ≤ length text.now) }
{
    for i in at..text.len() {
        if text[i] == separator {
            return i;
        }
    }
    text.len()
}

// Where the line that starts at `at` ends: at its newline, or at the text's end. Past the text's end, a line has no bytes. `lines` gives whole lines.
pub fn line_end(text: &[u8], at: usize) -> usize
    ensures { result ≡ at + length (before newline (drop at text.now)) }
{
    if at < text.len() {
        return end_of(text, at, b'\n');
    }
    at
}

// What stands before the first separator, and what follows it.
pub fn cut(text: &[u8], separator: u8) -> (&[u8], &[u8])
    ensures { (result.0.now ≡ before separator text.now) × (result.1.now ≡ after separator text.now) }
{
    let end = end_of(text, 0, separator);
    if end < text.len() {
        let next = end + 1;
        return (&text[..end], &text[next..]);
    }
    (text, &text[end..])
}

// The first word of a line.
pub fn word(line: &[u8]) -> &[u8]
    ensures { result.now ≡ before space line.now }
{
    cut(line, b' ').0
}

// What follows the first word and the space after it.
pub fn rest(line: &[u8]) -> &[u8]
    ensures { result.now ≡ after space line.now }
{
    cut(line, b' ').1
}

// How many bytes a line has without the CR that may end it.
fn plain_length(line: &[u8]) -> usize
    ensures { (result ≡ plain_length line.now) × (result ≤ length line.now) }
{
    let n = line.len();
    if n == 0 {
        return n;
    }
    if line[n - 1] == b'\r' {
        return n - 1;
    }
    n
}

// A line without the CR that may end it.
pub fn plain_line(line: &[u8]) -> &[u8]
    ensures { result.now ≡ plain line.now }
{
    let n = plain_length(line);
    &line[..n]
}
