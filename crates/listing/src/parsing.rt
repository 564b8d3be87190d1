// A line, read byte by byte: a few numbers tell all that its bytes mean, however many there are.
ghost use Rattle.std.specs.Prelude.{◌≡◌, ℕ, ◌-◌, ◌≤◌, cond, List, [], ◌∷◌, ◌++◌};
ghost use Rattle.text.specs.Numbers.{is_digit};
ghost use Rattle.linewise.specs.Going.{begun};
ghost use Rattle.listing.specs.Running.{part_of, line_of};

// A line: its row before the first space, and its column behind it, if the space has come. Either is None without bytes, or their number, where 1000 is too many or no number.
#[derive(Clone, Copy)]
pub struct Line {
    pub row: Option<usize>,
    pub column: Option<Option<usize>>,
}

// A line with no bytes.
pub fn empty() -> Line
    ensures { result ≡ line_of [] }
{
    Line {
        row: None,
        column: None,
    }
}

// Whether a line has bytes.
pub fn is_begun(line: Line) -> bool
    ensures { (bytes : List ℕ) → line ≡ line_of bytes → begun bytes ≡ result }
{
    line.column.is_some() || line.row.is_some()
}

// A digit's worth, or 1000 where b is no digit.
fn digit(b: u8) -> usize
    ensures { (result ≡ cond (is_digit b) (b - 48) 1000) × (result ≤ 1000) }
{
    if b < 48 {
        return 1000;
    }
    if b > 57 {
        return 1000;
    }
    (b - 48) as usize
}

// A part with one more byte.
fn push(part: Option<usize>, b: u8) -> Option<usize>
    ensures { (bytes : List ℕ) → part ≡ part_of bytes → result ≡ part_of (bytes ++ (b ∷ [])) }
{
    let n = part.unwrap_or(0);
    if n >= 1000 {
        return Some(1000);
    }
    let next = n * 10 + digit(b);
    Some(next.min(1000))
}

// A line with one more byte.
pub fn step(line: Line, b: u8) -> Line
    ensures { (bytes : List ℕ) → line ≡ line_of bytes → result ≡ line_of (bytes ++ (b ∷ [])) }
{
    match line.column {
        Some(column) => {
            let longer = push(column, b);
            Line {
                row: line.row,
                column: Some(longer),
            }
        }
        None if b == 32 => Line {
            row: line.row,
            column: Some(None),
        },
        None => Line {
            row: push(line.row, b),
            column: None,
        },
    }
}
