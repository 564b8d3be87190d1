// What an answer sheet says of a cell, or of a coded bit.
ghost use Rattle.std.specs.Prelude.{◌≡◌, ◌+◌, ◌*◌, ◌<◌, ◌≤◌};
ghost use Rattle.interleaving.specs.TableI.{ks};
ghost use Rattle.runs.specs.Starting.{state_at};
ghost use Rattle.queries.specs.Finder.{found};
ghost use Rattle.queries.specs.FinderPX.{cell_of, found_px, kind_of_number};
ghost use Rattle.locating.specs.Locator.{located};
ghost use Rattle.locating.specs.LocatorPX.{located_px};
ghost use Rattle.sheetlines.specs.Entries.{bit_entry, entry_of, in_pm, in_px, pm_entry, pm_placed, px_entry, px_placed, turn_of};

use crate::questions::Question;
use queries::{Found, FoundPx};
use runs::State;

// A coded bit: this one of this transfer frame of a channel (1 is P1, 2 PIDS, 3 P3, 4 P4), handed over with L1 frame `from`.
#[derive(Clone, Copy)]
pub struct CodedBit {
    pub channel: u8,
    pub from: u64,
    pub frame: usize,
    pub bit: usize,
}

// A cell of the matrix in which its channel is sent, in L1 frame `sent`, and its number there. PM has no block pairs: its cells have 0.
#[derive(Clone, Copy)]
pub struct Cell {
    pub sent: u64,
    pub pair: usize,
    pub row: usize,
    pub column: usize,
    pub number: usize,
}

// This coded bit stands in this cell; or the zero fill, in a cell of L1 frame `sent`. Where there is no entry, the line is refused.
#[derive(Clone, Copy)]
pub enum Entry {
    Stands { coded: CodedBit, cell: Cell },
    Fill { sent: u64 },
}

// The state before an L1 frame of a run, with the number 0: a finder's answer is the same for every number.
pub fn state_before(mode: u8, frame: u64) -> State
    ensures { result ≡ state_at mode 0 frame }
{
    let half = (frame % 2) as u8;
    let last = modes::last_age(modes::main_of(mode));
    if frame < last as u64 {
        return State {
            mode,
            half,
            age: frame as u8,
            reserved: 0,
        };
    }
    State {
        mode,
        half,
        age: last,
        reserved: 0,
    }
}

// A coded bit of P1 or PIDS in its cell of PM, in L1 frame t.
fn in_pm(t: u64, channel: u8, frame: usize, bit: usize, row: usize, column: usize) -> Entry
    requires { (row < 512) × (column < 720) }
    ensures { result ≡ in_pm t channel frame bit row column }
{
    let coded = CodedBit {
        channel,
        from: t,
        frame,
        bit,
    };
    let cell = Cell {
        sent: t,
        pair: 0,
        row,
        column,
        number: row * 720 + column,
    };
    Entry::Stands { coded, cell }
}

// The number of a cell of PX1 or PX2, counted through the eight matrices.
fn px_cell(mode: u8, channel: u8, pair: usize, row: usize, column: usize) -> usize
    requires { (pair < 8) × (row < 64) × (column < 144) }
    ensures { result ≡ cell_of (kind_of_number mode channel) pair row column }
{
    let columns = queries::columns(queries::kind_of_number(mode, channel));
    (pair * 64 + row) * columns + column
}

// A coded bit of P3 or P4 of L1 frame `from` in its cell of PX1 or PX2 of L1 frame `sent`.
fn in_px(
    mode: u8,
    channel: u8,
    from: u64,
    sent: u64,
    frame: usize,
    bit: usize,
    pair: usize,
    row: usize,
    column: usize,
) -> Entry
    requires { (pair < 8) × (row < 64) × (column < 144) }
    ensures { result ≡ in_px mode channel from sent frame bit pair row column }
{
    let coded = CodedBit {
        channel,
        from,
        frame,
        bit,
    };
    let cell = Cell {
        sent,
        pair,
        row,
        column,
        number: px_cell(mode, channel, pair, row, column),
    };
    Entry::Stands { coded, cell }
}

// A cell of PM of L1 frame t.
fn pm_entry(table: &[u16; 1152], t: u64, row: usize, column: usize) -> Option<Entry>
    requires { table.now ≡ ks }
    ensures { result ≡ pm_entry t row column (found row column) }
{
    match queries::find_by(table, row, column) {
        Ok(Found::P1 { bit }) => Some(in_pm(t, 1, 0, bit, row, column)),
        Ok(Found::Pids { frame, bit }) => Some(in_pm(t, 2, frame, bit, row, column)),
        Err(_) => None,
    }
}

// A coded bit of P1 or PIDS of L1 frame t.
fn pm_placed(t: u64, channel: u8, frame: usize, bit: usize) -> Option<Entry>
    ensures { result ≡ pm_placed t channel frame bit (located channel frame bit) }
{
    match locating::locate(channel, frame, bit) {
        Ok(cell) => Some(in_pm(t, channel, frame, bit, cell.row, cell.column)),
        Err(_) => None,
    }
}

// A cell of PX1 or PX2 of the L1 frame `sent`.
fn px_entry(
    mode: u8,
    sent: u64,
    channel: u8,
    pair: usize,
    row: usize,
    column: usize,
) -> Option<Entry>
    ensures { result ≡ px_entry mode channel sent pair row column (found_px (state_at mode 0 sent) channel pair row column) }
{
    let state = state_before(mode, sent);
    match queries::find_px(state, channel, pair, row, column) {
        Ok(
            FoundPx::Coded {
                earlier,
                frame,
                bit,
            },
        ) => {
            let from = sent - earlier as u64;
            let entry = in_px(mode, channel, from, sent, frame, bit, pair, row, column);
            Some(entry)
        }
        Ok(FoundPx::Fill) => Some(Entry::Fill { sent }),
        Err(_) => None,
    }
}

// A coded bit of P3 or P4 of the L1 frame `from`.
fn px_placed(mode: u8, from: u64, channel: u8, frame: usize, bit: usize) -> Option<Entry>
    requires { from < 4294967296 }
    ensures { result ≡ px_placed mode channel from frame bit (located_px (state_at mode 0 from) channel frame bit) }
{
    let state = state_before(mode, from);
    match locating::locate_px(state, channel, frame, bit) {
        Ok(cell) => {
            let sent = from + cell.later as u64;
            let entry = in_px(
                mode,
                channel,
                from,
                sent,
                frame,
                bit,
                cell.pair,
                cell.row,
                cell.column,
            );
            Some(entry)
        }
        Err(_) => None,
    }
}

// A coded bit of the L1 frame `from`.
fn bit_entry(mode: u8, from: u64, channel: u8, frame: usize, bit: usize) -> Option<Entry>
    requires { from < 4294967296 }
    ensures { result ≡ bit_entry mode channel from frame bit }
{
    if channel < 3 {
        return pm_placed(from, channel, frame, bit);
    }
    px_placed(mode, from, channel, frame, bit)
}

// What the sheet of a run of `count` L1 frames says of what a line asks for. The table of S-1 is lent, since a list asks for many cells.
#[tactic(auto, unfolding(crate::specs::Entries::entry_of))]
pub fn entry_for(
    table: &[u16; 1152],
    mode: u8,
    count: u64,
    question: Option<Question>,
) -> Option<Entry>
    requires { (table.now ≡ ks) × (count ≤ 4294967296) }
    ensures { result ≡ entry_of mode count question }
{
    match question? {
        Question::Pm { frame, row, column } => {
            if frame < count {
                return pm_entry(table, frame, row, column);
            }
            None
        }
        Question::Px {
            frame,
            channel,
            pair,
            row,
            column,
        } => {
            if frame < count {
                return px_entry(mode, frame, channel, pair, row, column);
            }
            None
        }
        Question::Bit {
            frame,
            channel,
            tframe,
            bit,
        } => {
            if frame < count {
                return bit_entry(mode, frame, channel, tframe, bit);
            }
            None
        }
    }
}

// Among the answers of which L1 frame an entry stands, in a run of `count`; `count` where the cell is sent after the last one.
pub fn turn_of(count: u64, entry: Option<Entry>) -> u64
    ensures { result ≡ turn_of count entry }
{
    let Some(entry) = entry else {
        return count;
    };
    match entry {
        Entry::Stands { coded: _, cell } => {
            let sent = cell.sent;
            if sent < count {
                return sent;
            }
            count
        }
        Entry::Fill { sent } => sent,
    }
}
