// Documents 01 and 02: what a mode has, channels, lent lengths and the last age, and which lent length is wrong.
#![tactic(auto)]

ghost use Rattle.std.specs.Prelude.{◌≡◌, List, ℕ, ◌≤◌, length};
ghost use Rattle.runs.specs.Causes.{wrong};
ghost use Rattle.runs.specs.MainChannels.{delay_len, last_age, main_of, p1_len, p2_len, p1'_len};
ghost use Rattle.runs.specs.Lengths.{frame_len, kind_of, matrix_len, reader_len, sender_len, table_row};
ghost use Rattle.runs.specs.Lent.{or_zeros};
ghost use Rattle.runs.specs.declared.Extended.TheVariants.{P3, P4};
ghost use Rattle.modes.specs.Sizes.{placed, sizes, wanted};

use runs::{Extended, Kind, Main};

// How a mode fills PM.
pub fn main_of(mode: u8) -> Main
    ensures { result ≡ main_of mode }
{
    if mode == 5 {
        return Main::Mp5;
    }
    if mode == 6 {
        return Main::Mp6;
    }
    Main::Plain
}

// The last age: there it stands still.
pub fn last_age(main: Main) -> u8
    ensures { result ≡ last_age main }
{
    match main {
        Main::Plain => 2,
        Main::Mp5 => 3,
        Main::Mp6 => 3,
    }
}

// The bytes of P1, of P2, of P1' in PX2, and of a delay memory.
pub fn p1_len(main: Main) -> usize
    ensures { result ≡ p1_len main }
{
    match main {
        Main::Plain => 18272,
        Main::Mp5 => 4608,
        Main::Mp6 => 9216,
    }
}

fn p2_len(main: Main) -> usize
    ensures { result ≡ p2_len main }
{
    match main {
        Main::Plain => 0,
        Main::Mp5 => 13664,
        Main::Mp6 => 9056,
    }
}

fn second_len(main: Main) -> usize
    ensures { (result ≡ p1'_len main) × (result ≤ 18432) }
{
    match main {
        Main::Plain => 0,
        Main::Mp5 => 9216,
        Main::Mp6 => 18432,
    }
}

pub fn delay_len(main: Main) -> usize
    ensures { result ≡ delay_len main }
{
    match main {
        Main::Plain => 0,
        Main::Mp5 => 13824,
        Main::Mp6 => 27648,
    }
}

// How a mode sends an extended channel.
pub fn kind_of(mode: u8, channel: Extended) -> Kind
    ensures { result ≡ kind_of mode channel }
{
    match channel {
        Extended::P3 => {
            if mode == 1 {
                return Kind::Unused;
            }
            if mode == 6 {
                return Kind::Unused;
            }
            if mode == 2 {
                return Kind::Narrow;
            }
            Kind::Wide
        }
        Extended::P4 => {
            if mode == 11 {
                return Kind::Wide;
            }
            Kind::Unused
        }
    }
}

// Its row in Tables 10-15, 10-16 and 10-18.
pub fn table_row(kind: Kind) -> usize
    ensures { result ≡ table_row kind }
{
    match kind {
        Kind::Narrow => 0,
        Kind::Wide => 1,
        Kind::Unused => 2,
    }
}

// The bytes of its eight transfer frames.
pub fn frame_len(kind: Kind) -> usize
    ensures { result ≡ frame_len kind }
{
    match kind {
        Kind::Unused => 0,
        Kind::Narrow => 2304,
        Kind::Wide => 4608,
    }
}

// The bytes of its eight matrices.
pub fn matrix_len(kind: Kind) -> usize
    ensures { (result ≡ matrix_len kind) × (result ≤ 9216) }
{
    match kind {
        Kind::Unused => 0,
        Kind::Narrow => 4608,
        Kind::Wide => 9216,
    }
}

// The bytes of a sender's memory for it.
pub fn sender_len(kind: Kind) -> usize
    ensures { result ≡ sender_len kind }
{
    match kind {
        Kind::Unused => 0,
        Kind::Narrow => 9216,
        Kind::Wide => 18432,
    }
}

// The bytes of a reader's memory for it.
pub fn reader_len(kind: Kind) -> usize
    ensures { result ≡ reader_len kind }
{
    3 * matrix_len(kind)
}

// Every length of a sending or a reading, in the table's order, with those of the side's memory.
fn lengths(mode: u8, memory3: usize, memory4: usize) -> [usize; 12]
    ensures { result ≡ wanted mode memory3 memory4 }
{
    let k3 = kind_of(mode, Extended::P3);
    let k4 = kind_of(mode, Extended::P4);
    let k = main_of(mode);
    [
        p1_len(k),
        160,
        p2_len(k),
        frame_len(k3),
        frame_len(k4),
        46080,
        matrix_len(k3),
        matrix_len(k4) + second_len(k),
        4096,
        memory3,
        memory4,
        delay_len(k),
    ]
}

// Every length of a sending in this mode, in the order P1, PIDS, P2, P3, P4, PM, PX1, PX2, control, memory for P3, memory for P4, delay memory.
pub fn sender_lengths(mode: u8) -> [usize; 12]
    ensures { result ≡ wanted mode (sender_len (kind_of mode P3)) (sender_len (kind_of mode P4)) }
{
    let memory3 = sender_len(kind_of(mode, Extended::P3));
    let memory4 = sender_len(kind_of(mode, Extended::P4));
    lengths(mode, memory3, memory4)
}

// Every length of a reading in this mode, in the same order.
pub fn reader_lengths(mode: u8) -> [usize; 12]
    ensures { result ≡ wanted mode (reader_len (kind_of mode P3)) (reader_len (kind_of mode P4)) }
{
    let memory3 = reader_len(kind_of(mode, Extended::P3));
    let memory4 = reader_len(kind_of(mode, Extended::P4));
    lengths(mode, memory3, memory4)
}

// The length of what an input for P3 or P4 means, where this length is wanted (document 02, S-5): nothing means zeros in full.
pub fn meant_len(have: usize, want: usize) -> usize
    ensures { (b : List ℕ) → length b ≡ have → result ≡ length (or_zeros want b) }
{
    if have == 0 {
        return want;
    }
    have
}

// The first place at which a length is wrong, or their number.
pub fn first_wrong(have: &[usize], want: &[usize]) -> usize
    requires { length have.now ≡ length want.now }
    ensures { placed (length have.now) result ≡ wrong 0 (sizes have.now want.now) }
{
    for i in 0..have.len() {
        if have[i] != want[i] {
            return i;
        }
    }
    have.len()
}
