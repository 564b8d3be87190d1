// Document 01, "Operations of a run": a run's state, the extended channels, and what a call answers. The crate holds the definitions of runs and the theorem about whole runs; the calls themselves stand in `calls`, `sending` and `reading`.
#![tactic(auto)]

// Document 01: the service mode; the half, which L1 frame of the internal matrix comes next; and the age, the L1 frames sent or read since the start, 2 for two or more, in MP5 and MP6 3 for three or more. Document 02, S-2: the last reserved number sent or read, 0 at a start.
// A state is handed in as it is, so one that is not valid can be refused.
#[derive(Clone, Copy)]
pub struct State {
    pub mode: u8,
    pub half: u8,
    pub age: u8,
    pub reserved: u8,
}

// The extended logical channels, and how a mode sends one: not at all, over two partitions of the internal matrix (MP2), or over four.
#[derive(Clone, Copy)]
pub enum Extended {
    P3,
    P4,
}

#[derive(Clone, Copy)]
pub enum Kind {
    Unused,
    Narrow,
    Wide,
}

// How a mode fills PM: with one P1 frame (MP1, MP2, MP3 and MP11), or with eight, which PX2 brings again after the diversity delay, and one of P2 (MP5, MP6).
#[derive(Clone, Copy)]
pub enum Main {
    Plain,
    Mp5,
    Mp6,
}

// Documents 01 and 02, the table of causes: success, and each cause with its place where that can differ.
#[derive(Clone, Copy)]
pub enum Answer {
    Success,
    ModeNotCovered,
    StateNotValid,
    WrongLength(usize),
    WrongControl(usize),
    MainNotCoded(usize),
    PidsNotCoded(usize),
    FillNotZero(usize),
    ExtendedNotCoded(usize),
    // document 02, S-2
    ReservedTooHigh,
    // document 02, S-4
    SharesTooMany,
    // document 02, S-7; the place is 0 for the scale of the lower sideband, 1 for that of the upper
    SymbolTooHigh,
    ScaleNotUsable(usize),
    // document 02, S-8; the place is the block
    MixedControl(usize),
    // document 02, S-11
    NoFrameFits,
    SeveralFit,
    // document 02, S-12
    WrongBudget,
    // document 02, S-13
    WrongMark,
    WrongVersion,
    WrongEnd,
}
