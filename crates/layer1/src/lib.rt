// The entry points: the operations of documents 01 and 02. Every function is total, and its contract is one equation, or a relation that holds of one outcome.
#![tactic(auto)]

pub use allocation::share_places;
pub use calls::{Outcome, ReadOutcome, start_reader, start_sender};
pub use causes::{number, place};
pub use decoding::{Decoded, nearest};
pub use dumps::{Verdict, judge};
pub use finding::{Owner, find_in, locate_in};
pub use finding_px::{FoundPxIn, find_px_in, locate_px_in};
pub use locating::{Located, LocatedPx, Writing, locate, locate_px};
pub use mapping::fill_vector;
pub use modes::{reader_lengths, sender_lengths};
pub use queries::{
    BlockNumbers, Found, FoundPx, FrameNumbers, Position, find, find_px, lookup, lookup_frame,
    place_of,
};
pub use reading::read;
pub use restoring::restore;
pub use rows::{pm_row, px_row};
pub use runs::{Answer, State};
pub use sending::send;
pub use sheets::{Written, sheet};
pub use workings::{Worked, working};
pub use workings_in::working_in;
