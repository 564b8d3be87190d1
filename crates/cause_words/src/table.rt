// The table of causes in words: written by .ci/header --write from causes.tsv.
ghost use Rattle.std.specs.Prelude.{◌≡◌, ◌+◌, ◌-◌, ◌≤◌, drop, length, take};
ghost use Rattle.text.specs.Put.{Put};
ghost use Rattle.cause_words.specs.Table.{count, size};
ghost use Rattle.cause_words.specs.Rows.{joined, rows, start_of};

use crate::cuts::put_cut;

// How many causes there are.
pub const CAUSES: usize = 20;

// Where each row begins in the text, and where the last ends.
const STARTS: [usize; 29] = [
    0, 14, 22, 120, 154, 256, 337, 469, 503, 591, 654, 685, 719, 743, 783, 898, 937, 987, 1015,
    1088, 1116, 1173, 1215, 1266, 1296, 1352, 1403, 1463, 1522,
];

// Where a row begins, or the last ends.
pub fn start_of(row: usize) -> usize
    requires { row ≤ count }
    ensures { result ≡ start_of rows row }
{
    STARTS[row]
}

// Puts a part of the text.
pub fn put_part(out: &mut [u8], at: usize, start: usize, end: usize) -> usize
    requires { (start ≤ end) × (end ≤ size) × (at + (end - start) ≤ length out.old) }
    ensures { Put out.old out.new at result (end - start) (take (end - start) (drop start (joined rows))) }
{
    let text = b"\
no such cause\n\
success\n\
the service mode is not covered: it is not 1, 2, 3, 5, 6 or 11 or, of a vector, not 1, 2, 3 or 11\n\
the state of the run is not valid\n\
a length is wrong, or a row, column, block pair, channel, transfer frame or coded bit is out of range\n\
a control block is not the one of this mode, its count and the number of block 0\n\
a P1 frame or P2 in PM is no coded frame; or at age 3 a P1' frame in PX2 is none, or not the P1 frame of the L1 frame three earlier\n\
the PIDS cells are no coded frame\n\
a cell that can show only the zero fill, or at ages 0 to 2 only the delay's zeros, is 1\n\
a P3 or P4 frame of the L1 frame two earlier is no coded frame\n\
the reserved number is above 7\n\
the shares add up to more than 16\n\
the symbol is above 511\n\
a scale is not finite or not above zero\n\
no control block of a set is faulty by itself, and one does not fit block 0's mode and number and its own position\n\
no frame fits the cells that were read\n\
more than one frame fits the cells that were read\n\
the budget is 0 or above 64\n\
it is no dump: it does not begin with HDM, or has fewer than eight bytes\n\
the dump's version is not 1\n\
the dump ends in an L1 frame, or goes on behind the last\n\
there are no sheets for this service mode\n\
the service mode has no such channel to be without\n\
a sheet has 0 to 64 L1 frames\n\
the list of questions has more bytes than a sheet takes\n\
the list of questions has no empty line at its end\n\
fewer than the bytes of its L1 frames stand behind the list\n\
more than the bytes of its L1 frames stand behind the list\n\
";
    put_cut(out, at, text, start, end)
}
