// What a sheet says of a list.
ghost use Rattle.std.specs.Prelude.{◌≡◌, cond, ◌+◌, ◌*◌, ◌^◌, ◌≤◌, ◌<◌, length};
ghost use Rattle.interleaving.specs.TableI.{ks};
ghost use Rattle.calls.specs.Called.{matrices};
ghost use Rattle.text.specs.Lines.{lines};
ghost use Rattle.text.specs.Put.{Put};
ghost use Rattle.sheetlines.specs.Entries.{entry_of};
ghost use Rattle.sheetlines.specs.Questions.{question_of};
ghost use Rattle.sheettext.specs.Texts.{is_refused, value_in};
ghost use Rattle.sheetworks.specs.Works.{work_text};
ghost use Rattle.sheetlists.specs.Lists.{answer, answered, answers, asking, asks, refusal, refusals, stands_in, valued};

use sheetlines::Entry;
use sheettext::{is_refused, put_names, put_value, value_of};
use sheetworks::put_working;

// Whether an entry stands among the answers of L1 frame t.
fn stands_in(count: u64, t: u64, entry: Option<Entry>) -> bool
    ensures { result ≡ stands_in count t entry }
{
    if is_refused(entry) {
        return false;
    }
    sheetlines::turn_of(count, entry) == t
}

// Puts what is said of a line among the answers of L1 frame t.
fn put_answer(
    table: &[u16; 1152],
    out: &mut [u8],
    at: usize,
    mode: u8,
    count: u64,
    t: u64,
    line: &[u8],
    pm: &[u8],
    px1: &[u8],
    px2: &[u8],
    work: bool,
    n3: usize,
    n4: usize,
    bytes: &[u8],
) -> usize
    requires { (table.now ≡ ks) × (count ≤ 4294967296) × (n3 ≤ 4608) × (n4 ≤ 4608) × (length bytes.now < 2 ^ 32) × (at + 782 ≤ length out.old) }
    ensures { Put out.old out.new at result (782 * asks mode count t (question_of line.now))
        (answer (valued (work_text work mode n3 n4 bytes.now) count (value_in (matrices pm.now px1.now px2.now))) mode count t (question_of line.now)) }
{
    let question = sheetlines::asked(line);
    let entry = sheetlines::entry_for(table, mode, count, question);
    if !stands_in(count, t, entry) {
        return at;
    }
    let value = value_of(entry, pm, px1, px2);
    let m = put_names(out, at, question, entry);
    let n = put_value(out, m, count, entry, value);
    put_working(out, n, work, mode, n3, n4, bytes, entry)
}

// Puts the answers of L1 frame t, whose matrices these are; of the last one's number and one more, those that say LATER. The workings are from the bytes of all L1 frames.
pub fn put_answers(
    out: &mut [u8],
    at: usize,
    mode: u8,
    count: u64,
    t: u64,
    list: &[u8],
    pm: &[u8],
    px1: &[u8],
    px2: &[u8],
    work: bool,
    n3: usize,
    n4: usize,
    bytes: &[u8],
) -> usize
    requires { (count ≤ 4294967296) × (at + 782 * asking mode count t (lines list.now) + 782 ≤ length out.old) × (length list.now < 2 ^ 32) × (n3 ≤ 4608) × (n4 ≤ 4608) × (length bytes.now < 2 ^ 32) }
    ensures { Put out.old out.new at result (782 * asking mode count t (lines list.now))
        (answers (valued (work_text work mode n3 n4 bytes.now) count (value_in (matrices pm.now px1.now px2.now))) mode count t (lines list.now)) }
{
    let table = pm::index_table();
    let mut end = at;
    for line in text::lines(list) {
        end = put_answer(
            &table, out, end, mode, count, t, line, pm, px1, px2, work, n3, n4, bytes,
        );
    }
    end
}

// Whether a line is refused.
fn line_refused(table: &[u16; 1152], mode: u8, count: u64, line: &[u8]) -> bool
    requires { (table.now ≡ ks) × (count ≤ 4294967296) }
    ensures { result ≡ is_refused (entry_of mode count (question_of line.now)) }
{
    let question = sheetlines::asked(line);
    is_refused(sheetlines::entry_for(table, mode, count, question))
}

// Puts what is said of a line among the refused ones.
fn put_refusal(
    table: &[u16; 1152],
    out: &mut [u8],
    at: usize,
    mode: u8,
    count: u64,
    number: u64,
    line: &[u8],
) -> usize
    requires { (table.now ≡ ks) × (count ≤ 4294967296) × (at + 92 ≤ length out.old) }
    ensures { Put out.old out.new at result 92 (refusal mode count number line.now) }
{
    if line_refused(table, mode, count, line) {
        return text::refuse(out, at, number);
    }
    at
}

// Puts the refused lines of a list.
pub fn put_refusals(out: &mut [u8], at: usize, mode: u8, count: u64, list: &[u8]) -> usize
    requires { (count ≤ 4294967296) × (at + 92 * length list.now + 92 ≤ length out.old) × (length list.now < 2 ^ 32) }
    ensures { Put out.old out.new at result (92 * length list.now + 92) (refusals mode count 1 (lines list.now)) }
{
    let table = pm::index_table();
    let mut end = at;
    let mut number: u64 = 1;
    for line in text::lines(list) {
        end = put_refusal(&table, out, end, mode, count, number, line);
        number += 1;
    }
    end
}

// How many lines of a list are answered.
pub fn count_answers(mode: u8, count: u64, list: &[u8]) -> u64
    requires { (count ≤ 4294967296) × (length list.now < 2 ^ 32) }
    ensures { result ≡ answered mode count (lines list.now) }
{
    let table = pm::index_table();
    let mut n: u64 = 0;
    for line in text::lines(list) {
        n = one_more(n, line_refused(&table, mode, count, line));
    }
    n
}

// A count with one more, or, where the line is refused, with no more.
fn one_more(n: u64, refused: bool) -> u64
    requires { n < 2 ^ 32 }
    ensures { result ≡ n + cond refused 0 1 }
{
    if refused { n } else { n + 1 }
}
