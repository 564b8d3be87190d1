// Document 02, S-13: the first eight bytes of a dump.
ghost use Rattle.std.specs.Prelude.{◌≡◌, ◌+◌, ◌<◌, length, get_or};
ghost use Rattle.layout.specs.Layout.{header, word};
ghost use Rattle.layout.specs.Heads.{head_answer};

use runs::Answer;

// The letters that a dump begins with: the one string that is compared and written.
const MARK: [u8; 3] = *b"HDM";

// The 16 bits at `at`, most significant byte first.
pub fn word_at(dump: &[u8], at: usize) -> usize
    requires { at + 1 < length dump.now }
    ensures { result ≡ word (get_or dump.now at 0) (get_or dump.now (at + 1) 0) }
{
    let high = usize::from(dump[at]);
    let low = usize::from(dump[at + 1]);
    256 * high + low
}

// What the first eight bytes are refused as, if they are.
pub fn head_answer(dump: &[u8]) -> Answer
    ensures { result ≡ head_answer dump.now }
{
    if dump.len() < 8 {
        return Answer::WrongMark;
    }
    if !bits::same(&dump[..3], &MARK) {
        return Answer::WrongMark;
    }
    if word_at(dump, 3) != 1 {
        return Answer::WrongVersion;
    }
    if !control::is_covered(dump[5]) {
        return Answer::ModeNotCovered;
    }
    Answer::Success
}

// The first eight bytes of a dump of so many L1 frames.
pub fn header_of(mode: u8, count: usize) -> [u8; 8]
    requires { count < 65536 }
    ensures { result ≡ header mode count }
{
    let high = count / 256;
    let low = count % 256;
    [MARK[0], MARK[1], MARK[2], 0, 1, mode, high as u8, low as u8]
}
