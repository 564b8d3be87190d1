// Document 02, S-13: judging a dump.
use words::verdict_word;
ghost use mathlib.Core.Path.{_≡_};
ghost use Rattle·dumps.specs.Judged.{judged};
ghost use Rattle·words.specs.Words.{verdictWord};

// Judges a dump. Nothing else is lent: the reader's memory and frames are on the stack.
#[no_mangle]
pub extern "C" fn layer1_judge(dump: &[u8]) -> u64
    ensures { λ r. ⌜ r ≡ verdictWord (judged (now (dump .entry))) ⌝ }
{
    let verdict = layer1::judge(dump);
    verdict_word(verdict)
}
