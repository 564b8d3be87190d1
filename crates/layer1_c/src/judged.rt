// Document 02, S-13: judging a dump.
ghost use Rattle.std.specs.Prelude.{◌≡◌};
ghost use Rattle.dumps.specs.Judged.{judged};
ghost use Rattle.words.specs.Words.{verdict_word};

// Judges a dump. Nothing else is lent: the reader's memory and frames are on the stack.
#[unsafe(no_mangle)]
pub extern "C" fn layer1_judge(dump: &[u8]) -> u64
    ensures { result ≡ verdict_word (judged dump.now) }
{
    exported::layer1_judge(dump)
}
