// The words of a text, and its last one.
ghost use Rattle.std.specs.Prelude.{◌≡◌};
ghost use Rattle.argument_words.specs.Words.{ends_with, first, others, without};

// The first word.
pub fn first_word(text: &[u8]) -> &[u8]
    ensures { result.now ≡ first text.now }
{
    text::cut(text, 0).0
}

// The text of the words behind it.
pub fn other_words(text: &[u8]) -> &[u8]
    ensures { result.now ≡ others text.now }
{
    text::cut(text, 0).1
}

// Whether a text ends with another.
pub fn ends_with(last: &[u8], text: &[u8]) -> bool
    ensures { result ≡ ends_with last.now text.now }
{
    if text.len() < last.len() {
        return false;
    }
    let at = text.len() - last.len();
    bits::same(&text[at..], last)
}

// A text without another at its end.
pub fn before_last<'a>(last: &[u8], text: &'a [u8]) -> &'a [u8]
    ensures { result.now ≡ without last.now text.now }
{
    if !ends_with(last, text) {
        return text;
    }
    let end = text.len() - last.len();
    &text[..end]
}
