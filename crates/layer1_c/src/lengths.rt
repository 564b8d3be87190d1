// Document 01, the lent lengths, one at a time.
ghost use Rattle.std.specs.Prelude.{◌≡◌, get_or};
ghost use Rattle.runs.specs.declared.Extended.TheVariants.{P3, P4};
ghost use Rattle.runs.specs.Lengths.{kind_of, reader_len, sender_len};
ghost use Rattle.modes.specs.Sizes.{wanted};

// The length of the buffer at a place of a sending in this mode, 0 past the last.
#[unsafe(no_mangle)]
pub extern "C" fn layer1_sender_length(mode: u8, place: usize) -> usize
    ensures { result ≡ get_or (wanted mode (sender_len (kind_of mode P3)) (sender_len (kind_of mode P4))) place 0 }
{
    exported::layer1_sender_length(mode, place)
}

// The length of the buffer at a place of a reading in this mode, 0 past the last.
#[unsafe(no_mangle)]
pub extern "C" fn layer1_reader_length(mode: u8, place: usize) -> usize
    ensures { result ≡ get_or (wanted mode (reader_len (kind_of mode P3)) (reader_len (kind_of mode P4))) place 0 }
{
    exported::layer1_reader_length(mode, place)
}
