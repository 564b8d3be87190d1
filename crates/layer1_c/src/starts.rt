// Document 01: starting a sender and starting a reader.
ghost use Rattle.std.specs.Prelude.{◌≡◌};
ghost use Rattle.runs.specs.Lengths.{reader_len, sender_len};
ghost use Rattle.runs.specs.Starting.{start};
ghost use Rattle.calls.specs.Called.{memory};
ghost use Rattle.exported_runs.specs.Left.{start_left, start_left_by};

// Starts a sender.
#[unsafe(no_mangle)]
pub extern "C" fn layer1_start_sender(
    mode: u8,
    memory3: &mut [u8],
    memory4: &mut [u8],
    delay: &mut [u8],
) -> u64
    ensures { start_left result (memory memory3.new memory4.new delay.new)
        ≡ start_left_by (start sender_len mode (memory memory3.old memory4.old delay.old)) }
{
    exported_runs::layer1_start_sender(mode, memory3, memory4, delay)
}

// Starts a reader.
#[unsafe(no_mangle)]
pub extern "C" fn layer1_start_reader(
    mode: u8,
    memory3: &mut [u8],
    memory4: &mut [u8],
    delay: &mut [u8],
) -> u64
    ensures { start_left result (memory memory3.new memory4.new delay.new)
        ≡ start_left_by (start reader_len mode (memory memory3.old memory4.old delay.old)) }
{
    exported_runs::layer1_start_reader(mode, memory3, memory4, delay)
}
