// Document 01: one row of a matrix, as where it starts in the matrix and how many bytes it has.
ghost use Rattle.std.specs.Prelude.{◌≡◌};
ghost use Rattle.rows.specs.Rows.{pm_row, px_row};
ghost use Rattle.words.specs.Words.{chosen, part_at, row_word};

// A row of PM.
#[unsafe(no_mangle)]
pub extern "C" fn layer1_pm_row(row: usize, pm: &[u8]) -> u64
    ensures { (result ≡ row_word 90 row (pm_row row pm.now)) × (part_at result pm.now ≡ pm_row row pm.now) }
{
    exported::layer1_pm_row(row, pm)
}

// A row of the eight PX1 matrices (channel 3) or the eight PX2 matrices (channel 4) of MP11.
#[unsafe(no_mangle)]
pub extern "C" fn layer1_px_row<'a>(channel: u8, row: usize, px1: &'a [u8], px2: &'a [u8]) -> u64
    ensures { (result ≡ row_word 18 row (px_row channel row px1.now px2.now))
        × (part_at result (chosen channel px1.now px2.now) ≡ px_row channel row px1.now px2.now) }
{
    exported::layer1_px_row(channel, row, px1, px2)
}
