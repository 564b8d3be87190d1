// Document 01: one row of a matrix, as the part of the lent matrix that it is.
#![tactic(auto)]

ghost use Rattle.std.specs.Prelude.{◌≡◌};
ghost use Rattle.rows.specs.Rows.{pm_row, px_row};

// A row of PM: 90 bytes, or none where the row is out of range or the length is wrong.
pub fn pm_row(row: usize, pm: &[u8]) -> &[u8]
    ensures { result.now ≡ pm_row row pm.now }
{
    if pm.len() != 46080 {
        return &pm[0..0];
    }
    if row >= 512 {
        return &pm[0..0];
    }
    let start = row * 90;
    let end = start + 90;
    &pm[start..end]
}

// A row of the eight PX1 matrices (channel 3) or the eight PX2 matrices (channel 4) of MP11: 18 bytes, or none.
pub fn px_row<'a>(channel: u8, row: usize, px1: &'a [u8], px2: &'a [u8]) -> &'a [u8]
    ensures { result.now ≡ px_row channel row px1.now px2.now }
{
    if px1.len() != 9216 {
        return &px1[0..0];
    }
    if px2.len() != 9216 {
        return &px1[0..0];
    }
    if row >= 512 {
        return &px1[0..0];
    }
    let start = row * 18;
    let end = start + 18;
    if channel == 3 {
        return &px1[start..end];
    }
    if channel == 4 {
        return &px2[start..end];
    }
    &px1[0..0]
}
