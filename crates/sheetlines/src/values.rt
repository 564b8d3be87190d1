// The bit that stands in a cell.
ghost use Rattle.std.specs.Prelude.{◌≡◌};
ghost use Rattle.bits.specs.Bits.{bit_at};

// Bit `cell` of a packed matrix: 0 past its end.
pub fn bit_at(matrix: &[u8], cell: usize) -> u8
    ensures { result ≡ bit_at matrix.now cell }
{
    if cell / 8 < matrix.len() {
        return bits::get(matrix, cell);
    }
    0
}
