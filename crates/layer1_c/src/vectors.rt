// Document 02, S-7: the output vector of a symbol. The lengths of the two parts are counted in numbers.
ghost use Rattle.std.specs.Prelude.{◌≡◌};
ghost use Rattle.calls.specs.Called.{signal};
ghost use Rattle.mapping.specs.Vector.{filled};
ghost use Rattle.exported.specs.Left.{vector_left, vector_left_by};

// Fills the vector of a symbol from the matrices and the control of its L1 frame. Of a NaN that a refusal leaves in the vector the contract says only
// that it is one, as that of `fill_vector`.
#[unsafe(no_mangle)]
pub extern "C" fn layer1_fill_vector(
    mode: u8,
    symbol: usize,
    lower: f32,
    upper: f32,
    pm: &[u8],
    px1: &[u8],
    px2: &[u8],
    control: &[u8],
    re: &mut [f32],
    im: &mut [f32],
) -> u64
    ensures { vector_left result re.new im.new
        ≡ vector_left_by (filled mode symbol lower upper (signal pm.now px1.now px2.now control.now) re.old im.old) }
{
    exported::layer1_fill_vector(mode, symbol, lower, upper, pm, px1, px2, control, re, im)
}
