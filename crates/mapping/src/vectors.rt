// Section 12: the output vector of a symbol.
ghost use Rattle.std.specs.Prelude.{◌≡◌, true, ◌+◌, ◌*◌, ◌<◌, length, set};
ghost use Rattle.bits.specs.Bits.{bit_at};
ghost use Rattle.calls.specs.Called.{signal, signal_behind};
ghost use Rattle.modes.specs.Sizes.{sizes};
ghost use Rattle.runs.specs.Causes.{wrong};
ghost use Rattle.runs.specs.Lengths.{kind_of};
ghost use Rattle.runs.specs.declared.Extended.TheVariants.{P3, P4};
ghost use Rattle.points.specs.Points.{point_of};
ghost use Rattle.mapping.specs.Readable.{Fillable, Readable, wanted, within};
ghost use Rattle.subcarriers.specs.Slots.{mode_at};
ghost use Rattle.mapping.specs.Vector.{admitted, filled, imaginary_parts, point_at, point_for, real_parts, scale_at, vector, width};

use calls::Signal;
use causes::is_success;
use modes::{first_wrong, kind_of, matrix_len};
use points::{Point, constellation, is_usable};
use runs::{Answer, Extended, Kind};
use subcarriers::{Source, is_mapped, mode_number, source_of};

// The cells of a row of PX1 and of PX2.
#[derive(Clone, Copy)]
struct Widths {
    px1: usize,
    px2: usize,
}

// The scales of the two sidebands.
#[derive(Clone, Copy)]
struct Scales {
    lower: f32,
    upper: f32,
}

// The point of two adjacent cells.
fn pair(cells: &[u8], n: usize, scale: f32) -> Point
    requires { (n + 1 < 8 * length cells.now) × (n < 368640) }
    ensures { result ≡ point_of (bit_at cells.now n) (bit_at cells.now (n + 1)) scale }
{
    constellation(bits::get(cells, n), bits::get(cells, n + 1), scale)
}

// The point of one cell of the control.
fn single(cells: &[u8], n: usize, scale: f32) -> Point
    requires { n < 8 * length cells.now }
    ensures { result ≡ point_of (bit_at cells.now n) (bit_at cells.now n) scale }
{
    let bit = bits::get(cells, n);
    constellation(bit, bit, scale)
}

// The point of what an element carries.
fn carried(source: Source, scale: f32, symbol: usize, widths: Widths, signal: &Signal) -> Point
    requires { Readable symbol widths.px1 widths.px2 (signal_behind signal.now) × (within widths.px1 widths.px2 source ≡ true) }
    ensures { result ≡ point_for symbol widths.px1 widths.px2 (signal_behind signal.now) source scale }
{
    match source {
        Source::Unused => Point { re: 0.0, im: 0.0 },
        Source::Pm(c) => pair(signal.pm, symbol * 720 + c, scale),
        Source::Px1(c) => pair(signal.px1, symbol * widths.px1 + c, scale),
        Source::Px2(c) => pair(signal.px2, symbol * widths.px2 + c, scale),
        Source::Control(c) => single(signal.control, symbol * 64 + c, scale),
    }
}

// The scale of element k's sideband.
fn scale_at(scales: Scales, k: usize) -> f32
    ensures { result ≡ scale_at scales.lower scales.upper k }
{
    if k < 546 {
        return scales.lower;
    }
    scales.upper
}

// Element k of the vector, in the mode of that number.
fn element(
    n: usize,
    k: usize,
    symbol: usize,
    widths: Widths,
    scales: Scales,
    signal: &Signal,
) -> Point
    requires { (n < 4) × (k < 1093) × (widths.px1 ≡ width (kind_of (mode_at n) P3)) × (widths.px2 ≡ width (kind_of (mode_at n) P4))
        × Readable symbol widths.px1 widths.px2 (signal_behind signal.now) }
    ensures { result ≡ point_at (mode_at n) symbol scales.lower scales.upper (signal_behind signal.now) k }
{
    let s = source_of(n, k);
    let scale = scale_at(scales, k);
    carried(s, scale, symbol, widths, signal)
}

// The cells of a row.
fn width_of(kind: Kind) -> usize
    ensures { result ≡ width kind }
{
    match kind {
        Kind::Unused => 0,
        Kind::Narrow => 72,
        Kind::Wide => 144,
    }
}

// Stores a point as element k.
fn store(point: Point, k: usize, re: &mut [f32], im: &mut [f32])
    requires { (k < length re.old) × (k < length im.old) }
    ensures { (re.new ≡ set re.old k point.re) × (im.new ≡ set im.old k point.im) }
{
    re[k] = point.re;
    im[k] = point.im;
}

// Writes the vector.
fn fill_points(
    mode: u8,
    symbol: usize,
    scales: Scales,
    signal: &Signal,
    re: &mut [f32],
    im: &mut [f32],
)
    requires { Fillable mode symbol (signal_behind signal.now) re.old im.old }
    ensures { (re.new ≡ real_parts mode symbol scales.lower scales.upper (signal_behind signal.now))
        × (im.new ≡ imaginary_parts mode symbol scales.lower scales.upper (signal_behind signal.now)) }
{
    let n = mode_number(mode);
    let px1 = width_of(kind_of(mode, Extended::P3));
    let px2 = width_of(kind_of(mode, Extended::P4));
    let widths = Widths { px1, px2 };
    for k in 0..1093 {
        let p = element(n, k, symbol, widths, scales, signal);
        store(p, k, re, im);
    }
}

// The answer from the mode, the lengths lent beside those wanted, the symbol and the scales.
fn admit(mode: u8, symbol: usize, scales: Scales, have: &[usize], want: &[usize]) -> Answer
    requires { length have.now ≡ length want.now }
    ensures { result ≡ admitted mode symbol scales.lower scales.upper (wrong 0 (sizes have.now want.now)) }
{
    if !is_mapped(mode) {
        return Answer::ModeNotCovered;
    }
    let place = first_wrong(have, want);
    if place < have.len() {
        return Answer::WrongLength(place);
    }
    if symbol >= 512 {
        return Answer::SymbolTooHigh;
    }
    if !is_usable(scales.lower) {
        return Answer::ScaleNotUsable(0);
    }
    if !is_usable(scales.upper) {
        return Answer::ScaleNotUsable(1);
    }
    Answer::Success
}

// The lengths in the order PM, PX1, PX2, control, real parts, imaginary parts.
fn lengths(mode: u8) -> [usize; 6]
    ensures { result ≡ wanted mode }
{
    let len1 = matrix_len(kind_of(mode, Extended::P3));
    let len2 = matrix_len(kind_of(mode, Extended::P4));
    [46080, len1, len2, 4096, 1093, 1093]
}

// Fills the vector of a symbol from the matrices and the control of its L1 frame.
// What the contract cannot say: the logic has one NaN, so where the vector holds one before a refusal, that it is still of the same bits is not stated.
pub fn fill_vector(
    mode: u8,
    symbol: usize,
    lower: f32,
    upper: f32,
    pm: &[u8],
    px1: &[u8],
    px2: &[u8],
    control: &[u8],
    re: &mut [f32],
    im: &mut [f32],
) -> Answer
    ensures { vector result re.new im.new
        ≡ filled mode symbol lower upper (signal pm.now px1.now px2.now control.now) re.old im.old }
{
    let have = [
        pm.len(),
        px1.len(),
        px2.len(),
        control.len(),
        re.len(),
        im.len(),
    ];
    let want = lengths(mode);
    let scales = Scales { lower, upper };
    let answer = admit(mode, symbol, scales, &have, &want);
    if !is_success(answer) {
        return answer;
    }
    let signal = Signal {
        pm,
        px1,
        px2,
        control,
    };
    fill_points(mode, symbol, scales, &signal, re, im);
    answer
}
