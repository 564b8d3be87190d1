// 12.2 and Tables 12-1 and 12-2: the points of a symbol, constellation values, scaled; and which scales are taken.
#![tactic(auto)]

ghost use Rattle.std.specs.Prelude.{◌≡◌};
ghost use Rattle.points.specs.Points.{part, point_of, usable};

// An element of the output vector: a real and an imaginary part.
#[derive(Clone, Copy)]
pub struct Point {
    pub re: f32,
    pub im: f32,
}

// A unit of the bit's sign, times the scale.
fn signed(bit: u8, scale: f32) -> f32
    ensures { result ≡ part bit scale }
{
    if bit == 0 {
        return -scale;
    }
    scale
}

// The point of an I bit and a Q bit.
pub fn constellation(i: u8, q: u8, scale: f32) -> Point
    ensures { result ≡ point_of i q scale }
{
    Point {
        re: signed(i, scale),
        im: signed(q, scale),
    }
}

// Whether a scale is finite and above zero.
pub fn is_usable(scale: f32) -> bool
    ensures { result ≡ usable scale }
{
    if 0.0 < scale {
        return scale < f32::from_bits(0x7f80_0000);
    }
    false
}
