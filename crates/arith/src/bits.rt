// Any 64 bits as a number (specs/Bits.antt).
ghost use Rattle.std.specs.Prelude.{◌≡◌};
ghost use Rattle.arith.specs.Bits.{float_of, finite};

// The f64 that the bits stand for. Every pattern of a NaN gives the one NaN.
pub fn float_of(bits: u64) -> f64
    ensures { result ≡ float_of bits }
{
    if bits % 0x8000_0000_0000_0000 > 0x7ff0_0000_0000_0000 {
        f64::NAN
    } else {
        f64::from_bits(bits)
    }
}

// Whether x is neither an infinity nor NaN.
pub fn is_finite(x: f64) -> bool
    ensures { result ≡ finite x }
{
    x.is_finite()
}
