// What no region table takes (specs/Places.antt).
ghost use Rattle.std.specs.Prelude.{◌≡◌};
ghost use Rattle.places.specs.Places.{wild, outside};

// Whether one of two inputs is NaN or infinite.
pub fn wild(x: f64, y: f64) -> bool
    ensures { result ≡ wild x y }
{
    !arith::is_finite(x) || !arith::is_finite(y)
}

// Whether x is below least or above most.
pub(crate) fn outside(least: f64, most: f64, x: f64) -> bool
    ensures { result ≡ outside least most x }
{
    x < least || most < x
}
