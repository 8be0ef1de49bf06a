// The boundaries B23, between regions 2 and 3, and 2bc, between subregions 2b and 2c: 002, Eqs. (10), (11)
// and (41), Tables A1 and A20 (specs/Boundaries.antt). Every call takes every number. p in MPa, T in K, h in
// kJ/kg.
#![tactic(auto)]

ghost use Rattle.std.specs.Prelude.{◌≡◌};
ghost use Rattle.boundaries.specs.Boundaries.{quadratic, p_b23, t_b23, p2bc};

// Table A1, n3, which both B23 equations use.
const N3: f64 = 0.10192970039326e-2;

// n1 + n2·x + n3·x².
fn quadratic(n1: f64, n2: f64, n3: f64, x: f64) -> f64
    ensures { result ≡ quadratic n1 n2 n3 x }
{
    n1 + n2 * x + n3 * (x * x)
}

// The pressure in MPa between regions 2 and 3 at T in K, as printed at any T.
pub fn p_b23(t: f64) -> f64
    ensures { result ≡ p_b23 t }
{
    quadratic(0.34805185628969e3, -0.11671859879975e1, N3, t)
}

// The temperature in K between regions 2 and 3 at p in MPa, as printed at any p.
pub fn t_b23(p: f64) -> f64
    ensures { result ≡ t_b23 p }
{
    0.57254459862746e3 + elementary::root((p - 0.13918839778870e2) / N3)
}

// The pressure in MPa between subregions 2b and 2c at h in kJ/kg, as printed at any h.
pub fn p_2bc(h: f64) -> f64
    ensures { result ≡ p2bc h }
{
    quadratic(
        0.90584278514723e3,
        -0.67955786399241,
        0.12809002730136e-3,
        h,
    )
}
