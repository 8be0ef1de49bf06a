// What regions 2 and 5 share: 002, Tables 4 to 6, 11 and 12 (specs/Vapour.antt).
ghost use Rattle.std.specs.Prelude.{◌≡◌};
ghost use Rattle.vapour.specs.Vapour.{gibbs_of, vapour_of, vapour_unrooted, vapour_response};

use crate::Vapour;
use properties::{Gamma, Point, Response, Unrooted, from_gamma};
use terms::Six;

// γ = γ° + γʳ, from the sum of each part.
pub fn gibbs(pi: f64, ideal: f64, residual: f64) -> f64
    ensures { result ≡ gibbs_of pi ideal residual }
{
    elementary::log(pi) + ideal + residual
}

// The ideal-gas part and the residual part added, from the sums of each.
pub fn added(pi: f64, ideal: Six, residual: Six) -> Vapour
    ensures { result ≡ vapour_of pi ideal residual }
{
    Vapour {
        g: gibbs(pi, ideal.f, residual.f),
        gp: 1.0 / pi + residual.fa,
        gt: ideal.fb + residual.fb,
        gtt: ideal.fbb + residual.fbb,
        rp: residual.fa,
        rpp: residual.faa,
        rpt: residual.fab,
    }
}

impl Gamma for Vapour {
    ghost unrooted_at = { vapour_unrooted };

    ghost response_at = { vapour_response };

    fn unrooted(self, x: Point) -> Unrooted {
        let d = 1.0 + x.pi * self.rp - x.tau * x.pi * self.rpt;
        let above = 1.0 + 2.0 * x.pi * self.rp + x.pi * x.pi * (self.rp * self.rp);
        let below = 1.0 - x.pi * x.pi * self.rpp + d * d / (x.tau * x.tau * self.gtt);
        from_gamma(x, self.g, self.gp, self.gt, self.gtt, above / below)
    }

    fn response(self, x: Point) -> Response {
        let e = 1.0 + x.pi * self.rp;
        Response {
            alpha: 1.0 / x.t * ((e - x.tau * x.pi * self.rpt) / e),
            kappa: 1.0 / (1000.0 * x.p) * ((1.0 - x.pi * x.pi * self.rpp) / e),
        }
    }
}
