// A basic equation in p and T, as regions 1, 2 and 5 have one: it gives γ, and of γ come the properties
// (specs/Properties.antt).
ghost use Rattle.std.specs.Prelude.{◌≡◌, Float};
ghost use Rattle.properties.specs.Properties.{reduced_by, rooted_of};
ghost use Rattle.properties.specs.declared.Point.{Point};
ghost use Rattle.properties.specs.declared.Unrooted.{Unrooted};
ghost use Rattle.properties.specs.declared.Response.{Response};

use crate::{Point, Response, State, Unrooted, reduced, rooted};

// γ and its derivatives by π and τ, as an equation gives them.
pub trait Gamma: Copy {
    ghost unrooted_at: { Point → Self → Unrooted };

    ghost response_at: { Point → Self → Response };

    // The six properties with w squared.
    fn unrooted(self, x: Point) -> Unrooted
        ensures { result ≡ unrooted_at x self };

    // α and κ.
    fn response(self, x: Point) -> Response
        ensures { result ≡ response_at x self };
}

// A basic equation: its constants and its γ are its own.
pub trait Basic {
    type Gamma: Gamma;

    // The gas constant R in kJ/(kg K).
    const R: f64;

    // The reducing pressure p* in MPa.
    const P: f64;

    // The reducing temperature T* in K.
    const T: f64;

    ghost R: { Float };

    ghost P: { Float };

    ghost T: { Float };

    // What the equation gives at p and T.
    ghost point: { Float → Float → Point };

    ghost gamma: { Float → Float → Self.Gamma };

    ghost unrooted_of: { Float → Float → Self.Gamma → Unrooted };

    ghost response_of: { Float → Float → Self.Gamma → Response };

    // γ and its derivatives.
    fn gamma(p: f64, t: f64) -> Self::Gamma
        ensures { result ≡ gamma p t };

    // The enthalpy in kJ/kg, from the sums that it needs.
    fn h(p: f64, t: f64) -> f64
        ensures { result ≡ (unrooted_of p t (gamma p t)).h };

    // The entropy in kJ/(kg K), from the sums that it needs.
    fn s(p: f64, t: f64) -> f64
        ensures { result ≡ (unrooted_of p t (gamma p t)).s };

    // π and τ, beside what they are made of.
    fn point(p: f64, t: f64) -> Point
        ensures { result ≡ point p t }
    {
        reduced(Self::R, Self::P, Self::T, p, t)
    }

    // The six properties with w squared, from what gamma gave for p and t.
    fn unrooted_of(p: f64, t: f64, g: Self::Gamma) -> Unrooted
        ensures { result ≡ unrooted_of p t g }
    {
        g.unrooted(Self::point(p, t))
    }

    // The six properties with w squared.
    fn unrooted(p: f64, t: f64) -> Unrooted
        ensures { result ≡ unrooted_of p t (gamma p t) }
    {
        Self::unrooted_of(p, t, Self::gamma(p, t))
    }

    // The six properties from what gamma gave for p and t.
    fn state_of(p: f64, t: f64, g: Self::Gamma) -> State
        ensures { result ≡ rooted_of (unrooted_of p t g) }
    {
        rooted(Self::unrooted_of(p, t, g))
    }

    // The six properties.
    fn state(p: f64, t: f64) -> State
        ensures { result ≡ rooted_of (unrooted_of p t (gamma p t)) }
    {
        Self::state_of(p, t, Self::gamma(p, t))
    }

    // α and κ from what gamma gave for p and t.
    fn response_of(p: f64, t: f64, g: Self::Gamma) -> Response
        ensures { result ≡ response_of p t g }
    {
        g.response(Self::point(p, t))
    }

    // Its point is by its constants, and of a γ it makes what that makes at the point.
    ghost points: { (p t : Float) → point p t ≡ reduced_by R P T p t };

    ghost properties: { (p t : Float) (g : Self.Gamma) → unrooted_of p t g ≡ Self.Gamma.unrooted_at (point p t) g };

    ghost responses: { (p t : Float) (g : Self.Gamma) → response_of p t g ≡ Self.Gamma.response_at (point p t) g };
}
