// A bracket, its middle and its halving: of something that rises from end to end, the value at the
// middle tells the half that holds the value asked (specs/Brackets.antt).
#![tactic(auto)]

ghost use Rattle.std.specs.Prelude.{◌≡◌};
ghost use Rattle.brackets.specs.Brackets.{middle_of, half_of};

// The lower and the upper end of where something is sought.
#[derive(Clone, Copy)]
pub struct Bracket {
    pub lo: f64,
    pub hi: f64,
}

impl Bracket {
    // Its middle.
    #[tactic(auto, using(arith::proofs::Literals::two_is))]
    pub fn middle(self) -> f64
        ensures { result ≡ middle_of self.lo self.hi }
    {
        (self.lo + self.hi) / 2.0
    }

    // One halving: the middle becomes the lower end where the value there is below the one asked, and the
    // upper end otherwise.
    #[tactic(auto, unfolding(crate::specs::Brackets::half_of))]
    pub fn half(self, below: bool) -> Bracket
        ensures { result ≡ half_of self.lo self.hi below }
    {
        let mid = self.middle();
        if below {
            Bracket { lo: mid, ..self }
        } else {
            Bracket { hi: mid, ..self }
        }
    }
}
