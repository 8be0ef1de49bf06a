// The one walk over a table: a sum and its five first and second derivatives, row by row in table order
// (specs/Six.antt).
//
// It is written for the compiler, which for a table that it knows unrolls the groups and then the rows of
// each group, places every row in line with its I, J and n, shares the powers between the rows and leaves
// out the sums that the caller does not take. For that, `plus_six` is called from two places, so that it
// goes in line only where the row is known; the end of a group is known only with the table; and whoever
// lends a table does so in a function that is called once (bench/count --limits shows a loss of it).
ghost use Rattle.std.specs.Prelude.{min, ◌<◌, ◌≤◌, ◌≡◌, length, drop};
ghost use Rattle.terms.specs.Sum.{rows_of, sum_of};
ghost use Rattle.terms.specs.Six.{six_of, six_from};

use crate::row::plus_six;
use crate::{Six, Table};

// Where the group of rows ends that begins at k: eight rows on, or with the table.
fn group_end(k: usize, m: usize) -> usize
    requires { k < m }
    ensures { (k < result) × (result ≤ m) }
{
    if m - k <= 8 { m } else { k + 8 }
}

impl Table<'_> {
    // The number of rows: as many as the shortest slice has.
    fn count(self) -> usize
        ensures { result ≡ length (rows_of self.entry) }
    {
        self.n.len().min(self.i.len()).min(self.j.len())
    }

    // Six sums with the terms of the rows from k on added, as far as e.
    fn group(self, s: Six, k: usize, e: usize, a: f64, b: f64) -> Six
        requires { (k ≤ e) × (e ≤ length (rows_of self)) }
        ensures { six_from a b result (drop e (rows_of self.entry)) ≡ six_from a b s (drop k (rows_of self.entry)) }
    {
        let mut r = s;
        for l in k..e {
            r = plus_six(r, self.i[l], self.j[l], self.n[l], a, b);
        }
        r
    }

    // The sum over the table and its derivatives.
    pub fn six(self, a: f64, b: f64) -> Six
        ensures { result ≡ six_of (rows_of self.entry) a b }
    {
        let m = self.count();
        let mut s = Six::default();
        if m == 0 {
            return s;
        }
        s = plus_six(s, self.i[0], self.j[0], self.n[0], a, b);
        let mut k = 1usize;
        // A while: the step is a group of rows, not a count.
        while k < m {
            let e = group_end(k, m);
            s = self.group(s, k, e, a, b);
            k = e;
        }
        s
    }

    // The sum alone.
    #[tactic(auto, unfolding(crate::specs::Six::six_of))]
    pub fn sum(self, a: f64, b: f64) -> f64
        ensures { result ≡ sum_of (rows_of self.entry) 0 0 a b }
    {
        self.six(a, b).f
    }

    // Its derivative by A alone.
    #[tactic(auto, unfolding(crate::specs::Six::six_of))]
    pub fn slope_by_a(self, a: f64, b: f64) -> f64
        ensures { result ≡ sum_of (rows_of self.entry) 1 0 a b }
    {
        self.six(a, b).fa
    }

    // Its derivative by B alone.
    #[tactic(auto, unfolding(crate::specs::Six::six_of))]
    pub fn slope_by_b(self, a: f64, b: f64) -> f64
        ensures { result ≡ sum_of (rows_of self.entry) 0 1 a b }
    {
        self.six(a, b).fb
    }
}
