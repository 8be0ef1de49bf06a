// Sums over the tables of the papers: terms (n · A^I) · B^J added in table order, with the derivatives
// asked for (specs/Sum.antt). A table is lent as three slices, its exponents as printed, and walked in
// order.
#![tactic(auto)]

mod row;
mod walk;

// A table of a paper, lent: the exponents I and J as printed, and the coefficients n. Its rows go as far
// as the shortest slice.
#[derive(Clone, Copy)]
pub struct Table<'a> {
    pub i: &'a [i8],
    pub j: &'a [i8],
    pub n: &'a [f64],
}

// A sum and its derivatives by A and B.
#[derive(Clone, Copy, Default)]
pub struct Six {
    pub f: f64,
    pub fa: f64,
    pub faa: f64,
    pub fb: f64,
    pub fbb: f64,
    pub fab: f64,
}
