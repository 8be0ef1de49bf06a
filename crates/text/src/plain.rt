// Numbers for people, in plain decimals (specs/Decimals.antt).
ghost use Rattle.std.specs.Prelude.{◌≡◌, [], ◌∷◌, ◌++◌, cond, ◌*◌, ◌%◌, ◌^◌, ◌<◌, ◌≤◌, leb};
ghost use Rattle.std.specs.Float.{binary64};
ghost use Rattle.std.specs.Float.Ieee.{of_bits};
ghost use Rattle.text.specs.Lines.{Writes};
ghost use Rattle.text.specs.Decimals.{modest, scaled_of, digits_from, pointed_of, fixed_of};

use super::Line;

// Whether x lies between -2^53 and 2^53. No infinity and no NaN does.
fn is_modest(x: f64) -> bool
    ensures { result ≡ modest x }
{
    -9007199254740992.0 < x && x < 9007199254740992.0
}

fn power_of_ten(k: usize) -> u64
    requires { k ≤ 3 }
    ensures { result ≡ 10 ^ k }
{
    10u64.pow(k as u32)
}

// The whole number nearest |x| · scale, of an x below 2^53 in size that is given by its bits. From
// 2^-11 on |x| is digits / unit; what is smaller is below a half at every scale up to 1000.
fn scaled(bits: u64, scale: u64) -> u64
    requires { (bits % 2 ^ 63 < 1076 * 2 ^ 52) × (scale ≤ 1000) }
    ensures { result ≡ scaled_of scale (of_bits binary64 bits) }
{
    let exponent = bits % 0x8000_0000_0000_0000 / 0x10_0000_0000_0000;
    if exponent < 1012 {
        return 0;
    }
    let digits = 0x10_0000_0000_0000 + bits % 0x10_0000_0000_0000;
    let unit = 1u64 << (1075 - exponent);
    (digits * scale + unit / 2) / unit
}

impl Line<'_> {
    // Writes the last k digits of n, and the byte that ends them.
    fn last_digits(&mut self, n: u64, k: usize, end: u8)
        requires { k ≤ 3 }
        ensures { Writes self.old (digits_from k n ++ end ∷ []) self.new }
    {
        let mut text = [end; 4];
        super::fill_digits(10, n, &mut text[..k]);
        self.bytes(&text[..k + 1]);
    }

    // Writes n / 10^k with its k decimals, and the byte that ends them.
    fn pointed(&mut self, n: u64, k: usize, end: u8)
        requires { k ≤ 3 }
        ensures { Writes self.old (pointed_of k n ++ end ∷ []) self.new }
    {
        if k == 0 {
            self.decimal(n, end);
        } else {
            self.decimal(n / power_of_ten(k), b'.');
            self.last_digits(n, k, end);
        }
    }

    // Writes `-` where the bits are those of a number below zero.
    fn sign(&mut self, bits: u64)
        ensures { Writes self.old (cond (leb (2 ^ 63) bits) (45 ∷ []) []) self.new }
    {
        if bits >= 0x8000_0000_0000_0000 {
            self.bytes(b"-");
        }
    }

    // Writes x with so many decimals, at most three, rounded to the nearest on its exact value, a half
    // away from zero, and the byte that ends it. NaN, an infinity and what is 2^53 or more in size
    // stand as in a column.
    pub fn fixed(&mut self, x: f64, places: usize, end: u8)
        ensures { Writes self.old (fixed_of x places ++ end ∷ []) self.new }
    {
        if is_modest(x) {
            let k = places.min(3);
            let bits = x.to_bits();
            let n = scaled(bits, power_of_ten(k));
            self.sign(bits);
            self.pointed(n, k, end);
        } else {
            self.column(Some(x), end);
        }
    }
}
