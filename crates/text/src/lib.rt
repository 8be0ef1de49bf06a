// The text of the programs' lines, written piece by piece into a line: a room, which is a slice that
// the caller lends, and the place in it where the next text goes. Where the room ends first, the text
// is cut there (specs/Room.antt, specs/Lines.antt). What is written is said in specs/Texts.antt, and
// of plain decimals, for people, in specs/Decimals.antt.
#![tactic(auto)]

mod plain;

ghost use Rattle.std.specs.Prelude.{◌≡◌, [], ◌∷◌, ◌++◌, ◌<◌, ◌≤◌, length};
ghost use Rattle.text.specs.Lines.{Writes};
ghost use Rattle.text.specs.Texts.{decimal_of, hex_digit, digits_in, hex_of, column_of};

// A room that is lent for text, and the place in it where the next text goes.
#[derive(Drop)]
pub struct Line<'a> {
    room: &'a mut [u8],
    at: usize,
}

impl<'a> Line<'a> {
    // A line that begins at a place of its room.
    pub fn new(room: &'a mut [u8], at: usize) -> Line<'a>
        ensures same { result.room.ghost_name ≡ room.entry.ghost_name }
        ensures start { (result.room.now ≡ room.old) × (result.at ≡ at) }
    {
        Line { room, at }
    }

    // The place behind what is written.
    pub fn end(&self) -> usize
        ensures { result ≡ self.now.at }
    {
        self.at
    }

    // Writes a string of bytes.
    pub fn bytes(&mut self, src: &[u8])
        ensures { Writes self.old src.now self.new }
    {
        if self.at < self.room.len() {
            let n = src.len().min(self.room.len() - self.at);
            self.room[self.at..self.at + n].copy_from_slice(&src[..n]);
            self.at += n;
        }
    }

    // Writes n in decimal, and the byte that ends it.
    pub fn decimal(&mut self, n: u64, end: u8)
        ensures { Writes self.old (decimal_of n ++ end ∷ []) self.new }
    {
        let mut text = [end; 21];
        let mut first = 20;
        let mut left = n;
        while left >= 10 {
            first -= 1;
            text[first] = (48 + left % 10) as u8;
            left /= 10;
        }
        first -= 1;
        text[first] = (48 + left) as u8;
        self.bytes(&text[first..]);
    }

    // Writes 64 bits as 16 hexadecimal digits in lower case, and the byte that ends them.
    pub fn hex(&mut self, bits: u64, end: u8)
        ensures { Writes self.old (hex_of bits ++ end ∷ []) self.new }
    {
        let mut text = [end; 17];
        fill_digits(16, bits, &mut text[..16]);
        self.bytes(&text);
    }

    // Writes a column, and the byte that ends it: the bits of an f64 in hexadecimal, `nan`, or `-`
    // where there is no value.
    pub fn column(&mut self, c: Option<f64>, end: u8)
        ensures { Writes self.old (column_of c ++ end ∷ []) self.new }
    {
        match c {
            None => self.bytes(&[b'-', end]),
            Some(x) if x.is_nan() => self.bytes(&[b'n', b'a', b'n', end]),
            Some(x) => self.hex(x.to_bits(), end),
        }
    }
}

// A hexadecimal digit, 0 to 9 and a to f.
#[tactic(auto, unfolding(crate::specs::Texts::hex_digit))]
fn hex_digit(d: u64) -> u8
    requires { d < 16 }
    ensures { result ≡ hex_digit d }
{
    if d < 10 {
        (48 + d) as u8
    } else {
        (87 + d) as u8
    }
}

// Fills a text with the last digits of n in a base up to 16, zeros in front included.
fn fill_digits(base: u64, n: u64, text: &mut [u8])
    requires { (0 < base) × (base ≤ 16) }
    ensures { text.new ≡ digits_in base (length text.old) n }
{
    let mut left = n;
    for i in (0..text.len()).rev() {
        text[i] = hex_digit(left % base);
        left /= base;
    }
}
