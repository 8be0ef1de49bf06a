// What the program `saturation` writes of temperatures that stand in words (specs/Listing.antt): the
// text goes into a slice that the caller lends, its room, and the place behind it is answered. Where
// the room ends first, the text is cut there.
#![tactic(auto)]

mod lines;

ghost use Rattle.std.specs.Prelude.{◌≡◌};
ghost use Rattle.text.specs.Room.{Written};
ghost use Rattle.saturation_listing.specs.Listing.{bad_length, saturation_text};

use lines::lines;
use text::Line;

// The longest input: 8,192 words of eight bytes.
pub const LONGEST: usize = 65536;

// How much a program reads: a byte more, so that a longer input is seen to be longer.
pub const INPUT: usize = LONGEST + 1;

// Whether so many bytes are bad input: too many, or no whole number of words.
fn bad(length: usize) -> bool
    ensures { result ≡ bad_length length }
{
    length > LONGEST || length % 8 != 0
}

// The text of `saturation`: row number, refusal, place and p of each word; of bad input only that it
// is bad.
pub fn saturation(input: &[u8], out: &mut [u8]) -> usize
    ensures { Written out.old 0 (saturation_text input.now) out.new result }
{
    let mut line = Line::new(out, 0);
    let length = input.len();
    if bad(length) {
        line.bytes(b"bad input\n");
        return line.end();
    }
    line.bytes(b"row answer place p\n");
    lines(input, length / 8, &mut line);
    line.end()
}
