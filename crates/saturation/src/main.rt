// The saturation pressure at each of the temperatures on standard input, words of eight bytes, the
// lowest first, that hold the bits of a T in K: a line a word with its number, refusal (0 if none),
// place (1 up to 623.15 K, 2 above that, 0 if refused) and p in MPa by its bits, `-` if refused. Input
// of more than 65,536 bytes, or of no whole number of words, prints only `bad input`.
#![tactic(auto)]

ghost use Rattle.text.specs.Room.{Whole};
ghost use Rattle.saturation_listing.specs.Listing.{saturation_text};

use std::io;

// No listing is longer: a header of 19 bytes, and 8,192 words with one line of at most 42 bytes each.
const ROOM: usize = 344083;

// Writes the listing of any bytes: this room holds every one, so that none is cut.
fn listed(input: &[u8], room: &mut [u8; ROOM]) -> usize
    ensures { Whole room.new (saturation_text input.now) result }
{
    saturation_listing::saturation(input, room)
}

fn main(rt: HostRuntime) -> io::Result<()> {
    let mut input = [0u8; saturation_listing::INPUT];
    let n = streams::read_full(&rt, &mut input)?;
    let mut room = [0u8; ROOM];
    let end = listed(&input[..n], &mut room);
    streams::write_all(&rt, &room[..end])
}
