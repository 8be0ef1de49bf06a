// Every answer to a point sheet on standard input, a line a row: its number, kind, refusal, region,
// mark (1 verified, 0 not), and p, T, v, u, h, s, cp, w, x by the bits of each; `-` for what an
// answer lacks. A refused sheet prints only `refused N`.
#![tactic(auto)]

ghost use Rattle.text.specs.Room.{Whole};
ghost use Rattle.listing.specs.Listings.{answers_text};

use std::io;

// No listing is longer: a sheet has at most 1,000 rows, and a row one line of at most 239 bytes; there is
// space for 2,500.
const ROOM: usize = 600000;

// Writes the listing of any bytes: this room holds every one, so that none is cut.
fn listed(sheet: &[u8], room: &mut [u8; ROOM]) -> usize
    ensures { Whole room.new (answers_text sheet.now) result }
{
    listing::answers(sheet, room)
}

fn main(rt: HostRuntime) -> io::Result<()> {
    let mut input = [0u8; listing::INPUT];
    let n = streams::read_full(&rt, &mut input)?;
    let mut room = [0u8; ROOM];
    let end = listed(&input[..n], &mut room);
    streams::write_all(&rt, &room[..end])
}
