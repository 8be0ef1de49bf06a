// Derivatives at the points of a sheet on standard input, whose note is triples of bytes z, x, y: for
// each row and each triple in turn a line with row number, z, x, y, refusal (0 if none) and the value
// by its bits. A refused sheet prints only `refused N`.
#![tactic(auto)]

ghost use Rattle.std.specs.Prelude.{◌≡◌, IfOk};
ghost use Rattle.text.specs.Room.{Whole};
ghost use Rattle.refusals.specs.Refusals.{number_of};
ghost use Rattle.sheet.specs.Read.{count_of};
ghost use Rattle.listing.specs.Listings.{triples_of, quotients_head, quotients_row};

use refusals::Refusal;
use sheet::Rows;
use std::io;

// The lines of no row are longer: a note has at most 1,365 triples, and a triple one line of at most 122
// bytes.
const ROOM: usize = 262144;

// Writes the head of the listing: this room holds every one, so that none is cut.
fn head(reading: Result<Rows, Refusal>, room: &mut [u8; ROOM]) -> usize
    ensures { Whole room.new (quotients_head number_of reading) result }
{
    listing::quotients_head(reading, room)
}

// Writes the lines of row k, counted from 0, of a sheet that was read: this room holds those of every
// row, so that none is cut.
fn row(sheet: &[u8], reading: Result<Rows, Refusal>, k: usize, room: &mut [u8; ROOM]) -> usize
    requires { reading ≡ triples_of sheet.now }
    ensures { Whole room.new (quotients_row sheet.now (triples_of sheet.now) k) result }
{
    listing::quotients(sheet, reading, k, room)
}

// Prints the listing of a sheet, a row at a time, and answers how many rows were listed: all of them. They are
// counted, since that none is left out is what the promise says.
fn print(rt: &impl Print, sheet: &[u8]) -> io::Result<usize>
    ensures { IfOk result (λ n. n ≡ count_of (triples_of sheet.now)) }
{
    let mut room = [0u8; ROOM];
    let reading = listing::triples(sheet);
    let end = head(reading, &mut room);
    streams::write_all(rt, &room[..end])?;
    let mut listed = 0;
    for k in 0..sheet::count(reading) {
        let end = row(sheet, reading, k, &mut room);
        streams::write_all(rt, &room[..end])?;
        listed += 1;
    }
    Ok(listed)
}

fn main(rt: HostRuntime) -> io::Result<()> {
    let mut input = [0u8; listing::INPUT];
    let n = streams::read_full(&rt, &mut input)?;
    print(&rt, &input[..n])?;
    Ok(())
}
