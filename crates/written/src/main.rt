// The sheet of a note and rows that stand on standard input, behind two words: how long the note is,
// and how long the room for the sheet. At most 65,536 bytes are read. Prints the sheet's bytes, or
// `refused N`.
#![tactic(auto)]

ghost use Rattle.std.specs.Prelude.{◌≡◌, ◌≤◌, min, length, drop};
ghost use Rattle.text.specs.Room.{Whole};
ghost use Rattle.refusals.specs.Refusals.{number_in};
ghost use Rattle.sheet_writer.specs.Write.{write_of};
ghost use Rattle.listing.specs.Listings.{longest};
ghost use Rattle.written.specs.Written.{answer_text, written_text};

use refusals::Refusal;
use std::io;
use text::Line;

// No sheet is longer.
const ROOM: usize = listing::LONGEST;

// As many as asked for, and at most as many as there are.
fn at_most(asked: u64, there: usize) -> usize
    ensures { result ≡ min asked there }
{
    asked.min(there as u64) as usize
}

// What stands behind the two words.
fn behind(parts: &[u8]) -> &[u8]
    ensures { result.now ≡ drop 16 parts.now }
{
    let n = parts.len();
    if n < 16 { &parts[n..] } else { &parts[16..] }
}

// The number of what refuses a sheet's writing, 0 where it is written. A call of its own, so that an edit can be
// wrong of these answers and of no other.
fn refused_by(writing: Result<usize, Refusal>) -> u64
    ensures { result ≡ number_in writing }
{
    refusals::number(writing)
}

// Writes the sheet of a note and rows, or `refused N`, whole: of the room, which holds the longest
// sheet, so many bytes may be used for the sheet.
fn answered(note: &[u8], rows: &[u8], most: usize, room: &mut [u8]) -> usize
    requires { (most ≤ longest) × (length room.old ≡ longest) }
    ensures { Whole room.new (answer_text note.now rows.now (write_of note.now rows.now most)) result }
{
    let writing = sheet_writer::write(note, rows, &mut room[..most]);
    match writing {
        Ok(_) => sheet_writer::length(writing),
        Err(_) => {
            let mut line = Line::new(room, 0);
            row_lines::refused(refused_by(writing), &mut line);
            line.end()
        }
    }
}

// Writes what is printed for what is given.
fn text(parts: &[u8], room: &mut [u8; ROOM]) -> usize
    ensures { Whole room.new (written_text parts.now) result }
{
    let rest = behind(parts);
    let end = at_most(words::word(parts, 0), rest.len());
    let most = at_most(words::word(parts, 1), ROOM);
    answered(&rest[..end], &rest[end..], most, room)
}

fn main(rt: HostRuntime) -> io::Result<()> {
    let mut input = [0u8; 65536];
    let n = streams::read_full(&rt, &mut input)?;
    let mut room = [0u8; ROOM];
    let end = text(&input[..n], &mut room);
    streams::write_all(&rt, &room[..end])
}
