// Writing a point sheet, in the format that `sheet` tells (specs/Write.antt).
#![tactic(auto)]

ghost use Rattle.std.specs.Prelude.{◌≡◌, ◌<◌, length};
ghost use Rattle.text.specs.Room.{placed};
ghost use Rattle.words.specs.Words.{u32_bytes};
ghost use Rattle.sheet_writer.specs.Write.{length_of, sheet_of, write_of, room_of};

use refusals::Refusal;
use sheet::kinds_known;
use text::Line;
use versions::{allowed, version_for};

// The sheet's length: 0 where it is refused.
pub fn length<E: Copy>(writing: Result<usize, E>) -> usize
    ensures { result ≡ length_of writing }
{
    writing.unwrap_or(0)
}

// The four bytes of a u32.
fn u32_bytes(x: u64) -> [u8; 4]
    requires { x < 4294967296 }
    ensures { result ≡ u32_bytes x }
{
    (x as u32).to_le_bytes()
}

// What is answered for a note, rows' bytes and a room of so many bytes.
#[tactic(auto, unfolding(crate::specs::Write::write_of))]
fn judge(note: &[u8], rows: &[u8], room: usize) -> Result<usize, Refusal>
    ensures { result ≡ write_of note.now rows.now room }
{
    let count = rows.len() / 24;
    if !allowed(version_for(count), count) {
        return Err(Refusal::RowCount);
    }
    if note.len() > 4096 {
        return Err(Refusal::Layout);
    }
    if rows.len() % 24 != 0 {
        return Err(Refusal::Layout);
    }
    if !kinds_known(rows, count) {
        return Err(Refusal::RowKind);
    }
    let length = note.len() + rows.len() + 16;
    if length > room {
        return Err(Refusal::ShortRoom);
    }
    Ok(length)
}

// Puts the note, the rows and their trailer one behind the other at the front of the room.
fn fill(note: &[u8], rows: &[u8], out: &mut [u8])
    requires { length rows.now < 4294967296 }
    ensures { out.new ≡ placed out.old 0 (sheet_of note.now rows.now) }
{
    let count = rows.len() / 24;
    let last = [
        u32_bytes(count as u64),
        u32_bytes(24 * count as u64),
        u32_bytes(version_for(count)),
        u32_bytes(0),
    ];
    let mut line = Line::new(out, 0);
    line.bytes(note);
    line.bytes(rows);
    line.bytes(last.as_flattened());
}

// Writes the sheet of a note and rows' bytes at the front of the room and nothing behind it, or
// refuses and writes nothing: `RowCount` too many whole rows; `Layout` note too long, or a row cut
// short; `RowKind` a kind outside 1 to 4; `ShortRoom` room too short.
pub fn write(note: &[u8], rows: &[u8], out: &mut [u8]) -> Result<usize, Refusal>
    ensures { (result ≡ write_of note.now rows.now (length out.old)) × (out.new ≡ room_of note.now rows.now out.old) }
{
    let length = judge(note, rows, out.len())?;
    fill(note, rows, out);
    Ok(length)
}
