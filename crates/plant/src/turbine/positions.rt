// The places of the turbine, and what its lines call them.
use text::Line;

// Where in the turbine a state is. A stage, by its number, has two ends: the one of an ideal expansion,
// which no steam reaches, and its own.
#[derive(Clone, Copy)]
pub(crate) enum Place {
    Inlet,
    IdealEnd(u64),
    StageEnd(u64),
}

// The title of a stage, its number with the byte after it and what else follows.
fn stage_title(stage: u64, after: u8, rest: &[u8], line: &mut Line<'_>) {
    line.bytes(b"  turbine stage ");
    line.decimal(stage, after);
    line.bytes(rest);
}

pub(crate) fn title(place: Place, line: &mut Line<'_>) {
    match place {
        Place::Inlet => line.bytes(b"  turbine inlet: "),
        Place::IdealEnd(stage) => stage_title(stage, b' ', b"ideal: ", line),
        Place::StageEnd(stage) => stage_title(stage, b':', b" ", line),
    }
}
