// The places of the heater, and what its lines call them.
use text::Line;

#[derive(Clone, Copy)]
pub(crate) enum Place {
    WaterIn,
    BledSteam,
    Drain,
    WaterOut,
}

pub(crate) fn title(place: Place, line: &mut Line<'_>) {
    match place {
        Place::WaterIn => line.bytes(b"  heater water in: "),
        Place::BledSteam => line.bytes(b"  heater bled steam: "),
        Place::Drain => line.bytes(b"  heater drain: "),
        Place::WaterOut => line.bytes(b"  heater water out: "),
    }
}
