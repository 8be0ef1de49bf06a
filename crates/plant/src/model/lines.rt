// The lines of a model, written behind what the model calls a place: the state there, and what the model
// makes of it. Units for people: MPa, degC, kJ/kg, MW.
use refusals::Refusal;
use states::Single;
use text::Line;

// How many kW make one MW.
pub(crate) const KW_IN_MW: f64 = 1000.0;

// What a model gives off at a place, in MW.
#[derive(Clone, Copy)]
pub(crate) enum Output {
    ShaftPower(f64),
    Heat(f64),
}

// Pressure, temperature and enthalpy of a state.
fn properties(a: Single, line: &mut Line<'_>) {
    let b = a.state;
    line.fixed(a.p, 3, b' ');
    line.bytes(b"MPa, ");
    line.fixed(a.t - 273.15, 2, b' ');
    line.bytes(b"degC, ");
    line.fixed(b.h, 2, b' ');
    line.bytes(b"kJ/kg");
}

// So many MW of something, and the end of the line.
pub(crate) fn megawatts(what: &[u8], x: f64, line: &mut Line<'_>) {
    line.bytes(what);
    line.fixed(x, 3, b' ');
    line.bytes(b"MW\n");
}

fn ending(given: Option<Output>, line: &mut Line<'_>) {
    match given {
        None => line.bytes(b"\n"),
        Some(Output::ShaftPower(x)) => megawatts(b", shaft power ", x, line),
        Some(Output::Heat(x)) => megawatts(b", heat ", x, line),
    }
}

// The line of a place behind its title: the state there and what is given off, or the refusal's number.
pub(crate) fn told(known: Result<Single, Refusal>, given: Option<Output>, line: &mut Line<'_>) {
    match known {
        Ok(a) => {
            properties(a, line);
            ending(given, line);
        }
        Err(refusal) => {
            line.bytes(b"refused ");
            line.decimal(refusal.number(), b'\n');
        }
    }
}

// Every bit of a state: p, T, v, u, h, s, cp and w in hexadecimal.
pub(crate) fn bits(a: Single, line: &mut Line<'_>) {
    let b = a.state;
    line.column(Some(a.p), b' ');
    line.column(Some(a.t), b' ');
    line.column(Some(b.v), b' ');
    line.column(Some(b.u), b' ');
    line.column(Some(b.h), b' ');
    line.column(Some(b.s), b' ');
    line.column(Some(b.cp), b' ');
    line.column(Some(b.w), b'\n');
}
