// The lines of the listing (specs/Listing.antt).
ghost use Rattle.std.specs.Prelude.{◌≡◌};
ghost use Rattle.refusals.specs.Refusals.{number_in};
ghost use Rattle.text.specs.Lines.{Writes};
ghost use Rattle.text.specs.Texts.{joined};
ghost use Rattle.saturation_listing.specs.Listing.{temperature_line, line_at};

use refusals::Refusal;
use saturation_line::SaturationPressure;
use text::Line;

// The number of what refuses a saturation pressure, 0 where nothing does. A call of its own, so that an edit can
// be wrong of these answers and of no other.
fn refused_by(a: Result<SaturationPressure, Refusal>) -> u64
    ensures { result ≡ number_in a }
{
    refusals::number(a)
}

// Writes a row's number, the refusal, the place and p at T in K.
fn temperature_line(number: u64, t: f64, line: &mut Line<'_>)
    ensures { Writes line.old (temperature_line number t) line.new }
{
    let a = saturation_reply::saturation(t);
    let refusal = refused_by(a);
    let place = saturation_reply::place(a);
    line.decimal(number, b' ');
    line.decimal(refusal, b' ');
    line.decimal(place, b' ');
    line.column(saturation_reply::value(a), b'\n');
}

// Writes the lines of the first n words, numbered from 1.
pub(crate) fn lines(input: &[u8], n: usize, line: &mut Line<'_>)
    ensures { Writes line.old (joined (line_at input.now) n) line.new }
{
    for k in 0..n {
        let t = arith::float_of(words::word(input, k));
        temperature_line(k as u64 + 1, t, line);
    }
}
