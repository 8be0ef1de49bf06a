// The lines of turns, and those that are a number and words (specs/Lines.antt).
ghost use Rattle.std.specs.Prelude.{◌≡◌, ◌++◌};
ghost use Rattle.text.specs.Lines.{Writes};
ghost use Rattle.text.specs.Texts.{blank, number_column};
ghost use Rattle.transcript.specs.Lines.{number_if, turns_line};

use refusals::Refusal;
use text::Line;

// Writes a line's number and the words behind it.
pub(crate) fn opened(number: u64, words: &[u8], line: &mut Line<'_>)
    ensures { Writes line.old (number_column number blank ++ words.now) line.new }
{
    line.decimal(number, b' ');
    line.bytes(words);
}

// The number of a refusal, 0 where there is none.
pub(crate) fn number_if(refusal: Option<Refusal>) -> u64
    ensures { result ≡ number_if refusal }
{
    refusal.map_or(0, |why| why.number())
}

// Writes the line of turns: the refusal or 0, how many halved, and how many had nothing to halve.
pub(crate) fn turned(number: u64, refusal: u64, halved: u64, idle: u64, line: &mut Line<'_>)
    ensures { Writes line.old (turns_line number refusal halved idle) line.new }
{
    opened(number, b"turn ", line);
    line.decimal(refusal, b' ');
    line.decimal(halved, b' ');
    line.decimal(idle, b'\n');
}
