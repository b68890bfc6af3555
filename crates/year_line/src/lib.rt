#![tactic(auto)]

ghost use Rattle.std.specs.Prelude.{◌≡◌};
ghost use Rattle.answers.specs.Answer.{told};
ghost use Rattle.year_line.specs.Line.{numbers_of, line_of};
ghost use Rattle.year_line.specs.Room.{FirstPlace, NumberIn};

use answers::Refusal;

// What a line asks for.
#[derive(Clone, Copy, Debug, PartialEq, Eq)]
pub struct Line {
    pub calendar: u32,
    pub year: u32,
}

// Where a byte stands first.
fn place_of(stop: u8, bytes: &[u8]) -> Option<usize>
    ensures { FirstPlace stop bytes.now result }
{
    bytes.iter().position(|byte| *byte == stop)
}

// The number that some bytes are, if they are one.
#[tactic(auto, using(crate::proofs::Passed::too_few, crate::proofs::Passed::too_many))]
fn number_of(bytes: &[u8]) -> Option<u32>
    ensures { NumberIn bytes.now result }
{
    if !(1..=9).contains(&bytes.len()) {
        return None;
    }
    let mut value = 0;
    for byte in bytes {
        if !byte.is_ascii_digit() {
            return None;
        }
        value = value * 10 + u32::from(*byte - b'0');
    }
    Some(value)
}

// The two numbers of a line, which comes without its line feed.
fn numbers_of(line: &[u8]) -> Result<Line, Refusal>
    ensures { told result ≡ numbers_of line.now }
{
    let space = place_of(b' ', line).ok_or(Refusal::NoLine)?;
    let calendar = number_of(&line[..space]).ok_or(Refusal::NoLine)?;
    let year = number_of(&line[space + 1..]).ok_or(Refusal::NoLine)?;
    Ok(Line { calendar, year })
}

// What the first line asks for. Nothing behind its line feed counts.
pub fn line_of(bytes: &[u8]) -> Result<Line, Refusal>
    ensures { told result ≡ line_of bytes.now }
{
    let end = place_of(b'\n', bytes).ok_or(Refusal::NoLine)?;
    numbers_of(&bytes[..end])
}
