// What the check programs print besides what `year_print` does. What is proved of it is the refusal that a year's lines and its record answer.
#![tactic(auto)]

ghost use Rattle.std.specs.Prelude.{◌≡◌, IfOk};
ghost use Rattle.answers.specs.Answer.{refusal_in, left_in};
ghost use Rattle.record.specs.Record.{write_of, read_of};
ghost use Rattle.year_print.specs.Paper.{year_refusal, refusal_number};

use calendar::{Month, Refusal};
use senmyo_node::Grade;
use std::{fmt, io};
use year_print::NamedYear;

// Bytes, each after a space.
#[derive(Clone, Copy)]
pub struct Bytes<'a>(pub &'a [u8]);

impl fmt::Display for Bytes<'_> {
    fn fmt<W: fmt::Write>(&self, f: &mut fmt::Formatter<W>) -> fmt::Result {
        for byte in self.0 {
            write!(f, " {byte:02x}")?;
        }
        Ok(())
    }
}

// The number of a refusal, or 0 where nothing was refused.
pub fn refusal_number(refused: Option<Refusal>) -> u8
    ensures { result ≡ refusal_number refused }
{
    refused.map_or(0, Refusal::number)
}

// With what it is refused to write a year's record, or 0.
pub fn writing(calendar: u64, year: u64, bytes: &mut [u8]) -> u8
    ensures refusal { result ≡ refusal_in (write_of calendar year bytes.old) }
    ensures left { bytes.new ≡ left_in bytes.old (write_of calendar year bytes.old) }
{
    refusal_number(record::write_record(calendar, year, bytes).err())
}

// With what it is refused to read bytes as a record, or 0.
pub fn reading(bytes: &[u8]) -> u8
    ensures { result ≡ refusal_in (read_of bytes.now) }
{
    refusal_number(record::read_record(bytes).err())
}

// Prints what the program `year` answers to each of some inputs.
pub fn print_answers(rt: &impl Print, inputs: &[&[u8]]) -> io::Result<()> {
    for input in inputs {
        year_print::print_answer(rt, input)?;
    }
    Ok(())
}

// A line for a full moon that is eclipsed.
fn print_eclipse(rt: &impl Print, named: NamedYear, month: Month) -> io::Result<()> {
    let NamedYear {
        calendar,
        number,
        ..
    } = named;
    let answer = calendar::eclipse_of(calendar, number, u64::from(month.number), month.leap);
    let Ok((moon, grade)) = answer else {
        return Ok(());
    };
    let (kind, parts, remainder, strong) = match grade {
        Grade::None => return Ok(()),
        Grade::Total => (1, 15, 0, false),
        Grade::Partial(share) => (2, share.parts, share.remainder, share.strong),
    };
    println!(rt;
        "{number} {} {} {} {} {} {} {kind} {parts} {remainder} {}",
        month.number,
        u8::from(month.leap),
        moon.day,
        moon.fen.0,
        moon.side as u8,
        moon.distance.0,
        u8::from(strong)
    )
}

// A line for the new and the full moon of a month.
fn print_moons(rt: &impl Print, named: NamedYear, month: Month) -> io::Result<()> {
    let NamedYear {
        calendar,
        number,
        ..
    } = named;
    let answer = calendar::moons_of(calendar, number, u64::from(month.number), month.leap);
    let Ok(moons) = answer else {
        return Ok(());
    };
    println!(rt;
        "{calendar} {number} {} {} {:016x} {:016x}",
        month.number,
        u8::from(month.leap),
        moons.new.to_bits(),
        moons.full.to_bits()
    )
}

// Prints what there is to print of each month that is listed.
fn print_each<F: Fn(Month) -> io::Result<()>>(named: NamedYear, print: F) -> io::Result<()>
    requires { F.IsAlwaysCallable print }
{
    for month in named.year.listed() {
        print(*month)?;
    }
    Ok(())
}

// The head, the first day and the months' lengths.
fn print_lengths(rt: &impl Print, named: NamedYear) -> io::Result<()> {
    let year = named.year;
    print!(rt; "{named} {}", year.months[0].first_day)?;
    for month in year.listed() {
        print!(rt; " {}", month.length)?;
    }
    println!(rt)
}

// Prints what there is to print of a year. Of a year that is refused, nothing; tells what was refused, if anything.
#[tactic(auto, unfolding(year_print::specs::Paper::year_refusal))]
fn print_covered<F: FnOnce(NamedYear) -> io::Result<()>>(
    calendar: u64,
    number: u64,
    print: F,
) -> io::Result<Option<Refusal>>
    requires { F.IsAlwaysCallable print }
    ensures { IfOk result (λ refused. refusal_number refused ≡ year_refusal calendar number) }
{
    match calendar::year_of(calendar, number) {
        Ok(year) => {
            print(NamedYear {
                calendar,
                number,
                year,
            })?;
            Ok(None)
        }
        Err(refusal) => Ok(Some(refusal)),
    }
}

// Prints a year on one line: the head, the first day and the months' lengths.
pub fn print_summary(rt: &impl Print, calendar: u64, number: u64) -> io::Result<Option<Refusal>>
    ensures { IfOk result (λ refused. refusal_number refused ≡ year_refusal calendar number) }
{
    print_covered(calendar, number, |named| print_lengths(rt, named))
}

// Prints a line for each month of a year whose full moon is eclipsed: year, month, leap, day, fen, side (0 yang, 1 yin), distance,
// kind (1 total, 2 partial), parts, remainder, and strong or not.
pub fn print_eclipses(rt: &impl Print, calendar: u64, number: u64) -> io::Result<Option<Refusal>>
    ensures { IfOk result (λ refused. refusal_number refused ≡ year_refusal calendar number) }
{
    print_covered(calendar, number, |named| {
        print_each(named, |month| print_eclipse(rt, named, month))
    })
}

// Prints a line for each month of a year: calendar, year, month, leap, and the bytes of its new and of its full moon.
pub fn print_instants(rt: &impl Print, calendar: u64, number: u64) -> io::Result<Option<Refusal>>
    ensures { IfOk result (λ refused. refusal_number refused ≡ year_refusal calendar number) }
{
    print_covered(calendar, number, |named| {
        print_each(named, |month| print_moons(rt, named, month))
    })
}
