// The calls for programs in C and Rust, as functions. Each passes on what the call behind it answers, as numbers, which are what C can be told;
// `sieveflicker_c` exports it, since a static library is no library. Those that write have one shape; one function for them would take each call and what
// puts its numbers as closures, and be longer than what it saves.
#![tactic(auto)]

ghost use Rattle.std.specs.Prelude.{◌≡◌};
ghost use Rattle.answers.specs.Answer.{refusal_in, left_in};
ghost use Rattle.record.specs.Record.{write_of};
ghost use Rattle.sieveflicker.specs.Exported.{day_number_of, date_number_of, year_written, eclipse_written, hours_written, moons_written, fields_written};

use calendar::Refusal;

// The day number of a date, or the refusal's number.
pub fn sf_day(calendar: u64, year: u64, month: u64, leap: u64, day: u64) -> u64
    ensures { result ≡ day_number_of calendar year month leap day }
{
    match calendar::day_of(calendar, year, month, leap != 0, day) {
        Ok(number) => u64::from(number),
        Err(refusal) => u64::from(refusal.number()),
    }
}

// The date of a day number, as one number, or the refusal's number.
pub fn sf_date(calendar: u64, day: u64) -> u64
    ensures { result ≡ date_number_of calendar day }
{
    match calendar::date_of(calendar, day) {
        Ok(date) => u64::from(calendar::date_number(date)),
        Err(refusal) => u64::from(refusal.number()),
    }
}

// Writes the 55 numbers of a year. Answers the refusal's number, or 0.
pub fn sf_year(calendar: u64, year: u64, out: &mut [u32]) -> u8
    ensures refusal { result ≡ refusal_in (year_written calendar year out.old) }
    ensures left { out.new ≡ left_in out.old (year_written calendar year out.old) }
{
    if out.len() < 55 {
        return Refusal::WrongSize.number();
    }
    match calendar::year_of(calendar, year) {
        Ok(year) => {
            sieveflicker_numbers::put_year(out, year);
            0
        }
        Err(refusal) => refusal.number(),
    }
}

// Writes the 8 numbers of a month's eclipse. Answers the refusal's number, or 0.
pub fn sf_eclipse(calendar: u64, year: u64, month: u64, leap: u64, out: &mut [u32]) -> u8
    ensures refusal { result ≡ refusal_in (eclipse_written calendar year month leap out.old) }
    ensures left { out.new ≡ left_in out.old (eclipse_written calendar year month leap out.old) }
{
    if out.len() < 8 {
        return Refusal::WrongSize.number();
    }
    match calendar::eclipse_of(calendar, year, month, leap != 0) {
        Ok((moon, grade)) => {
            sieveflicker_numbers::put_moon(out, moon);
            sieveflicker_numbers::put_grade(out, grade);
            0
        }
        Err(refusal) => refusal.number(),
    }
}

// Writes the 12 numbers of the hours of a month's eclipse. Answers the refusal's number, or 0.
pub fn sf_hours(calendar: u64, year: u64, month: u64, leap: u64, out: &mut [u32]) -> u8
    ensures refusal { result ≡ refusal_in (hours_written calendar year month leap out.old) }
    ensures left { out.new ≡ left_in out.old (hours_written calendar year month leap out.old) }
{
    if out.len() < 12 {
        return Refusal::WrongSize.number();
    }
    match calendar::hours_of(calendar, year, month, leap != 0) {
        Ok(hours) => {
            sieveflicker_numbers::put_hours(out, hours);
            0
        }
        Err(refusal) => refusal.number(),
    }
}

// Writes the Julian dates of a month's new and full moon. Answers the refusal's number, or 0.
pub fn sf_moons(calendar: u64, year: u64, month: u64, leap: u64, out: &mut [f64]) -> u8
    ensures refusal { result ≡ refusal_in (moons_written calendar year month leap out.old) }
    ensures left { out.new ≡ left_in out.old (moons_written calendar year month leap out.old) }
{
    if out.len() < 2 {
        return Refusal::WrongSize.number();
    }
    match calendar::moons_of(calendar, year, month, leap != 0) {
        Ok(moons) => {
            sieveflicker_numbers::put_moons(out, moons);
            0
        }
        Err(refusal) => refusal.number(),
    }
}

// Writes the 25 bytes of a year's record. Answers the refusal's number, or 0.
pub fn sf_write_record(calendar: u64, year: u64, buffer: &mut [u8]) -> u8
    ensures refusal { result ≡ refusal_in (write_of calendar year buffer.old) }
    ensures left { buffer.new ≡ left_in buffer.old (write_of calendar year buffer.old) }
{
    match record::write_record(calendar, year, buffer) {
        Ok(()) => 0,
        Err(refusal) => refusal.number(),
    }
}

// Writes the 5 numbers of a record that is the rule's own. Answers the refusal's number, or 0.
pub fn sf_read_record(bytes: &[u8], out: &mut [u32]) -> u8
    ensures refusal { result ≡ refusal_in (fields_written bytes.now out.old) }
    ensures left { out.new ≡ left_in out.old (fields_written bytes.now out.old) }
{
    if out.len() < 5 {
        return Refusal::WrongSize.number();
    }
    match record::read_record(bytes) {
        Ok(fields) => {
            sieveflicker_numbers::put_fields(out, fields);
            0
        }
        Err(refusal) => refusal.number(),
    }
}
