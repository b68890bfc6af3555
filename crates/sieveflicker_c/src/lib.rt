// The exported calls, for programs in C and Rust. Each is the function of `sieveflicker` of its name, with the same clauses.
#![tactic(auto)]

ghost use Rattle.std.specs.Prelude.{◌≡◌};
ghost use Rattle.answers.specs.Answer.{refusal_in, left_in};
ghost use Rattle.record.specs.Record.{write_of};
ghost use Rattle.sieveflicker.specs.Exported.{day_number_of, date_number_of, year_written, eclipse_written, hours_written, moons_written, fields_written};

// The day number of a date, or the refusal's number.
#[unsafe(no_mangle)]
pub extern "C" fn sf_day(calendar: u64, year: u64, month: u64, leap: u64, day: u64) -> u64
    ensures { result ≡ day_number_of calendar year month leap day }
{
    sieveflicker::sf_day(calendar, year, month, leap, day)
}

// The date of a day number, as one number, or the refusal's number.
#[unsafe(no_mangle)]
pub extern "C" fn sf_date(calendar: u64, day: u64) -> u64
    ensures { result ≡ date_number_of calendar day }
{
    sieveflicker::sf_date(calendar, day)
}

// Writes the 55 numbers of a year. Answers the refusal's number, or 0.
#[unsafe(no_mangle)]
pub extern "C" fn sf_year(calendar: u64, year: u64, out: &mut [u32]) -> u8
    ensures refusal { result ≡ refusal_in (year_written calendar year out.old) }
    ensures left { out.new ≡ left_in out.old (year_written calendar year out.old) }
{
    sieveflicker::sf_year(calendar, year, out)
}

// Writes the 8 numbers of a month's eclipse. Answers the refusal's number, or 0.
#[unsafe(no_mangle)]
pub extern "C" fn sf_eclipse(calendar: u64, year: u64, month: u64, leap: u64, out: &mut [u32]) -> u8
    ensures refusal { result ≡ refusal_in (eclipse_written calendar year month leap out.old) }
    ensures left { out.new ≡ left_in out.old (eclipse_written calendar year month leap out.old) }
{
    sieveflicker::sf_eclipse(calendar, year, month, leap, out)
}

// Writes the 12 numbers of the hours of a month's eclipse. Answers the refusal's number, or 0.
#[unsafe(no_mangle)]
pub extern "C" fn sf_hours(calendar: u64, year: u64, month: u64, leap: u64, out: &mut [u32]) -> u8
    ensures refusal { result ≡ refusal_in (hours_written calendar year month leap out.old) }
    ensures left { out.new ≡ left_in out.old (hours_written calendar year month leap out.old) }
{
    sieveflicker::sf_hours(calendar, year, month, leap, out)
}

// Writes the Julian dates of a month's new and full moon. Answers the refusal's number, or 0.
#[unsafe(no_mangle)]
pub extern "C" fn sf_moons(calendar: u64, year: u64, month: u64, leap: u64, out: &mut [f64]) -> u8
    ensures refusal { result ≡ refusal_in (moons_written calendar year month leap out.old) }
    ensures left { out.new ≡ left_in out.old (moons_written calendar year month leap out.old) }
{
    sieveflicker::sf_moons(calendar, year, month, leap, out)
}

// Writes the 25 bytes of a year's record. Answers the refusal's number, or 0.
#[unsafe(no_mangle)]
pub extern "C" fn sf_write_record(calendar: u64, year: u64, buffer: &mut [u8]) -> u8
    ensures refusal { result ≡ refusal_in (write_of calendar year buffer.old) }
    ensures left { buffer.new ≡ left_in buffer.old (write_of calendar year buffer.old) }
{
    sieveflicker::sf_write_record(calendar, year, buffer)
}

// Writes the 5 numbers of a record that is the rule's own. Answers the refusal's number, or 0.
#[unsafe(no_mangle)]
pub extern "C" fn sf_read_record(bytes: &[u8], out: &mut [u32]) -> u8
    ensures refusal { result ≡ refusal_in (fields_written bytes.now out.old) }
    ensures left { out.new ≡ left_in out.old (fields_written bytes.now out.old) }
{
    sieveflicker::sf_read_record(bytes, out)
}
