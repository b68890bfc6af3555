// An answer as numbers, put into memory that was lent.
#![tactic(auto)]

ghost use Rattle.std.specs.Prelude.{◌≡◌, ◌+◌, ◌*◌, ◌≤◌, length};
ghost use Rattle.std.proofs.lemmas.List.Edits.{sets};
ghost use Rattle.senmyo_node.specs.Answers.{grade_means};
ghost use Rattle.calendar_hours.specs.Hours.{HourSmall, HoursSmall};
ghost use Rattle.record_fields.specs.Tagged.{numbers_of};
ghost use Rattle.record_fields.specs.Fields.{layout};
ghost use Rattle.sieveflicker_numbers.specs.Numbers.{month_numbers, places_numbers, year_numbers, moon_numbers, grade_numbers, hour_numbers, hours_numbers, moons_numbers};
ghost use Rattle.sieveflicker_numbers.specs.Room.{FitsPlaces};

use calendar_eclipses::FullMoon;
use calendar_hours::{Hour, Hours};
use calendar_moons::Moons;
use calendar_year::{Month, Year};
use record_fields::Fields;
use senmyo_node::Grade;

// Writes numbers, from a place on.
fn put<N: Copy>(out: &mut [N], place: usize, numbers: &[N])
    requires { place + length numbers.now ≤ length out.old }
    ensures { out.new ≡ sets out.old place numbers.now }
{
    out[place..place + numbers.len()].copy_from_slice(numbers);
}

fn month_numbers(month: Month) -> [u32; 4]
    ensures { result ≡ month_numbers month }
{
    [
        u32::from(month.number),
        u32::from(month.leap),
        u32::from(month.length),
        month.first_day,
    ]
}

// Writes the numbers of each place for a month, behind those of the year. (Of pieces that an iterator lends a proof knows nothing afterwards.)
fn put_places(out: &mut [u32], months: &[Month])
    requires { 3 + 4 * length months.now ≤ length out.old }
    ensures { out.new ≡ sets out.old 3 (places_numbers months.now) }
{
    for (place, month) in months.iter().enumerate() {
        put(out, 3 + 4 * place, &month_numbers(*month));
    }
}

pub fn put_year(out: &mut [u32], year: Year)
    requires { 55 ≤ length out.old }
    ensures { out.new ≡ sets out.old 0 (year_numbers year) }
{
    put(
        out,
        0,
        &[
            u32::from(year.days),
            u32::from(year.leap),
            u32::from(year.count),
        ],
    );
    put_places(out, &year.months);
}

pub fn put_moon(out: &mut [u32], moon: FullMoon)
    requires fits_places { FitsPlaces moon }
    requires in_bounds { 4 ≤ length out.old }
    ensures { out.new ≡ sets out.old 0 (moon_numbers moon) }
{
    put(
        out,
        0,
        &[
            moon.day,
            moon.fen.0 as u32,
            moon.side as u32,
            moon.distance.0 as u32,
        ],
    );
}

fn grade_numbers(grade: Grade) -> [u32; 4]
    ensures { result ≡ grade_numbers (grade_means grade) }
{
    match grade {
        Grade::None => [0; 4],
        Grade::Total => [1, 15, 0, 0],
        Grade::Partial(share) => [
            2,
            u32::from(share.parts),
            u32::from(share.remainder),
            u32::from(share.strong),
        ],
    }
}

pub fn put_grade(out: &mut [u32], grade: Grade)
    requires { 8 ≤ length out.old }
    ensures { out.new ≡ sets out.old 4 (grade_numbers (grade_means grade)) }
{
    put(out, 4, &grade_numbers(grade));
}

fn hour_numbers(hour: Hour) -> [u32; 3]
    requires { HourSmall hour }
    ensures { result ≡ hour_numbers hour }
{
    [hour.day, hour.fen.0 as u32, hour.ke.0 as u32]
}

pub fn put_hours(out: &mut [u32], hours: Hours)
    requires hours_small { HoursSmall hours }
    requires in_bounds { 12 ≤ length out.old }
    ensures { out.new ≡ sets out.old 0 (hours_numbers hours) }
{
    put(
        out,
        0,
        &[
            hours.length.0 as u32,
            hours.ke.0 as u32,
            hours.over.0 as u32,
        ],
    );
    put(out, 3, &hour_numbers(hours.start));
    put(out, 6, &hour_numbers(hours.middle));
    put(out, 9, &hour_numbers(hours.end));
}

pub fn put_moons(out: &mut [f64], moons: Moons)
    requires { 2 ≤ length out.old }
    ensures { out.new ≡ sets out.old 0 (moons_numbers moons) }
{
    put(out, 0, &[moons.new, moons.full]);
}

#[tactic(auto, unfolding(record_fields::specs::Tagged::numbers_of))]
pub fn put_fields(out: &mut [u32], fields: Fields)
    requires { 5 ≤ length out.old }
    ensures { out.new ≡ sets out.old 0 (numbers_of layout fields) }
{
    put(
        out,
        0,
        &[
            u32::from(fields.calendar),
            u32::from(fields.year),
            fields.first_day,
            u32::from(fields.leap),
            u32::from(fields.long_months),
        ],
    );
}
