// The record of each covered year, then what writing and reading answer to damaged records, other lengths and other years.
ghost use Rattle.std.specs.Prelude.{◌<◌, ◌≤◌, length};

use crate::asked::print_each_asked;
use check_print::{Bytes, reading, writing};
use std::io;

// What is read from the record of a year, and its bytes. Of a year that is refused, nothing.
fn print_record(rt: &impl Print, calendar: u64, number: u64) -> io::Result<()> {
    let mut bytes = [0u8; 25];
    if record::write_record(calendar, number, &mut bytes).is_err() {
        return Ok(());
    }
    let Ok(fields) = record::read_record(&bytes) else {
        return Ok(());
    };
    println!(rt;
        "{} {} {} {} {}{}",
        fields.calendar,
        fields.year,
        fields.first_day,
        fields.leap,
        fields.long_months,
        Bytes(&bytes)
    )
}

fn print_records_of(rt: &impl Print, calendar: u64) -> io::Result<()> {
    print_each_asked(|number| print_record(rt, calendar, number))
}

// With what the record of 1522 is refused when bits are flipped in two of its bytes.
fn reading_with(place: usize, bits: u8, second: usize, second_bits: u8) -> u8
    requires { (place < 25) × (second < 25) }
{
    let mut bytes = [0u8; 25];
    writing(1, 1522, &mut bytes);
    bytes[place] ^= bits;
    bytes[second] ^= second_bits;
    reading(&bytes)
}

// With what it is refused when a bit of one byte is flipped, from the lowest to the highest.
fn print_flipped(rt: &impl Print, place: usize) -> io::Result<()>
    requires { place < 25 }
{
    print!(rt; "{place}")?;
    for bits in [1, 2, 4, 8, 16, 32, 64, 128] {
        print!(rt; " {}", reading_with(place, bits, place, 0))?;
    }
    println!(rt)
}

fn print_each_flipped(rt: &impl Print) -> io::Result<()> {
    for place in 0..25 {
        print_flipped(rt, place)?;
    }
    Ok(())
}

fn print_two_flipped(
    rt: &impl Print,
    place: usize,
    bits: u8,
    second: usize,
    second_bits: u8,
) -> io::Result<()>
    requires { (place < 25) × (second < 25) }
{
    println!(rt;
        "{place} {bits} {second} {second_bits} {}",
        reading_with(place, bits, second, second_bits)
    )
}

// Two fields wrong, so that the order of the refusals shows.
fn print_some_flipped(rt: &impl Print) -> io::Result<()> {
    print_two_flipped(rt, 0, 8, 3, 2)?;
    print_two_flipped(rt, 16, 1, 24, 1)?;
    print_two_flipped(rt, 3, 2, 7, 128)?;
    print_two_flipped(rt, 3, 3, 12, 1)?;
    print_two_flipped(rt, 7, 128, 19, 1)?;
    print_two_flipped(rt, 12, 1, 19, 1)
}

// The record of 1522 written into the first `count` of 32 bytes and read from there: both refusals, and all bytes.
fn print_count(rt: &impl Print, count: usize) -> io::Result<()>
    requires { count ≤ 32 }
{
    let mut bytes = [255u8; 32];
    let written = writing(1, 1522, &mut bytes[..count]);
    let read = reading(&bytes[..count]);
    println!(rt; "{count} {written} {read}{}", Bytes(&bytes))
}

fn print_counts(rt: &impl Print) -> io::Result<()> {
    for count in 0..33 {
        print_count(rt, count)?;
    }
    Ok(())
}

// A year's record written into 24 bytes and into 25: both refusals, and the bytes.
fn print_asked(rt: &impl Print, calendar: u64, year: u64) -> io::Result<()> {
    let mut bytes = [255u8; 25];
    let short = writing(calendar, year, &mut bytes[..24]);
    let enough = writing(calendar, year, &mut bytes);
    println!(rt; "{calendar} {year} {short} {enough}{}", Bytes(&bytes))
}

fn print_edges(rt: &impl Print) -> io::Result<()> {
    let asked = [
        (0, 1522),
        (3, 1522),
        (257, 1522),
        (u64::MAX, u64::MAX),
        (1, 821),
        (1, 822),
        (1, 1684),
        (1, 1685),
        (1, 697),
        (1, 67_058),
        (2, 444),
        (2, 445),
        (2, 697),
        (2, 698),
        (2, 1522),
        (1, u64::MAX),
    ];
    for (calendar, year) in asked {
        print_asked(rt, calendar, year)?;
    }
    Ok(())
}

pub fn print_records(rt: &impl Print) -> io::Result<()> {
    print_records_of(rt, 1)?;
    print_records_of(rt, 2)?;
    print_each_flipped(rt)?;
    print_some_flipped(rt)?;
    print_counts(rt)?;
    print_edges(rt)
}
