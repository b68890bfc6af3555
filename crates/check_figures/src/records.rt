// The year record.
use check_print::{Bytes, reading, writing};
use std::io;

pub fn print_record(rt: &impl Print) -> io::Result<()> {
    let mut bytes = [0u8; 25];
    let refusal = writing(1, 1522, &mut bytes);
    println!(rt;
        "record of 1522, and the refusals in writing and reading it:{} {refusal} {}",
        Bytes(&bytes),
        reading(&bytes)
    )
}

pub fn print_lengths(rt: &impl Print) -> io::Result<()> {
    let mut short = [0u8; 24];
    let mut long = [0u8; 26];
    println!(rt;
        "24 bytes to write calendar 3 in, and to read; 26 bytes to write 1522 in, and to read: {} {} {} {}",
        writing(3, 0, &mut short),
        reading(&short),
        writing(1, 1522, &mut long),
        reading(&long)
    )
}

// With what the record of 1522 is refused with one field after the other changed.
pub fn print_damage(rt: &impl Print) -> io::Result<()> {
    let mut bytes = [0u8; 25];
    writing(1, 1522, &mut bytes);
    print!(rt; "another first day, then a year not covered, calendar 3 and another tag too:")?;
    for (place, byte) in [(15, 133), (7, 9), (3, 3), (20, 6)] {
        bytes[place] = byte;
        print!(rt; " {}", reading(&bytes))?;
    }
    println!(rt)
}
