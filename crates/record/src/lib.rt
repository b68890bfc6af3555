#![tactic(auto)]

ghost use Rattle.std.specs.Prelude.{◌≡◌};
ghost use Rattle.answers.specs.Answer.{told, done, left_in};
ghost use Rattle.record_fields.specs.Tagged.{numbers_of, numbers_at};
ghost use Rattle.record_fields.specs.Fields.{layout};
ghost use Rattle.record.specs.Record.{write_of, read_of};
ghost use Rattle.record.specs.Room.{accepted_of};

use answers::Refusal;
pub use record_fields::Fields;

// Writes the record of a year into the first 25 bytes of a buffer.
#[tactic(auto, using(crate::proofs::Steps::writing))]
pub fn write_record(calendar: u64, year: u64, buffer: &mut [u8]) -> Result<(), Refusal>
    ensures refusal { told result ≡ done (write_of calendar year buffer.old) }
    ensures left { buffer.new ≡ left_in buffer.old (write_of calendar year buffer.old) }
{
    if buffer.len() < 25 {
        return Err(Refusal::WrongSize);
    }
    let fields = record_fields::fields_of(calendar, year)?;
    buffer[..25].copy_from_slice(&record_fields::bytes_of(fields));
    Ok(())
}

// The numbers in 25 bytes, each at its place.
#[tactic(auto, unfolding(record_fields::specs::Tagged::numbers_of, record_fields::specs::Tagged::number_at, record_fields::specs::Tagged::numbers_at))]
fn fields_at(bytes: &[u8; 25]) -> Fields
    ensures { numbers_of layout result ≡ numbers_at layout bytes.now 0 }
{
    Fields {
        calendar: bytes[3],
        year: u16::from_be_bytes([bytes[7], bytes[8]]),
        first_day: u32::from_be_bytes([bytes[12], bytes[13], bytes[14], bytes[15]]),
        leap: bytes[19],
        long_months: u16::from_be_bytes([bytes[23], bytes[24]]),
    }
}

// The fields that were found, if they are the rule's own for their calendar and year.
#[tactic(auto, using(crate::proofs::Steps::accepting))]
fn accepted(found: Fields) -> Result<Fields, Refusal>
    ensures { told result ≡ accepted_of (numbers_of layout found) }
{
    let own = record_fields::fields_of(u64::from(found.calendar), u64::from(found.year))?;
    if found != own {
        return Err(Refusal::WrongField);
    }
    Ok(own)
}

// Reads a record, and accepts none but the rule's own.
#[tactic(auto, using(crate::proofs::Steps::other_length))]
pub fn read_record(bytes: &[u8]) -> Result<Fields, Refusal>
    ensures { told result ≡ read_of bytes.now }
{
    let Ok(bytes) = <&[u8; 25]>::try_from(bytes) else {
        return Err(Refusal::WrongSize);
    };
    let found = fields_at(bytes);
    // Its numbers written anew differ from it in nothing but a tag or a length.
    if *bytes != record_fields::bytes_of(found) {
        return Err(Refusal::WrongTagOrLength);
    }
    accepted(found)
}
