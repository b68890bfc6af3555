// Prints the months of the year that the first line of standard input asks for, or the refusal.
#![tactic(auto)]

ghost use Rattle.std.specs.Prelude.{◌≤◌, length, IfOk};

use std::io;
use std::io::Read;

// A byte of the input, or none at its end.
fn read_byte(input: &mut impl Read) -> io::Result<Option<u8>> {
    let mut byte = [0u8; 1];
    if input.read(&mut byte)? == 0 {
        return Ok(None);
    }
    Ok(Some(byte[0]))
}

// Reads until a line feed, or the end of the input or of the buffer: a line is answered as soon as it is there.
fn read_line(input: &mut impl Read, buffer: &mut [u8]) -> io::Result<usize>
    ensures { IfOk result (λ read. read ≤ length buffer.new) }
{
    for (read, place) in buffer.iter_mut().enumerate() {
        let Some(byte) = read_byte(input)? else {
            return Ok(read);
        };
        *place = byte;
        if byte == b'\n' {
            return Ok(read + 1);
        }
    }
    Ok(buffer.len())
}

fn main(rt: HostRuntime) -> io::Result<()> {
    let mut buffer = [0u8; 20];
    let read = read_line(&mut rt.stdin(), &mut buffer)?;
    year_print::print_answer(&rt, &buffer[..read])?;
    Ok(())
}
