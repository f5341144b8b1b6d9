// Reads records of a two-byte length, big-endian, and a text, and writes what each text comes to on a new table of types.
#![tactic(auto)]

ghost use Rattle.texts.specs.Spans.{Within};

use annotation::reader::Reader;
use std::io;
use std::io::Read;
use typing::types::Types;

// The most bytes that are read.
const MOST: u64 = 1000000;

// The text of the record at the front, and what follows the record, if a whole one stands there.
fn record(bytes: &[u8]) -> Option<(&[u8], &[u8])>
    ensures { Within bytes.now result }
{
    let (size, rest) = bytes.split_first_chunk::<2>()?;
    rest.split_at_checked(usize::from(u16::from_be_bytes(*size)))
}

fn show(rt: &HostRuntime, reader: &mut Reader, text: &[u8]) -> io::Result<()> {
    let mut types = Types::new(rt.alloc())?;
    match reader.read(text, &mut types) {
        Ok(_) => println!(rt; "ok"),
        Err(fault) => {
            let code = fault.code();
            let byte = fault.byte();
            println!(rt; "fault {code} {byte}")
        }
    }
}

fn main(rt: HostRuntime) -> io::Result<()> {
    let mut bytes = Vec::new(rt.alloc());
    rt.stdin().take(MOST).read_to_end(&mut bytes)?;
    let mut reader = Reader::new(rt.alloc())?;
    let mut rest = bytes.as_slice();
    while let Some((text, more)) = record(rest) {
        show(&rt, &mut reader, text)?;
        rest = more;
    }
    Ok(())
}
