// Prints the sheet of the table on standard input. At most 32,779 bytes are read: one more than the longest table has.
#![tactic(auto)]

ghost use Rattle.std.specs.Prelude.{◌≤◌, length, IfOk};

use report::sheet::sheet_of;
use std::io;
use std::io::{Read, Write};
use table::format::Sizes;

// Reads until the buffer is full or the input ends, and says how many bytes came. A read gives a byte at least, so that no more of them
// are needed than the buffer has bytes.
fn read_full(reader: &mut impl Read, buffer: &mut [u8]) -> io::Result<usize>
    ensures { IfOk result (λ n. n ≤ length buffer.new) }
{
    let mut n: usize = 0;
    for _ in 0..buffer.len() {
        let k = reader.read(&mut buffer[n..])?;
        if k == 0 {
            break;
        }
        n += k;
    }
    Ok(n)
}

fn main(rt: HostRuntime) -> io::Result<()> {
    let mut input = [0u8; Sizes::MAX_BYTES + 1];
    let n = read_full(&mut rt.reader(), &mut input)?;
    let sheet = sheet_of(&input[..n]);
    io::writer(&rt).write_all(&sheet.bytes[..sheet.length])
}
