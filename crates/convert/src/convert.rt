// The converter: a table of one edition, written in the other. What is refused writes nothing.
ghost use Rattle.std.specs.Prelude.{◌≡◌, false, ◌∷◌, length};
ghost use Rattle.writing.specs.Answers.{numbers_of};
ghost use Rattle.writing.specs.Output.{Wrote};
ghost use Rattle.convert.specs.Conversion.{has_origin, with_output, Converted};

use table::accepted::Table;
use table::edition::Edition;
use table::judge::Refusal;
use writing::answer::refuse;

// Whether a rule has an origin.
fn has_origin(table: Table) -> bool
    ensures { result ≡ has_origin table.entry.layout.now table.entry.sizes }
{
    (0..usize::from(table.sizes.rules)).any(|r| 0 < u16::from(table.rule(r).origin))
}

// All of a slice into another of its length. Not by `copy_from_slice`: of that the compiler makes a call of memmove, and the header
// promises that memcpy and memset are all that is called of the C library.
fn copy_bytes(bytes: &[u8], out: &mut [u8])
    requires { length bytes.now ≡ length out.old }
    ensures { out.new ≡ bytes.now }
{
    for (i, byte) in bytes.iter().enumerate() {
        out[i] = *byte;
    }
}

// To edition two: an added 2, and then the layout.
fn to_two(table: Table, out: &mut [u8]) -> Result<u32, Refusal>
    ensures { Wrote (with_output table.entry.sizes false (2 ∷ table.entry.layout.now) (length out.old)) (2 ∷ table.entry.layout.now) out.old out.new result }
{
    let n = table.layout.len() + 1;
    if out.len() < n {
        return refuse(Refusal::ShortLog, out);
    }
    out[0] = 2;
    copy_bytes(table.layout, &mut out[1..n]);
    Ok(n as u32)
}

// Back: the layout alone, which has no place for an origin.
fn to_old(table: Table, out: &mut [u8]) -> Result<u32, Refusal>
    ensures { Wrote (with_output table.entry.sizes (has_origin table.entry.layout.now table.entry.sizes) table.entry.layout.now (length out.old)) table.entry.layout.now out.old out.new result }
{
    let n = table.layout.len();
    if out.len() < n {
        return refuse(Refusal::ShortLog, out);
    }
    if has_origin(table) {
        return refuse(Refusal::HasOrigin, out);
    }
    copy_bytes(table.layout, &mut out[..n]);
    Ok(n as u32)
}

// A refusal 1 to 7 of the table, 9 for a short output, 10 for an origin on the way back; or how many bytes the new file has.
pub fn convert(table: &[u8], edition: Edition, out: &mut [u8]) -> Result<u32, Refusal>
    ensures { Converted edition table.now out.old out.new (numbers_of result) }
{
    let accepted = Table::read(table, edition)?;
    match edition {
        Edition::Old => to_two(accepted, out),
        Edition::Two => to_old(accepted, out),
    }
}
