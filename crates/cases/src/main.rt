// Runs the cases that are not theorems, from the data files, and compares. Each file has a line with the number of its records and of
// those that gave what they must. Before it, each other record has a line: the file, the record's number, what differs first and
// its place, what came and what was wanted.
#![tactic(auto)]

mod difference;
mod joins;
mod noise;
mod parted;
mod readers;
mod records;
mod runs;
mod stream;

use difference::Difference;
use joins::join_differs;
use noise::SIZE;
use parted::{list_differs, part_differs};
use readers::readers_differ;
use records::{
    base_differs, body_differs, conversion_differs, made_differ, readings_differ, searched_differs,
    sheet_differs, told_differ,
};
use std::fs::{File, OpenFile};
use std::io;
use std::io::{ErrorKind, Read};
use std::rt::Files;
use stream::{END, Stream};

// More records than any file has.
const LIMIT: u32 = 65536;

// The bytes of a data file, none where there is no such file. Where the file says how long it is, room is made at once for it and for the zeros
// that come behind it: a vector that grows by itself doubles. A pipe says nothing.
fn bytes_of(rt: &(impl Files + AllocGlobal), file: &str) -> io::Result<Vec<u8>> {
    let mut bytes = Vec::new(rt.alloc());
    let mut opened = match File::open(rt, file) {
        Err(e) if e.kind() == ErrorKind::NotFound => return Ok(bytes),
        opened => opened?,
    };
    let size = opened.metadata()?.len() as usize;
    if 0 < size {
        bytes.reserve_exact(size.saturating_add(SIZE))?;
    }
    opened.read_to_end(&mut bytes)?;
    bytes.reserve_exact(SIZE)?;
    Ok(bytes)
}

// The records of a file, by how the count of a record's table, or house, is read, and by what differs first in the rest of the record. A
// file that is not there has no records.
fn try_counted<
    R: Files + AllocGlobal + Print,
    C: Fn(&mut Stream) -> u32,
    D: Fn(&mut Stream, u32, &[u8]) -> Option<Difference>,
>(rt: &R, file: &str, count: C, differs: D) -> io::Result<()>
    requires counts { C.IsAlwaysCallable count }
    requires compares { D.IsAlwaysCallable differs }
{
    let mut bytes = bytes_of(rt, file)?;
    // A field that runs past the file's end is read on into zeros.
    bytes.extend_from_slice(&[0; SIZE])?;
    let mut rest = Stream::new(bytes.as_slice());
    let mut records: u32 = 0;
    let mut same: u32 = 0;
    for number in 0..LIMIT {
        let n = count(&mut rest);
        if END <= n {
            break;
        }
        let table = rest.bytes(n);
        match differs(&mut rest, number, table) {
            None => same += 1,
            Some(d) => println!(rt; "{file} {number}{d}")?,
        }
        records += 1;
    }
    println!(rt; "{file} {records} same {same}")
}

// A count has four bytes.
fn try_file<R: Files + AllocGlobal + Print, D: Fn(&mut Stream, u32, &[u8]) -> Option<Difference>>(
    rt: &R,
    file: &str,
    differs: D,
) -> io::Result<()>
    requires { D.IsAlwaysCallable differs }
{
    try_counted(rt, file, |rest| rest.long(), differs)
}

fn main(rt: HostRuntime) -> io::Result<()> {
    // A count has two bytes here.
    try_counted(&rt, "base.bin", |rest| u32::from(rest.word()), base_differs)?;
    try_file(&rt, "made.bin", made_differ)?;
    try_file(&rt, "short-logs.bin", made_differ)?;
    try_file(&rt, "told.bin", told_differ)?;
    try_file(&rt, "well-founded.bin", searched_differs)?;
    try_file(&rt, "readings.bin", readings_differ)?;
    try_file(
        &rt,
        "bodies.bin",
        |rest, _, table| body_differs(rest, table),
    )?;
    try_file(
        &rt,
        "readers.bin",
        |rest, _, table| readers_differ(rest, table),
    )?;
    try_file(
        &rt,
        "sheets-S6.bin",
        |rest, _, table| sheet_differs(rest, table),
    )?;
    try_file(
        &rt,
        "longest.bin",
        |rest, _, table| sheet_differs(rest, table),
    )?;
    try_file(&rt, "editions.bin", conversion_differs)?;
    try_file(&rt, "conversions.bin", conversion_differs)?;
    try_file(&rt, "joins.bin", join_differs)?;
    try_file(&rt, "parts.bin", list_differs)?;
    try_file(&rt, "lists.bin", list_differs)?;
    try_file(&rt, "part-tables.bin", part_differs)?;
    try_file(&rt, "parted.bin", part_differs)
}
