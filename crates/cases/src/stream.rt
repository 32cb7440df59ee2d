// A data file, read from start to end. The low byte of a number comes first. Past the end of a file a number is read as if every byte were
// 255, so that a count there is at least END, as is the mark that ends base.bin. Every other count is smaller.
ghost use Rattle.std.specs.Prelude.{◌≤◌, ◌<◌, length};

use crate::noise::SIZE;
use engine::reading::Reading;
use std::io::Read;
use table::edition::Edition;

pub const END: u32 = 65535;

// A log or a list in a file: how many words it says that it has, and those of their bytes that are there.
#[derive(Clone, Copy)]
pub struct Words<'a> {
    bytes: &'a [u8],
    count: usize,
    ghost in_buffer: { count ≤ 65536 },
}

impl Words<'_> {
    // The word at an index, none past the last. A byte past the end of the file is 255.
    pub fn get(self, i: usize) -> Option<u16> {
        if self.count <= i {
            return None;
        }
        let low = self.bytes.get(2 * i).copied().unwrap_or(255);
        let high = self.bytes.get(2 * i + 1).copied().unwrap_or(255);
        Some(u16::from_le_bytes([low, high]))
    }
}

// What is left of the file, and as many zeros as a buffer holds.
#[derive(Drop)]
pub struct Stream<'a> {
    rest: &'a [u8],
    ghost padded: { 65536 ≤ length rest.now },
}

impl<'a> Stream<'a> {
    // A file with such zeros past its end.
    pub fn new(padded: &'a [u8]) -> Self
        requires { 65536 ≤ length padded.now }
    {
        Stream { rest: padded }
    }

    // The next n bytes, as many as there are.
    fn left(&mut self, n: usize) -> &'a [u8] {
        let n = n.min(self.rest.len() - SIZE);
        let (bytes, rest) = self.rest.split_at(n);
        self.rest = rest;
        bytes
    }

    fn array<const N: usize>(&mut self) -> [u8; N] {
        let mut bytes = [255; N];
        let mut left = self.left(N);
        left.read(&mut bytes).unwrap();
        bytes
    }

    // A number of two bytes.
    pub fn word(&mut self) -> u16 {
        u16::from_le_bytes(self.array())
    }

    // A number of four bytes.
    pub fn long(&mut self) -> u32 {
        u32::from_le_bytes(self.array())
    }

    // A field that is a number: its count is 4.
    pub fn number(&mut self) -> u32 {
        self.long();
        self.long()
    }

    // A field that is the number of an edition.
    pub fn edition(&mut self) -> Edition {
        match self.number() {
            1 => Edition::Old,
            _ => Edition::Two,
        }
    }

    // A field that is the number of a reading.
    pub fn reading(&mut self) -> Reading {
        match self.number() {
            0 => Reading::Plain,
            _ => Reading::WellFounded,
        }
    }

    // A field that says how much of a buffer is borrowed.
    pub fn size(&mut self) -> usize
        ensures { result < 65536 }
    {
        (self.number() % 65536) as usize
    }

    // The next n bytes, no more than a buffer holds and than there are.
    pub fn bytes_left(&mut self, n: u32) -> &'a [u8] {
        self.left((n % 65536) as usize)
    }

    // The next n bytes, no more than a buffer holds. They are 0 past the end of the file.
    pub fn bytes(&mut self, n: u32) -> &'a [u8] {
        let padded = self.rest;
        self.bytes_left(n);
        &padded[..(n % 65536) as usize]
    }

    // The next n words, no more than a buffer holds.
    pub fn words(&mut self, n: u32) -> Words<'a> {
        let count = SIZE.min(n as usize);
        Words {
            bytes: self.left(2 * count),
            count,
        }
    }
}
