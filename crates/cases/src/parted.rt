// The records of parts, after their table.
use crate::difference::{Difference, What, differs};
use crate::noise::{SIZE, noise};
use crate::records::written_differs;
use crate::runs::words_differ;
use crate::stream::Stream;
use parts::answer::listing_number;
use parts::list::parts;
use parts::part::part;
use std::array;

// parts.bin and lists.bin: the edition, how many words of list are borrowed, the refusal, and the words, past which the list is as it was.
pub fn list_differs(rest: &mut Stream, record: u32, table: &[u8]) -> Option<Difference> {
    let edition = rest.edition();
    let k = rest.size();
    let refused = rest.number();
    let n = rest.long() / 2;
    let words = rest.words(n);
    let mut list: [u16; SIZE] = array::from_fn(|i| noise(record, i));
    let came = listing_number(parts(table, edition, &mut list[..k]));
    differs(What::Refused, came, refused).or(words_differ(What::List, &list, words, record))
}

// part-tables.bin and parted.bin: the edition, the atom, and what is written.
pub fn part_differs(rest: &mut Stream, record: u32, table: &[u8]) -> Option<Difference> {
    let edition = rest.edition();
    let atom = rest.number();
    written_differs(rest, record, |out| part(table, edition, atom, out))
}
