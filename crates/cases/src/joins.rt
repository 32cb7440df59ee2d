// The records of joins, after the house.
use crate::difference::Difference;
use crate::records::written_differs;
use crate::stream::Stream;
use join::join::join;

// joins.bin: the tour, the edition, and what is written.
pub fn join_differs(rest: &mut Stream, record: u32, house: &[u8]) -> Option<Difference> {
    let n = rest.long();
    let tour = rest.bytes(n);
    let edition = rest.edition();
    written_differs(rest, record, |out| join(house, tour, edition, out))
}
