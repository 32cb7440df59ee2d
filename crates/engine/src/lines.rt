// The lines of a run.
ghost use Rattle.table.specs.Tables.{theory_said};
ghost use Rattle.engine.specs.Working.{Logged};

use table::accepted::Table;

// The lines that were written for a table, in the two buffers that a run is lent. The memory says what is written and what is processed; the
// log has in its first `count` words what is written, in its order.
#[derive(Drop)]
pub struct Lines<'a> {
    pub table: Table<'a>,
    pub mem: &'a mut [u16],
    pub log: &'a mut [u16],
    pub count: u32,
    pub ghost logged: { Logged (theory_said table) mem.now log.now count },
}
