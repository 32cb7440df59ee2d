// Document 01, The sheet: a table in the old layout (document 02, S-5) judged, run in the plain reading with the bound as budget, and
// printed into an array.
ghost use Rattle.std.specs.Prelude.{◌+◌, ◌*◌, ◌≤◌, ◌≡◌, length, take};
ghost use Rattle.logic.specs.Tests.{isnt};
ghost use Rattle.logic.specs.Reading.{tagged_by};
ghost use Rattle.logic.specs.Verdict.{verdict_by};
ghost use Rattle.table.specs.Refusals.{number_of};
ghost use Rattle.table.specs.Tables.{theory_said};
ghost use Rattle.standing.specs.Marks.{marked};
ghost use Rattle.report.specs.Sheet.{atom_line, atom_lines, count_line, spent_line, run_sheet, refused_sheet, sheet_of, Printed};
ghost use Rattle.report.specs.Printing.{Put, FitsRun};
ghost use Rattle.report.specs.Text.{meant};

use crate::support::supported_of;
use crate::verdict::{Verdict, verdict_of, word};
use content::readers::sizes_of;
use engine::answer::{Answer, Counts};
use engine::reading::Reading;
use engine::run::{SCRATCH, run};
use standing::marks::marks_of;
use table::accepted::Table;
use table::edition::{Edition, layout};
use table::format::{Literal, Sizes};
use table::judge::Refusal;

// A sheet: its bytes, and zeros past them. The longest has 5,041: 512 atoms that clash or are split, and five digits spent of five. It is
// an array with a length, in place of a `Vec`, since memory is fixed, and `Printed` is about both.
#[derive(Clone, Copy)]
pub struct Sheet {
    pub bytes: [u8; 5041],
    pub length: usize,
}

// 5A + F + N + 3B + 3P.
fn bound_of(s: Sizes) -> u32
    ensures { result ≡ 5 * s.atoms + s.facts + s.rules + 3 * s.entries + 3 * s.pairs }
{
    5 * u32::from(s.atoms)
        + u32::from(s.facts)
        + u32::from(s.rules)
        + 3 * u32::from(s.entries)
        + 3 * u32::from(s.pairs)
}

impl Sheet {
    // `atoms 2`
    #[tactic(auto, unfolding(crate::specs::Sheet::count_line))]
    fn put_count(&mut self, atoms: u16)
        requires { self.old.length + length (count_line atoms) ≤ 5041 }
        ensures { Put self.old.bytes self.old.length (count_line atoms) self.new.bytes self.new.length }
    {
        self.put(b"atoms ");
        self.put_number(u32::from(atoms));
        self.put(b"\n");
    }

    // `0 go`
    #[tactic(auto, unfolding(crate::specs::Sheet::atom_line))]
    fn put_atom(&mut self, a: u16, v: Verdict)
        requires { self.old.length + length (atom_line a (meant v)) ≤ 5041 }
        ensures { Put self.old.bytes self.old.length (atom_line a (meant v)) self.new.bytes self.new.length }
    {
        self.put_number(u32::from(a));
        self.put(b" ");
        self.put(word(v));
        self.put(b"\n");
    }

    // By the literals that say that an atom holds.
    fn put_atoms(&mut self, marks: &[u8], supported: &[u8], atoms: u16)
        requires { (self.old.length ≤ 10) × (atoms ≤ 512) }
        ensures { Put self.old.bytes self.old.length (atom_lines (verdict_by (tagged_by 4 (marked marks.now)) (λ q. isnt (marked supported.now q))) atoms) self.new.bytes self.new.length }
    {
        for a in 0..atoms {
            let v = verdict_of(marks, supported, Literal(2 * a));
            self.put_atom(a, v);
        }
    }

    // `spent 17 of 19`
    #[tactic(auto, unfolding(crate::specs::Sheet::spent_line))]
    fn put_spent(&mut self, spent: u32, most: u32)
        requires { self.old.length + length (spent_line spent most) ≤ 5041 }
        ensures { Put self.old.bytes self.old.length (spent_line spent most) self.new.bytes self.new.length }
    {
        self.put(b"spent ");
        self.put_number(spent);
        self.put(b" of ");
        self.put_number(most);
        self.put(b"\n");
    }

    // The sheet of an accepted table's run, by the run's log. It is not taken into its caller, where its arrays would lie under the run.
    #[inline(never)]
    #[tactic(auto, using(table::proofs::Legal::limited, crate::proofs::Lengths::count_length, crate::proofs::Lengths::spent_length, crate::proofs::Lengths::lines_room))]
    fn put_run(&mut self, table: Table, log: &[u16], c: Counts, most: u32)
        requires { FitsRun (theory_said table) most log.now c × (self.old.length ≡ 0) }
        ensures { Put self.old.bytes self.old.length (run_sheet (theory_said table.entry) (take c.lines log.now) c.spent most) self.new.bytes self.new.length }
    {
        let atoms = table.sizes.atoms;
        let lines = &log[..c.lines as usize];
        let marks = marks_of(lines);
        let supported = supported_of(table, &marks);
        self.put_count(atoms);
        self.put_atoms(&marks, &supported, atoms);
        self.put_spent(c.spent, most);
    }

    // `refused 7`
    fn put_refused(&mut self, why: Refusal)
        requires { self.old.length ≡ 0 }
        ensures { Put self.old.bytes self.old.length (refused_sheet (number_of why)) self.new.bytes self.new.length }
    {
        self.put(b"refused ");
        self.put_number(u32::from(why));
        self.put(b"\n");
    }

    // The layout and the sizes are read before the run judges them, since the bound is the run's budget. It is not taken into its callers,
    // in which more copies of the bytes would be made.
    #[inline(never)]
    fn put_sheet(&mut self, table: &[u8])
        requires { self.old.length ≡ 0 }
        ensures { Put self.old.bytes self.old.length (sheet_of table.now) self.new.bytes self.new.length }
    {
        let sizes = sizes_of(table, Edition::Old);
        let layout = layout(table, Edition::Old);
        let most = bound_of(sizes);
        let mut log = [0u16; 4 * Sizes::MAX_ATOMS as usize];
        let mut scratch = [0u16; SCRATCH];
        match run(
            table,
            Edition::Old,
            Reading::Plain,
            most,
            &mut log,
            &mut scratch,
        ) {
            Answer::Refused(why) => self.put_refused(why),
            Answer::Stopped(c) | Answer::Finished(c) => {
                self.put_run(Table { layout, sizes }, &log, c, most)
            }
        }
    }
}

pub fn sheet_of(table: &[u8]) -> Sheet
    ensures { Printed table.now result.bytes result.length }
{
    let bytes = [0u8; 5041];
    let mut sheet = Sheet { bytes, length: 0 };
    sheet.put_sheet(table);
    sheet
}
