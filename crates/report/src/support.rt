// Which literals have a supporter that is not out: an atom is idle only where neither of its literals has one (document 02, S-6). All of them
// by one pass over the entries and one over the rules.
ghost use Rattle.std.specs.Prelude.{◌≡◌};
ghost use Rattle.logic.specs.Tests.{isnt};
ghost use Rattle.logic.specs.Theory.{can_support};
ghost use Rattle.logic.specs.Standing.{first_fit, is_out};
ghost use Rattle.table.specs.Format.{kind_meant};
ghost use Rattle.table.specs.Tables.{theory_said};
ghost use Rattle.standing.specs.Marks.{marked};
ghost use Rattle.standing.specs.Answers.{meant, standing_by};
ghost use Rattle.report.specs.Printing.{Supported};

use standing::answer::Standing;
use standing::marks::mark;
use standing::standings::{standing_at, standings_of};
use table::accepted::Table;
use table::format::{Kind, Sizes};

#[tactic(auto, unfolding(logic::specs::Theory::can_support, table::specs::Format::kind_meant))]
fn can_support(kind: Kind) -> bool
    ensures { result ≡ can_support (kind_meant kind) }
{
    matches!(kind, Kind::Strict | Kind::Defeasible)
}

#[tactic(auto, unfolding(logic::specs::Standing::is_out, standing::specs::Answers::meant))]
fn is_out(how: Standing) -> bool
    ensures { result ≡ is_out (meant how) }
{
    how == Standing::Out
}

// By the marks of the rules that lack +∂ of an antecedent, and of those with −∂ of one.
fn supported_by(table: Table, lacking: &[u8], refuted: &[u8]) -> [u8; 1024]
    ensures { Supported (theory_said table.entry) (λ r. first_fit (isnt (marked lacking.now r)) (marked refuted.now r)) result }
{
    let mut supported = [0u8; 2 * Sizes::MAX_ATOMS as usize];
    for r in 0..usize::from(table.sizes.rules) {
        let rule = table.rule(r);
        let out = is_out(standing_at(lacking, refuted, r));
        mark(&mut supported, rule.head.0, can_support(rule.kind) && !out);
    }
    supported
}

// By the marks of the lines.
pub fn supported_of(table: Table, marks: &[u8]) -> [u8; 1024]
    ensures { Supported (theory_said table.entry) (λ r. standing_by table.entry.layout.now table.entry.sizes r marks.now) result }
{
    let standings = standings_of(table.layout, table.sizes, marks);
    supported_by(table, &standings.lacking, &standings.refuted)
}
