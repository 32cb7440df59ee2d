// The verdict of an atom by the lines of a log.
ghost use Rattle.std.specs.Prelude.{◌*◌, ◌≡◌};
ghost use Rattle.logic.specs.Tests.{isnt};
ghost use Rattle.logic.specs.Reading.{tagged_by};
ghost use Rattle.logic.specs.Theory.{atom};
ghost use Rattle.logic.specs.Verdict.{first_fit, verdict_by};
ghost use Rattle.standing.specs.Marks.{marked};
ghost use Rattle.report.specs.Text.{meant, word_of};

use standing::marks::{has_line, is_marked};
use table::format::Literal;
use values::both;

#[derive(Clone, Copy)]
pub enum Verdict {
    Clash,
    Go,
    Hold,
    Idle,
    Split,
    Open,
}

#[tactic(auto, unfolding(crate::specs::Text::meant))]
fn first_fit(clash: bool, go: bool, hold: bool, idle: bool, split: bool) -> Verdict
    ensures { meant result ≡ first_fit clash go hold idle split }
{
    if clash {
        return Verdict::Clash;
    }
    if go {
        return Verdict::Go;
    }
    if hold {
        return Verdict::Hold;
    }
    if idle {
        return Verdict::Idle;
    }
    if split {
        return Verdict::Split;
    }
    Verdict::Open
}

// The verdict of an atom, by the literal that says that it holds, and by the marks of the lines and of the literals that have a supporter
// which is not out.
pub fn verdict_of(marks: &[u8], supported: &[u8], q: Literal) -> Verdict
    requires { q.0 ≡ 2 * atom q.0 }
    ensures { meant result ≡ verdict_by (tagged_by 4 (marked marks.now)) (λ p. isnt (marked supported.now p)) (atom q.0) }
{
    let n = q.complement();
    let proved = has_line(marks, q, 2);
    let opposed = has_line(marks, n, 2);
    let refuted = has_line(marks, q, 3);
    let unopposed = has_line(marks, n, 3);
    let clash = both(proved, opposed);
    let split = both(refuted, unopposed);
    let for_it = is_marked(supported, usize::from(q.0));
    let against_it = is_marked(supported, usize::from(n.0));
    let idle = both(split, both(!for_it, !against_it));
    first_fit(clash, proved, opposed, idle, split)
}

// Fixed bytes, as document 01 names the form; an `impl Display` would need a formatter over the sheet's fixed bytes.
#[tactic(auto, unfolding(crate::specs::Text::meant, crate::specs::Text::word_of))]
pub fn word(v: Verdict) -> &'static [u8]
    ensures { result.now ≡ word_of (meant v) }
{
    match v {
        Verdict::Clash => b"clash",
        Verdict::Go => b"go",
        Verdict::Hold => b"hold",
        Verdict::Idle => b"idle",
        Verdict::Split => b"split",
        Verdict::Open => b"open",
    }
}
