// What came beside what was wanted: a difference where the two are not equal.
use std::fmt;

// What is compared.
#[derive(Clone, Copy)]
pub enum What {
    Judged,
    Refused,
    Finished,
    Lines,
    Worked,
    Spent,
    Length,
    Log,
    Scratch,
    Byte,
    Fact,
    Kind,
    Origin,
    Head,
    Rule,
    Literal,
    Stronger,
    Weaker,
    List,
}

impl fmt::Display for What {
    fn fmt<W: fmt::Write>(&self, f: &mut fmt::Formatter<W>) -> fmt::Result {
        f.pad(match self {
            What::Judged => "judged",
            What::Refused => "refused",
            What::Finished => "finished",
            What::Lines => "lines",
            What::Worked => "worked",
            What::Spent => "spent",
            What::Length => "length",
            What::Log => "log",
            What::Scratch => "scratch",
            What::Byte => "byte",
            What::Fact => "fact",
            What::Kind => "kind",
            What::Origin => "origin",
            What::Head => "head",
            What::Rule => "rule",
            What::Literal => "literal",
            What::Stronger => "stronger",
            What::Weaker => "weaker",
            What::List => "list",
        })
    }
}

// The place is the index of a word or a byte, 0 for a number.
#[derive(Clone, Copy)]
pub struct Difference {
    what: What,
    place: usize,
    came: u32,
    wanted: u32,
}

impl fmt::Display for Difference {
    fn fmt<W: fmt::Write>(&self, f: &mut fmt::Formatter<W>) -> fmt::Result {
        let Difference {
            what,
            place,
            came,
            wanted,
        } = *self;
        write!(
            f,
            "{what:>9} {place}{:>9} {came}{:>9} {wanted}",
            "came", "wanted"
        )
    }
}

// The difference of two numbers that stand at a place.
fn at_place(what: What, place: usize, came: u32, wanted: u32) -> Option<Difference> {
    if came == wanted {
        return None;
    }
    Some(Difference {
        what,
        place,
        came,
        wanted,
    })
}

// The difference of two numbers.
pub fn differs<N: Into<u32>>(what: What, came: N, wanted: N) -> Option<Difference> {
    at_place(what, 0, came.into(), wanted.into())
}

// The first difference of the items of a buffer, of which each place must hold what is wanted there.
pub fn items_differ<N: Into<u32> + Copy, F: Fn(usize) -> N>(
    what: What,
    came: &[N],
    wanted: F,
) -> Option<Difference>
    requires { F.IsAlwaysCallable wanted }
{
    came.iter().enumerate().find_map(|(i, item)| at_place(
        what,
        i,
        (*item).into(),
        wanted(i).into(),
    ))
}
