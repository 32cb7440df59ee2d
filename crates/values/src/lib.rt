// Small functions that several crates share. A test or a cast that goes by value through one leaves one fact to its caller, and no branch.
#![tactic(auto)]

ghost use Rattle.std.specs.Prelude.{◌+◌, ◌≤◌, ◌<◌, ◌≡◌, ◌++◌, length, take, drop};
ghost use Rattle.logic.specs.Tests.{◌and◌, ◌or◌, weigh};

pub fn both(a: bool, b: bool) -> bool
    ensures { result ≡ (a and b) }
{
    a && b
}

pub fn either(a: bool, b: bool) -> bool
    ensures { result ≡ (a or b) }
{
    a || b
}

// A count, with one more if the test says so.
pub fn add_if(n: usize, test: bool) -> usize
    requires { n < 65535 }
    ensures { result ≡ n + weigh test 1 }
{
    n + usize::from(test)
}

// The first n words of one slice into another.
pub fn copy_words(from: &[u16], n: usize, to: &mut [u16])
    requires { (n ≤ length from.now) × (n ≤ length to.old) }
    ensures { to.new ≡ take n from.now ++ drop n to.old }
{
    to[..n].copy_from_slice(&from[..n]);
}
