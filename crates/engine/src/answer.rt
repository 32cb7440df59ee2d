// What a run answers.
ghost use Rattle.std.specs.Prelude.{◌≡◌};
ghost use Rattle.engine.specs.Answers.{run_numbers, numbers_of};

use table::judge::Refusal;

// How many lines were written, how many of them were worked, and what was spent.
#[derive(Clone, Copy)]
pub struct Counts {
    pub lines: u32,
    pub worked: u32,
    pub spent: u32,
}

// An enum of its own, and no Result: document 01 asks for an answer of three cases that holds the refusal.
#[derive(Clone, Copy)]
pub enum Answer {
    Refused(Refusal),
    Stopped(Counts),
    Finished(Counts),
}

// An answer in document 01's numbers. A console written in C reads it as it stands.
#[repr(C)]
#[derive(Clone, Copy)]
pub struct Numbers {
    // 0, or the number of the refusal; then the other four are 0
    pub refused: u32,
    // 1 if the run finished, 0 if the budget stopped it
    pub finished: u32,
    pub lines: u32,
    pub worked: u32,
    pub spent: u32,
}

fn run_numbers(finished: u32, c: Counts) -> Numbers
    ensures { result ≡ run_numbers finished c }
{
    Numbers {
        refused: 0,
        finished,
        lines: c.lines,
        worked: c.worked,
        spent: c.spent,
    }
}

impl From<Answer> for Numbers {
    ghost from_gives = { λ answer numbers. numbers ≡ numbers_of answer };

    #[tactic(auto, unfolding(crate::specs::Answers::numbers_of))]
    fn from(answer: Answer) -> Numbers {
        match answer {
            Answer::Refused(why) => Numbers {
                refused: u32::from(why),
                finished: 0,
                lines: 0,
                worked: 0,
                spent: 0,
            },
            Answer::Stopped(c) => run_numbers(0, c),
            Answer::Finished(c) => run_numbers(1, c),
        }
    }
}
