// The three answers, and what a call that asks for one gives.
ghost use Rattle.std.specs.Prelude.{◌≡◌};
ghost use Rattle.logic.specs.Standing.{first_fit, standing_number};
ghost use Rattle.standing.specs.Answers.{meant, numbers_of};

use table::judge::Refusal;

#[derive(Clone, Copy, PartialEq, Eq)]
pub enum Standing {
    // All antecedents have +∂.
    Firing,
    // One has −∂.
    Out,
    // Neither.
    Waiting,
}

// The first that fits, by the tests of firing and out.
#[tactic(auto, unfolding(crate::specs::Answers::meant))]
pub fn first_fit(firing: bool, out: bool) -> Standing
    ensures { meant result ≡ first_fit firing out }
{
    if firing {
        return Standing::Firing;
    }
    if out {
        return Standing::Out;
    }
    Standing::Waiting
}

impl From<Standing> for u32 {
    ghost from_gives = { λ how n. n ≡ standing_number (meant how) };

    #[tactic(auto, unfolding(crate::specs::Answers::meant, logic::specs::Standing::standing_number))]
    fn from(how: Standing) -> u32 {
        match how {
            Standing::Firing => 0,
            Standing::Out => 1,
            Standing::Waiting => 2,
        }
    }
}

// An answer in numbers. A console written in C reads it as it stands.
#[repr(C)]
#[derive(Clone, Copy)]
pub struct StandingNumbers {
    // 0, or the number of the refusal; then the other is 0
    pub refused: u32,
    // 0 firing, 1 out, 2 waiting
    pub standing: u32,
}

impl From<Result<Standing, Refusal>> for StandingNumbers {
    ghost from_gives = { λ answer numbers. numbers ≡ numbers_of answer };

    #[tactic(auto, unfolding(crate::specs::Answers::numbers_of))]
    fn from(answer: Result<Standing, Refusal>) -> StandingNumbers {
        match answer {
            Ok(how) => StandingNumbers {
                refused: 0,
                standing: u32::from(how),
            },
            Err(why) => StandingNumbers {
                refused: u32::from(why),
                standing: 0,
            },
        }
    }
}
