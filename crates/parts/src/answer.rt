// What the call answers that lists the parts: nothing more, or why it is refused.
ghost use Rattle.std.specs.Prelude.{◌≡◌};
ghost use Rattle.parts.specs.Answers.{listing_number};

use table::judge::Refusal;

// The number of the refusal, or 0. It is no `From`: both types are the library's.
#[tactic(auto, unfolding(crate::specs::Answers::listing_number))]
pub fn listing_number(answer: Result<(), Refusal>) -> u32
    ensures { result ≡ listing_number answer }
{
    match answer {
        Ok(()) => 0,
        Err(why) => u32::from(why),
    }
}
