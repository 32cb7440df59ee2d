// What a call answers that writes a table: how many bytes it has, or why it is refused.
ghost use Rattle.std.specs.Prelude.{◌≡◌, Err};
ghost use Rattle.writing.specs.Answers.{numbers_of};

use table::judge::Refusal;

// "a refusal leaves the output untouched"
pub fn refuse(refusal: Refusal, out: &mut [u8]) -> Result<u32, Refusal>
    ensures { (result ≡ Err refusal) × (out.new ≡ out.old) }
{
    Err(refusal)
}

// An answer in numbers. A console written in C reads it as it stands.
#[repr(C)]
#[derive(Clone, Copy)]
pub struct WrittenNumbers {
    // 0, or the number of the refusal; then the other is 0
    pub refused: u32,
    pub bytes: u32,
}

impl From<Result<u32, Refusal>> for WrittenNumbers {
    ghost from_gives = { λ answer numbers. numbers ≡ numbers_of answer };

    #[tactic(auto, unfolding(crate::specs::Answers::numbers_of))]
    fn from(answer: Result<u32, Refusal>) -> WrittenNumbers {
        match answer {
            Err(why) => WrittenNumbers {
                refused: u32::from(why),
                bytes: 0,
            },
            Ok(n) => WrittenNumbers {
                refused: 0,
                bytes: n,
            },
        }
    }
}
