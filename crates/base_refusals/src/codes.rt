// How the C interface tells an answer: 0, or the refusal's number.
ghost use Rattle.std.specs.Prelude.{◌≡◌};
ghost use Rattle.base_refusals.specs.Codes.{number_said};

use crate::Answer;

// 0, or the refusal's number.
pub fn number_of(answer: Answer) -> u8
    ensures { result ≡ number_said answer }
{
    match answer {
        Ok(()) => 0,
        Err(refusal) => refusal as u8,
    }
}
