// How an answer is given to C: its number, 0 if nothing is refused, and what was asked for at a lent place.
ghost use Rattle.std.specs.Prelude.{◌≡◌};
ghost use Rattle.facts.specs.Answer.{number_of, value_or};

use facts::Refusal;

// Returns the number; what the answer gives goes to `place`, and `refused` if it is a refusal.
pub fn give<T: Copy>(answer: Result<T, Refusal>, refused: T, place: &mut T) -> u64
    ensures number { result ≡ number_of answer }
    ensures value { place.new ≡ value_or refused answer }
{
    match answer {
        Ok(value) => {
            *place = value;
            0
        }
        Err(refusal) => {
            *place = refused;
            u64::from(refusal)
        }
    }
}
