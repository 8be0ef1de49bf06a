// What a derivative's answer says in the paper's words (specs/Answers.antt). Its number is that of its
// refusal.
ghost use Rattle.std.specs.Prelude.{◌≡◌};
ghost use Rattle.slopes.specs.Answers.{value_of};

// Its value, which a refusal lacks. By cases and not `ok`, since the edits `value_turned` and
// `refusal_valued` are a wrong case each.
pub fn value<E: Copy>(answer: Result<f64, E>) -> Option<f64>
    ensures { result ≡ value_of answer }
{
    match answer {
        Ok(x) => Some(x),
        Err(_) => None,
    }
}
