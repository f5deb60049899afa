// How a refusal is handed over, and an answer that is a length.
ghost use Rattle.std.specs.Prelude.{◌≡◌, ◌∷◌, ◌-◌, ◌<◌, replicate};
ghost use Rattle.editions.specs.Calls.{converted_answer};
ghost use Rattle.exports.specs.Cases.{written_fields};
ghost use Rattle.exports.specs.Fields.{converted_fields};
ghost use Rattle.paging.specs.Numbers.{number_of};

use paging::Refusal;

// A refusal's number, and zeros behind it.
pub(crate) fn refused<const N: usize>(reason: Refusal) -> [u64; N]
    requires { 0 < N }
    ensures { result ≡ number_of reason ∷ replicate (N - 1) 0 }
{
    let mut fields = [0; N];
    fields[0] = u64::from(reason.number());
    fields
}

// 0 and the length, or the offset behind a record; for a refusal its number and 0. The editions and the writers answer alike.
pub(crate) fn length_fields(answer: Result<usize, Refusal>) -> [u64; 2]
    ensures edition { result ≡ converted_fields (converted_answer answer) }
    ensures writer { result ≡ written_fields answer }
{
    match answer {
        Ok(length) => [0, length as u64],
        Err(reason) => [u64::from(reason.number()), 0],
    }
}
