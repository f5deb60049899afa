// The calls on pages of documents 01 and 02, made with the numbers and lists of a row; each prints its answer.
//   traces      whole traces
//   requests    single requests and questions
//   mark_cases  marking with priorities RDM
#![tactic(auto)]

use cases_rows::call::Call;
use cases_rows::row::Asked;
use cases_rows::show;

mod mark_cases;
mod requests;
mod traces;

// Makes a call, or prints a list as it now is. Marking leaves the lists of the row as they are. False where the call is none of these.
pub fn answer(
    rt: &impl Print,
    asked: Asked,
    first: &mut [u32],
    second: &mut [u32],
    third: &mut [u32],
) -> bool {
    let n = asked.numbers;
    match asked.call {
        Call::Min => traces::min(rt, n, first),
        Call::Lru => traces::lru(rt, n, first),
        Call::Oldest => traces::fifo(rt, n, first),
        Call::Layers => traces::layers(rt, n, first, second, third),
        Call::Steps => traces::steps(rt, n, first, second, third),
        Call::Rules => traces::rules(rt, n, first, second, third),
        Call::Cache => requests::lru(rt, n, first, second),
        Call::Load => requests::fifo(rt, n, first, second),
        Call::CachePreview => requests::lru_preview(rt, n, first, second),
        Call::LoadPreview => requests::fifo_preview(rt, n, first, second),
        Call::Table => requests::table(rt, n, first, second),
        Call::Revealed => requests::revealed(rt, n, first, second),
        Call::Possible => requests::possible(rt, n, first, second, third),
        Call::Mark => mark_cases::request(rt, n, first, second),
        Call::Rdm => mark_cases::over_trace(rt, n, first, second),
        Call::First => show::list(rt, first),
        Call::Second => show::list(rt, second),
        _ => return false,
    }
    true
}
