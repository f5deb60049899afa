// All records of the schedule, one after the other.
ghost use Rattle.std.specs.Prelude.{◌≤◌, ◌≡◌, length};
ghost use Rattle.judging.specs.Judging.{ended};
ghost use Rattle.judge.specs.inner.Places.{standing, Sound};
ghost use Rattle.judge.specs.inner.Verdicts.{verdict_answer, turn_answer, place_answer, SoundTurn, AtMost};

use crate::buffer::Held;
use crate::closing::close_open;
use crate::entries::{bundle, fetch};
use crate::many::after;
use crate::place::{Files, Place};
use paging::Refusal;
use reading::{ScheduleRecord, schedule_within};

// After the last record: the requests that are not closed are judged for 7. The answer is the cost.
fn finish(files: &Files<'_>, held: &mut Held, place: Place) -> Result<usize, Refusal>
    requires { Sound files.now held.old place }
    ensures answer { verdict_answer result ≡ ended files.now.k 0 (standing files.now held.old place) }
    ensures fits { AtMost (length files.now.schedule.now) result }
{
    if place.t == files.requests {
        return Ok(place.bundles);
    }
    if close_open(files, held, place, files.requests - place.t).is_none() {
        return Err(Refusal::TooManyHeld);
    }
    Ok(place.bundles)
}

// The record behind the place: the place behind it, or none at the schedule's end.
fn next_record(files: &Files<'_>, held: &mut Held, place: Place) -> Result<Option<Place>, Refusal>
    requires { Sound files.now held.old place }
    ensures answer { turn_answer files.now held.new place result ≡ place_answer files.now held.old place }
    ensures sound { SoundTurn files.now held.new place result }
{
    let at = place.from + 10 * place.fetches;
    match schedule_within(files.schedule, at, files.a)? {
        ScheduleRecord::Bundle { t, n, from, next } => {
            let behind = bundle(files, held, place, t as usize, n, from, next)?;
            Ok(Some(behind))
        }
        ScheduleRecord::Fetch { t, page, .. } => {
            let fetched = fetch(files, held, place, t as usize, page)?;
            let behind = after(files, held, fetched)?;
            Ok(Some(behind))
        }
        ScheduleRecord::End => Ok(None),
        ScheduleRecord::Sizes { .. } => Err(Refusal::WrongMark),
    }
}

// Every record from the place on: the cost.
pub(crate) fn run(files: &Files<'_>, held: &mut Held, first: Place) -> Result<usize, Refusal>
    requires { Sound files.now held.old first }
    ensures answer { verdict_answer result ≡ place_answer files.now held.old first }
    ensures fits { AtMost (length files.now.schedule.now) result }
{
    let mut place = first;
    // From record to record: each says where the next one stands, so there is no index to count and nothing to iterate over.
    while let Some(next) = next_record(files, held, place)? {
        place = next;
    }
    finish(files, held, place)
}
