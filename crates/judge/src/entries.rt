// One record of the schedule: the way to its request, then what it does there.
ghost use Rattle.std.specs.Prelude.{◌+◌, ◌*◌, ◌≤◌, ◌<◌, ◌≡◌, length, drop};
ghost use Rattle.paging.specs.Schedule.{ev, pf};
ghost use Rattle.wire.specs.Numbers.{num32, nums32};
ghost use Rattle.judging.specs.Judging.{arrived, stepped};
ghost use Rattle.judge.specs.inner.Places.{standing, step_of, Sound, SoundStep};

use crate::buffer::Held;
use crate::closing::close_open;
use crate::fetches::fetched;
use crate::place::{Files, Place};
use paging::Refusal;

// The requests before u are closed: u is then the open one.
fn arrive(files: &Files<'_>, held: &mut Held, place: Place, u: usize) -> Result<Place, Refusal>
    requires { Sound files.now held.old place }
    ensures step { step_of files.now held.new result ≡ arrived files.now.k u (standing files.now held.old place) }
    ensures sound { SoundStep files.now held.new (place.from + 10 * place.fetches) result }
{
    if u < place.t || u >= files.requests {
        return Err(Refusal::WrongRecord);
    }
    if u == place.t {
        return Ok(place);
    }
    let Some(rest) = close_open(files, held, place, u - place.t) else {
        return Err(Refusal::TooManyHeld);
    };
    Ok(Place {
        t: u,
        rest,
        from: place.from + 10 * place.fetches,
        fetches: 0,
        bundles: place.bundles,
    })
}

// An EV at request t: its `count` pages stand in the schedule from an offset on, and the next record starts at `next`.
pub(crate) fn bundle(
    files: &Files<'_>,
    held: &mut Held,
    place: Place,
    t: usize,
    count: usize,
    pages: usize,
    next: usize,
) -> Result<Place, Refusal>
    requires { Sound files.now held.old place × (pages + 4 * count ≤ next) × (place.from + 10 * place.fetches < next) × (next ≤ length files.now.schedule.now) }
    ensures step { step_of files.now held.new result
        ≡ stepped files.now.k (ev t (nums32 count (drop pages files.now.schedule.now))) (standing files.now held.old place) }
    ensures sound { SoundStep files.now held.new next result }
{
    let here = arrive(files, held, place, t)?;
    if here.fetches > 0 || !held.evict(files.schedule, pages, count) {
        return Err(Refusal::WrongRecord);
    }
    Ok(Place {
        from: next,
        fetches: 0,
        bundles: here.bundles + 1,
        ..here
    })
}

// A PF at request t, which is the record right behind the place's PFs.
pub(crate) fn fetch(
    files: &Files<'_>,
    held: &mut Held,
    place: Place,
    t: usize,
    page: u32,
) -> Result<Place, Refusal>
    requires { Sound files.now held.old place × (place.from + 10 * place.fetches + 10 ≤ length files.now.schedule.now)
        × (page ≡ num32 (drop (place.from + 10 * place.fetches + 6) files.now.schedule.now)) }
    ensures step { step_of files.now held.new result ≡ stepped files.now.k (pf t page) (standing files.now held.old place) }
    ensures sound { SoundStep files.now held.new (place.from + 10 * place.fetches + 10) result }
{
    let here = arrive(files, held, place, t)?;
    if held.has(page) || fetched(files.schedule, here.from, here.fetches, page) {
        return Err(Refusal::WrongRecord);
    }
    Ok(Place {
        fetches: here.fetches + 1,
        ..here
    })
}
