// More PFs at one request than a buffer holds. No legal schedule has them, but which refusal it is hangs on each of them: 6 where one's page
// is held already. Marks rule nearly every page out, so that the PFs before it are looked at one by one only where marks meet.
ghost use Rattle.std.specs.Prelude.{◌+◌, ◌*◌, ◌≤◌, ◌++◌, ◌≡◌, length};
ghost use Rattle.lists.specs.Pages.{mem};
ghost use Rattle.repeats.specs.Bits.{AllMarked};
ghost use Rattle.judge.specs.inner.Fetches.{fetched_pages};
ghost use Rattle.judge.specs.inner.Many.{AheadIs, ReadOn};

use crate::buffer::{Held, MOST};
use crate::fetches::fetched;
use crate::place::{Files, Place};
use paging::Refusal;
use reading::{ScheduleRecord, schedule_within};
use repeats::bits::Marks;

// The page of the record ahead, where that is a PF of the open request.
fn look_ahead(files: &Files<'_>, at: usize, t: usize) -> Option<u32>
    ensures { AheadIs files.now.a files.now.schedule.now at t result }
{
    if let Ok(ScheduleRecord::Fetch { t: own, page, .. }) = schedule_within(
        files.schedule,
        at,
        files.a,
    ) {
        if own as usize == t {
            return Some(page);
        }
    }
    None
}

// The marks of the pages of `count` PFs, from an offset of the schedule on.
fn all_marked(schedule: &[u8], from: usize, count: usize) -> Marks
    requires { from + 10 * count ≤ length schedule.now }
    ensures { AllMarked result.bits (fetched_pages schedule.now from count) }
{
    let mut marks = Marks::none();
    for i in 0..count {
        marks.set(wire::read32(schedule, from + 10 * i + 6));
    }
    marks
}

// Whether the page is held or one of those PFs', whose marks are set.
fn known(held: &Held, schedule: &[u8], from: usize, count: usize, marks: &Marks, page: u32) -> bool
    requires { (from + 10 * count ≤ length schedule.now) × AllMarked marks.now.bits (fetched_pages schedule.now from count) }
    ensures { result ≡ mem page (held.now ++ fetched_pages schedule.now from count) }
{
    held.has(page) || marks.has(page) && fetched(schedule, from, count, page)
}

// The PFs of the open request behind the place's own.
fn read_on(
    files: &Files<'_>,
    held: &Held,
    place: Place,
    marks: &mut Marks,
) -> Result<Place, Refusal>
    requires { (place.from + 10 * place.fetches ≤ length files.now.schedule.now)
        × AllMarked marks.old.bits (fetched_pages files.now.schedule.now place.from place.fetches) }
    ensures { ReadOn files.now held.now place result }
{
    let mut fetches = place.fetches;
    // How many there are shows only when the record behind them is read.
    while let Some(page) = look_ahead(files, place.from + 10 * fetches, place.t) {
        if known(held, files.schedule, place.from, fetches, marks, page) {
            return Err(Refusal::WrongRecord);
        }
        marks.set(page);
        fetches += 1;
    }
    Ok(Place { fetches, ..place })
}

// The same with marks of its own.
fn many(files: &Files<'_>, held: &Held, place: Place) -> Result<Place, Refusal>
    requires { place.from + 10 * place.fetches ≤ length files.now.schedule.now }
    ensures { ReadOn files.now held.now place result }
{
    let mut marks = all_marked(files.schedule, place.from, place.fetches);
    read_on(files, held, place, &mut marks)
}

// Behind a PF: where its place has more PFs than any buffer holds, all that follow at its request. That request cannot be closed, so marks
// are laid out once at most.
pub(crate) fn after(files: &Files<'_>, held: &Held, place: Place) -> Result<Place, Refusal>
    requires { place.from + 10 * place.fetches ≤ length files.now.schedule.now }
    ensures { ReadOn files.now held.now place result }
{
    if place.fetches > MOST {
        return many(files, held, place);
    }
    Ok(place)
}
