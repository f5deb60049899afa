// The pages held, in the order in which they came.
ghost use Rattle.std.specs.Prelude.{ℕ, List, [], ◌∷◌, ◌++◌, ◌+◌, ◌*◌, ◌≤◌, ◌<◌, true, ◌≡◌, leb, length, take, drop};
ghost use Rattle.lists.specs.Pages.{mem, erase, erase_all};
ghost use Rattle.paging.specs.Refusals.{largest_k};
ghost use Rattle.paging.specs.Schedule.{held_in_turn, with_page};
ghost use Rattle.wire.specs.Numbers.{nums32};

use paging::Sizes;
use std::marker::Model;

// The most pages of any buffer.
pub(crate) const MOST: usize = Sizes::K_MAX as usize;

// They are the first places of a list that has room for any buffer.
#[derive(Drop)]
pub(crate) struct Held {
    pages: [u32; MOST],
    count: usize,
}

impl Model for Held {
    ghost Value = { List ℕ };

    ghost view = { λ h. take h.count h.pages };

    ghost invariant = { λ h. h.count ≤ 256 };
}

impl Held {
    pub(crate) fn empty() -> Held
        ensures { result ≡ [] }
    {
        Held {
            pages: [0; MOST],
            count: 0,
        }
    }

    pub(crate) fn len(&self) -> usize
        ensures { result ≡ length self.now }
    {
        self.count
    }

    // Whether the page is held.
    pub(crate) fn has(&self, page: u32) -> bool
        ensures { result ≡ mem page self.now }
    {
        lists::has(&self.pages[..self.count], page)
    }

    // One more page.
    pub(crate) fn push(&mut self, page: u32)
        requires { length self.old < largest_k }
        ensures { self.new ≡ self.old ++ page ∷ [] }
    {
        self.pages[self.count] = page;
        self.count += 1;
    }

    // The page is added if it is absent. False where more than k pages would then be held: nothing is added.
    pub(crate) fn add(&mut self, k: usize, page: u32) -> bool
        requires { (length self.old ≤ k) × (k ≤ largest_k) }
        ensures fits { result ≡ leb (length (with_page page self.old)) k }
        ensures added { result ≡ true → self.new ≡ with_page page self.old }
    {
        if self.has(page) {
            return true;
        }
        if self.len() >= k {
            return false;
        }
        self.push(page);
        true
    }

    // The page is taken out; the others keep their order. False where it is not held.
    fn take_out(&mut self, page: u32) -> bool
        ensures was_held { result ≡ mem page self.old }
        ensures out { result ≡ true → self.new ≡ erase page self.old }
    {
        let i = lists::find(&self.pages[..self.count], page);
        if i >= self.count {
            return false;
        }
        lists::moves::to_end(&mut self.pages[..self.count], i);
        self.count -= 1;
        true
    }

    // The `count` pages that stand in the schedule from an offset on are taken out, one by one. False where one is not held.
    pub(crate) fn evict(&mut self, schedule: &[u8], from: usize, count: usize) -> bool
        requires { from + 4 * count ≤ length schedule.now }
        ensures were_held { result ≡ held_in_turn (nums32 count (drop from schedule.now)) self.old }
        ensures out { result ≡ true → self.new ≡ erase_all (nums32 count (drop from schedule.now)) self.old }
    {
        for i in 0..count {
            if !self.take_out(wire::read32(schedule, from + 4 * i)) {
                return false;
            }
        }
        true
    }
}
