// Where a table by pages has the entry of a page. A table of a power of two has the mask one below it.
ghost use Rattle.std.specs.Prelude.{◌≡◌, ◌≤◌};
ghost use Rattle.repeats.specs.Slots.{slot_of};

// The factor spreads pages that follow each other, and pages that differ in their high half alone.
pub(crate) fn slot(page: u32, mask: usize) -> usize
    ensures { (result ≡ slot_of mask page) × (result ≤ mask) }
{
    let spread = page as usize * 2654435761 / 65536;
    spread & mask
}
