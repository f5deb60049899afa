// Repeats in a list, looked for with a mark for each slot.
ghost use Rattle.std.specs.Prelude.{◌<◌, ◌≡◌, length};
ghost use Rattle.lists.specs.Pages.{distinct};

use crate::slots::slot;
use lists::has;

// Whether no page stands in the list twice: only where a page's mark is set already, an exact look at the earlier places decides.
pub(crate) fn new_pages_only(pages: &[u32], marks: &mut [bool]) -> bool
    requires { 0 < length marks.old }
    ensures { result ≡ distinct pages.now }
{
    let mask = marks.len() - 1;
    for (i, &page) in pages.iter().enumerate() {
        let at = slot(page, mask);
        let marked = marks[at];
        marks[at] = true;
        if marked && has(&pages[..i], page) {
            return false;
        }
    }
    true
}
