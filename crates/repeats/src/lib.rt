// Whether a page stands in a list twice, for lists of any length; and marks that rule pages out. An inner crate: other crates call it.
//   slots    where a table by pages has the entry of a page
//   marks    repeats looked for with a mark for each slot
//   chains   repeats looked for in chains of places that share a slot
//   bits     two bits for each page, for very many pages
#![tactic(auto)]

ghost use Rattle.std.specs.Prelude.{◌≡◌};
ghost use Rattle.lists.specs.Pages.{distinct};

pub mod bits;
mod chains;
mod marks;
mod slots;

// Whether no page stands in the list twice, for a list of a buffer's size: for any list, and quick for some hundred pages.
pub fn no_page_twice_in_buffer(pages: &[u32]) -> bool
    ensures { result ≡ distinct pages.now }
{
    marks::new_pages_only(pages, &mut [false; 8192])
}

// The same for a list of any size. A short one is looked through with marks, a longer one with chains, so that the time grows with the
// length alone unless the pages are chosen against `slots`; one beyond all limits of document 01 is looked through with marks again.
pub fn no_page_twice(pages: &[u32]) -> bool
    ensures { result ≡ distinct pages.now }
{
    let n = pages.len();
    if n <= 256 {
        return no_page_twice_in_buffer(pages);
    }
    if n <= 4096 {
        return chains::no_page_twice_of::<16384, 4096>(pages);
    }
    if n <= 65536 {
        return chains::no_page_twice_of::<65536, 65536>(pages);
    }
    marks::new_pages_only(pages, &mut [false; 65536])
}
