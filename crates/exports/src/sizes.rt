// The sizes.
ghost use Rattle.std.specs.Prelude.{◌≡◌};
ghost use Rattle.paging.specs.Refusals.{sizes_refusal};

use paging::Sizes;

// 1 or 2 for k and a that are refused, else 0.
#[unsafe(no_mangle)]
pub extern "C" fn sizes_refusal(k: u32, a: u32) -> u32
    ensures { result ≡ sizes_refusal k a 0 }
{
    match (Sizes { k, a }).check() {
        Ok(()) => 0,
        Err(reason) => reason.number(),
    }
}
