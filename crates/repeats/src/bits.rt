// Marks for pages: 2,097,152 bits, of which each page has two. Pages share bits: a mark that is not set rules a page out, one that is set does
// not rule it in. Of 200,000 random pages about one in ninety meets the bits of others.
ghost use Rattle.std.specs.Prelude.{◌<◌, ◌≡◌, length, replicate};
ghost use Rattle.repeats.specs.Bits.{words, fold_of, product_of, bit_of, is_set, with_bit, is_marked, with_mark};

pub const WORDS: usize = 65536;

#[derive(Drop)]
pub struct Marks {
    bits: [u32; WORDS],
    ghost all: { length bits ≡ words },
}

// A page's first bit, in the first half of them. Neighbours have bits of their own, and so have pages that differ only in their high halves.
fn fold(page: u32) -> u32
    ensures { (result ≡ fold_of page) × (result < 2097152) }
{
    (page ^ (page >> 12)) & 1048575
}

// Its second bit, in the other half: pages that share their first bits are unlikely to share these too.
fn product(page: u32) -> u32
    ensures { (result ≡ product_of page) × (result < 2097152) }
{
    1048576 + (((u64::from(page) * 2654435769) >> 12) & 1048575) as u32
}

// A bit's place in its word.
fn bit_in_word(bit: u32) -> u32
    ensures { result ≡ bit_of bit }
{
    1 << (bit % 32)
}

impl Marks {
    // No page's mark is set.
    pub fn none() -> Marks
        ensures { result.bits ≡ replicate words 0 }
    {
        Marks { bits: [0; WORDS] }
    }

    fn is_set(&self, bit: u32) -> bool
        requires { bit < 2097152 }
        ensures { result ≡ is_set self.now.bits bit }
    {
        self.bits[(bit / 32) as usize] & bit_in_word(bit) > 0
    }

    fn set_bit(&mut self, bit: u32)
        requires { bit < 2097152 }
        ensures { self.new.bits ≡ with_bit self.old.bits bit }
    {
        self.bits[(bit / 32) as usize] |= bit_in_word(bit);
    }

    // Whether the page's mark is set.
    #[tactic(auto, using(crate::proofs::BitLaws::marked_is, crate::proofs::BitLaws::not_marked))]
    pub fn has(&self, page: u32) -> bool
        ensures { result ≡ is_marked self.now.bits page }
    {
        self.is_set(fold(page)) && self.is_set(product(page))
    }

    // The page's mark is set.
    pub fn set(&mut self, page: u32)
        ensures { self.new.bits ≡ with_mark self.old.bits page }
    {
        self.set_bit(fold(page));
        self.set_bit(product(page));
    }
}
