// Chains of pages, which hold the regions' words.
ghost use Rattle.std.specs.Prelude.{◌≡◌, if◌then◌else◌, nat_eq};

// How many words a page has.
pub(crate) const PAGE: usize = 16;

// A region's newest and oldest page, and how many words it has. One without words has no page, which its length says already.
#[derive(Clone, Copy, Default)]
pub(crate) struct Chain {
    pub(crate) top: usize,
    pub(crate) bottom: usize,
    pub(crate) length: usize,
}

impl Chain {
    // The oldest page, after `page` was taken for the chain.
    pub(crate) fn bottom_after(self, page: usize) -> usize
        ensures { result ≡ (if nat_eq self.length 0 then page else self.bottom) }
    {
        if self.length == 0 { page } else { self.bottom }
    }
}
