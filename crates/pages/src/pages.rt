// A store that keeps each region as a chain of 16-word pages.
ghost use Rattle.std.specs.Prelude.{◌≡◌, ℕ, ◌+◌, ◌<◌, ◌≤◌, All, [], ◌∷◌, ◌++◌, length, slice_index, slice_set};
ghost use Rattle.regions.specs.Model.{region, close_after};
ghost use Rattle.regions.specs.Rules.{pages_of, pages_total, pages_rule};
ghost use Rattle.pages.specs.Chain.{walk, chains, lengths_of, IsEnded, times, times_in, at_most};

use crate::chain::{Chain, PAGE};
use regions::refusal::Refusal;
use regions::store::RegionStore;
use rows::row::Row;
use std::array;

// How many regions there may be.
const MOST: usize = 64;

// How many pages count.
const PAGES: usize = 256;

// The chains are linked from the newest page to the oldest, and so is the list of the pages that are free: by numbers of
// pages, which lie in the store itself, since a store never allocates. The links stand beside the pages and not in them, so
// that a walk, which reads nothing else, goes over 2 KiB in place of 18.
#[derive(Drop)]
pub struct Pages {
    pages: [[u32; PAGE]; PAGES],
    next: [usize; PAGES],
    stack: Row<Chain, MOST>,
    free: usize,
    left: usize,
    most: usize,
    ghost sized: { (length pages ≡ 256) × (length next ≡ 256) },
    ghost wide: { All (λ p. length p ≡ 16) pages },
    ghost few: { (length stack.items ≤ 64) × (most ≤ 256) },
    ghost sum: { pages_total (lengths_of stack.items) + left ≡ most },
    ghost once: { (x : ℕ) → times_in x (chains next stack.items) + times x (walk next free left) ≤ at_most x },
    ghost ends: { All (IsEnded next) stack.items },
}

// How many pages hold so many words.
fn pages_for(length: usize) -> usize
    ensures { result ≡ pages_of length }
{
    length.div_ceil(PAGE)
}

impl Pages {
    ghost use Rattle.pages.specs.Held.{holds, way};

    // A store of so many pages, and of 256 at most.
    pub fn new(pages: usize) -> Pages
        ensures empty { holds result ≡ [] }
        ensures rule { pages_rule result.most ≡ pages_rule pages }
    {
        let most = pages.min(PAGES);
        Pages {
            pages: [[0; PAGE]; PAGES],
            next: array::from_fn(|i| i + 1),
            stack: Row::new(Chain::default()),
            free: 0,
            left: most,
            most,
        }
    }

    // The page that is `back` links from the newest page of a region.
    fn page_at(&self, position: usize, back: usize) -> usize
        requires { back < length (way self.now position) }
        ensures is { result ≡ slice_index (way self.now position) back }
        ensures within { result < 256 }
    {
        let mut page = self.stack[position].top;
        // Links are followed by their number: no list of them stands anywhere to go over.
        for _hop in 0..back {
            page = self.next[page];
        }
        page
    }

    // Puts a word after a region's words, of which there are `count`: in its newest page, or where that is full in one from the free
    // list. The caller knows their number, so that a second word need not wait for the first one's to be read again.
    fn push(&mut self, position: usize, count: usize, word: u32)
        requires here { position < length self.old.stack.items }
        requires count { count ≡ length (region (holds self.old) position) }
        requires room { pages_of (length (region (holds self.old) position) + 1) ≤ pages_of (length (region (holds self.old) position)) + self.old.left }
        ensures held { holds self.new ≡ slice_set (holds self.old) position (region (holds self.old) position ++ word ∷ []) }
        ensures most { self.new.most ≡ self.old.most }
    {
        let chain = Chain {
            length: count,
            ..self.stack[position]
        };
        let place = chain.length % PAGE;
        if place > 0 {
            // The row before the page: what else the chain holds is then written as it was just read, which costs nothing.
            self.stack.set(
                position,
                Chain {
                    length: chain.length + 1,
                    ..chain
                },
            );
            self.pages[chain.top][place] = word;
        } else {
            let page = self.free;
            self.free = self.next[page];
            self.left -= 1;
            self.next[page] = chain.top;
            self.pages[page][0] = word;
            self.stack.set(
                position,
                Chain {
                    top: page,
                    bottom: chain.bottom_after(page),
                    length: chain.length + 1,
                },
            );
        }
    }

    // Takes the top region away, and gives its whole chain back to the free list by one link.
    fn shut(&mut self)
        requires some { 0 < length self.old.stack.items }
        ensures held { holds self.new ≡ close_after (holds self.old) }
        ensures most { self.new.most ≡ self.old.most }
    {
        let top = self.stack.len() - 1;
        let chain = self.stack[top];
        self.stack.truncate(top);
        if chain.length > 0 {
            self.next[chain.bottom] = self.free;
            self.free = chain.top;
            self.left += pages_for(chain.length);
        }
    }
}

impl RegionStore for Pages {
    ghost use Rattle.regions.specs.Rules.{pages_rule};
    ghost use Rattle.regions.specs.Lawfuls.{pages_lawful};
    ghost use Rattle.pages.specs.Held.{holds, holds_countable};

    ghost regions = { holds };

    ghost grants = { λ s. pages_rule s.most };

    ghost lawful = { λ s. pages_lawful s.most };

    ghost countable = { holds_countable };

    fn open(&mut self) -> Result<(), Refusal> {
        if self.stack.len() == MOST {
            return Err(Refusal::Denied);
        }
        self.stack.push(Chain::default());
        Ok(())
    }

    fn put(&mut self, position: usize, first: u32, second: u32) -> Result<usize, Refusal> {
        let length = self.stack.get(position).ok_or(Refusal::NoRegion)?.length;
        // What fits into the region's pages and into those that are left.
        if length + 2 > PAGE * (pages_for(length) + self.left) {
            return Err(Refusal::Denied);
        }
        self.push(position, length, first);
        self.push(position, length + 1, second);
        Ok(length)
    }

    fn get(&self, position: usize, place: usize) -> Result<u32, Refusal> {
        let length = self.stack.get(position).ok_or(Refusal::NoRegion)?.length;
        if place >= length {
            return Err(Refusal::NoWord);
        }
        let page = self.page_at(position, (length - 1) / PAGE - place / PAGE);
        Ok(self.pages[page][place % PAGE])
    }

    fn within(&self, most: usize) -> bool {
        self.stack.iter().all(|chain| chain.length <= most)
    }

    fn close(&mut self) -> Result<(), Refusal> {
        if self.stack.is_empty() {
            return Err(Refusal::NoRegion);
        }
        self.shut();
        Ok(())
    }

    fn clear(&mut self) {
        // Regions close from the top, one by one.
        for _region in 0..self.stack.len() {
            self.shut();
        }
    }
}
