// A region store: a stack of regions, bottom first, and a rule that grants or denies a list of lengths.
ghost use Rattle.std.specs.Prelude.{◌≡◌, [], ◌∷◌};
ghost use Rattle.regions.specs.Laws.{Countable, Lawful};
ghost use Rattle.regions.specs.Model.{Regions, Rule, lengths, within};
ghost use Rattle.regions.specs.Model.{open_answer, open_after, put_answer, put_after, get_answer, close_answer, close_after, clear_after};

use crate::refusal::Refusal;

pub trait RegionStore {
    // What the store holds,
    ghost regions: { Self → Regions };

    // and which lists of lengths it grants.
    ghost grants: { Self → Rule };

    // Puts an empty region on top.
    fn open(&mut self) -> Result<(), Refusal>
        ensures answer { result ≡ open_answer (grants self.old) (regions self.old) }
        ensures after { regions self.new ≡ open_after (grants self.old) (regions self.old) }
        ensures rule { grants self.new ≡ grants self.old };

    // Appends two words to the region at `position`, and answers how long it was.
    fn put(&mut self, position: usize, first: u32, second: u32) -> Result<usize, Refusal>
        ensures answer { result ≡ put_answer (grants self.old) (regions self.old) position (first ∷ second ∷ []) }
        ensures after { regions self.new ≡ put_after (grants self.old) (regions self.old) position (first ∷ second ∷ []) }
        ensures rule { grants self.new ≡ grants self.old };

    // The word at `place` of the region at `position`.
    fn get(&self, position: usize, place: usize) -> Result<u32, Refusal>
        ensures { result ≡ get_answer (regions self.now) position place };

    // Whether no region is longer than `most`, which a quota over the store has to know: asked of `get`, region by
    // region. A store that knows its lengths may answer it faster.
    fn within(&self, most: usize) -> bool
        ensures { result ≡ within most (lengths (regions self.now)) }
    {
        // A store does not say how many regions it has: the first refusal but of the word ends the range.
        for position in 0..usize::MAX {
            match self.get(position, most) {
                Ok(_) => return false,
                Err(Refusal::NoWord) => {}
                Err(_) => return true,
            }
        }
        true
    }

    // Takes the top region away.
    fn close(&mut self) -> Result<(), Refusal>
        ensures answer { result ≡ close_answer (regions self.old) }
        ensures after { regions self.new ≡ close_after (regions self.old) }
        ensures rule { grants self.new ≡ grants self.old };

    // Takes all regions away.
    fn clear(&mut self)
        ensures after { regions self.new ≡ clear_after (regions self.old) }
        ensures rule { grants self.new ≡ grants self.old };

    ghost lawful: { (s : Self) → Lawful (grants s) };

    // The regions can be counted by a `usize`, as their positions are.
    ghost countable: { (s : Self) → Countable (regions s) };
}
