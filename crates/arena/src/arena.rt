// A store whose regions lie one after another in one stretch of the caller's memory.
ghost use Rattle.std.specs.Prelude.{◌≡◌, ◌+◌, ◌<◌, ◌≤◌, [], ◌++◌, length, take, vec_len, slice_index, slice_set};
ghost use Rattle.std.specs.List.{insert_slice};
ghost use Rattle.regions.specs.Model.{region};
ghost use Rattle.regions.specs.Rules.{total, capacity, arena_rule};
ghost use Rattle.arena.specs.Layout.{held};
ghost use Rattle.regions.specs.Lawfuls.{arena_lawful};
ghost use Rattle.arena.specs.Counted.{arena_countable};

use regions::lengths::none_above;
use regions::refusal::Refusal;
use regions::store::RegionStore;
use rows::row::Row;

// How many regions there may be.
const MOST: usize = 64;

// How many words of the memory count.
const WORDS: usize = 65536;

// The regions lie in the caller's memory, one after another: a list of lists would take memory of its own.
#[derive(Drop)]
pub struct Arena {
    memory: Vec<u32>,
    lens: Row<usize, MOST>,
    ghost few: { length lens.items ≤ 64 },
    ghost fits: { total lens.items ≤ capacity (vec_len memory) },
}

// Puts words in at a place of the first `used`, behind which there is room for them.
fn insert(words: &mut [u32], used: usize, at: usize, new: &[u32])
    requires { (at ≤ used) × (used + length new.now ≤ length words.old) }
    ensures len { length words.new ≡ length words.old }
    ensures inserted { take (used + length new.now) words.new ≡ insert_slice (take used words.old) at new.now }
{
    words.copy_within(at..used, at + new.len());
    // Word by word: there are few, and a copy of a part would first ask whether it overlaps with its source.
    for (i, word) in new.iter().enumerate() {
        words[at + i] = *word;
    }
}

impl Arena {
    // An arena over this memory, with no region.
    pub fn new(memory: Vec<u32>) -> Arena
        ensures empty { held result.lens.items result.memory.items ≡ [] }
        ensures memory { result.memory ≡ memory }
    {
        Arena {
            memory,
            lens: Row::new(0),
        }
    }

    // Gives the memory back.
    pub fn into_memory(self) -> Vec<u32>
        ensures { result ≡ self.memory }
    {
        let Arena { memory, .. } = self;
        memory
    }

    fn capacity(&self) -> usize
        ensures { result ≡ capacity (vec_len self.now.memory) }
    {
        self.memory.len().min(WORDS)
    }

    // Where the region at `n` begins, or would begin: the sum of the lengths below it.
    fn begin(&self, n: usize) -> usize
        requires here { n ≤ length self.now.lens.items }
        ensures is { result ≡ total (take n self.now.lens.items) }
    {
        self.lens[..n].iter().sum()
    }

    // How many words the regions take.
    fn used(&self) -> usize
        ensures { result ≡ total self.now.lens.items }
    {
        self.lens.iter().sum()
    }

    // Puts words at the end of the region at `position`, where there is room behind the `used` ones, and says how long it was.
    fn append(&mut self, position: usize, used: usize, new: &[u32]) -> usize
        requires here { position < length self.old.lens.items }
        requires used { used ≡ total self.old.lens.items }
        requires room { total self.old.lens.items + length new.now ≤ capacity (vec_len self.old.memory) }
        ensures old { result ≡ slice_index self.old.lens.items position }
        ensures len { vec_len self.new.memory ≡ vec_len self.old.memory }
        ensures regions { held self.new.lens.items self.new.memory.items ≡ slice_set (held self.old.lens.items self.old.memory.items) position (region (held self.old.lens.items self.old.memory.items) position ++ new.now) }
    {
        let old = self.lens[position];
        let end = self.begin(position) + old;
        insert(self.memory.as_mut_slice(), used, end, new);
        self.lens.set(position, old + new.len());
        old
    }
}

impl RegionStore for Arena {
    ghost regions = { λ a. held a.lens.items a.memory.items };

    ghost grants = { λ a. arena_rule (vec_len a.memory) };

    ghost lawful = { λ a. arena_lawful a.memory.len };

    ghost countable = { λ a. arena_countable a.lens.items a.memory.items a.few };

    fn open(&mut self) -> Result<(), Refusal> {
        if self.lens.len() == MOST {
            return Err(Refusal::Denied);
        }
        self.lens.push(0);
        Ok(())
    }

    fn put(&mut self, position: usize, first: u32, second: u32) -> Result<usize, Refusal> {
        if position >= self.lens.len() {
            return Err(Refusal::NoRegion);
        }
        let new = [first, second];
        let used = self.used();
        if new.len() > self.capacity() - used {
            return Err(Refusal::Denied);
        }
        Ok(self.append(position, used, &new))
    }

    fn get(&self, position: usize, place: usize) -> Result<u32, Refusal> {
        let length = *self.lens.get(position).ok_or(Refusal::NoRegion)?;
        // Asked before the lengths below are added up: a refusal, which a quota looks for, costs the same in each region.
        if place >= length {
            return Err(Refusal::NoWord);
        }
        let begin = self.begin(position);
        Ok(self.memory[begin + place])
    }

    fn within(&self, most: usize) -> bool {
        none_above(&self.lens, most)
    }

    fn close(&mut self) -> Result<(), Refusal> {
        let open = self.lens.len();
        if open == 0 {
            return Err(Refusal::NoRegion);
        }
        self.lens.truncate(open - 1);
        Ok(())
    }

    fn clear(&mut self) {
        self.lens.truncate(0);
    }
}
