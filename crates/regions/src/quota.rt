// A store over another: it denies a list with a length above its quota, and whatever the store below denies.
ghost use Rattle.std.specs.Prelude.{◌≡◌};
ghost use Rattle.regions.specs.Rules.{quota_rule, quota_room};
ghost use Rattle.regions.specs.Lawfuls.{quota_lawful};

use crate::refusal::Refusal;
use crate::store::RegionStore;

#[derive(Drop)]
pub struct Quota<S: RegionStore> {
    store: S,
    quota: usize,
}

impl<S: RegionStore> Quota<S> {
    pub fn over(store: S, quota: usize) -> Quota<S>
        ensures store { result.store ≡ store }
        ensures quota { result.quota ≡ quota }
    {
        Quota { store, quota }
    }

    // The store below, as it now is.
    pub fn into_store(self) -> S
        ensures { result ≡ self.store }
    {
        self.store
    }

    // Whether the quota leaves room for `more` words in the region at `position`.
    fn room(&self, position: usize, more: usize) -> Result<bool, Refusal>
        ensures { result ≡ quota_room self.now.quota (S.RegionStore.regions self.now.store) position more }
    {
        // One refusal is told apart, and any other goes on as it is.
        match self.store.get(position, self.quota.saturating_sub(more)) {
            Ok(_) => Ok(false),
            Err(Refusal::NoWord) => Ok(more <= self.quota && self.store.within(self.quota)),
            Err(refusal) => Err(refusal),
        }
    }
}

impl<S: RegionStore> RegionStore for Quota<S> {
    ghost regions = { λ q. S.RegionStore.regions q.store };

    ghost grants = { λ q. quota_rule q.quota (S.RegionStore.grants q.store) };

    ghost lawful = { λ q. quota_lawful q.quota (S.RegionStore.grants q.store) (S.RegionStore.lawful q.store) };

    ghost countable = { λ q. S.RegionStore.countable q.store };

    fn open(&mut self) -> Result<(), Refusal> {
        if !self.store.within(self.quota) {
            return Err(Refusal::Denied);
        }
        self.store.open()
    }

    fn put(&mut self, position: usize, first: u32, second: u32) -> Result<usize, Refusal> {
        if self.room(position, 2)? {
            self.store.put(position, first, second)
        } else {
            Err(Refusal::Denied)
        }
    }

    fn get(&self, position: usize, place: usize) -> Result<u32, Refusal> {
        self.store.get(position, place)
    }

    fn within(&self, most: usize) -> bool {
        self.store.within(most)
    }

    fn close(&mut self) -> Result<(), Refusal> {
        self.store.close()
    }

    fn clear(&mut self) {
        self.store.clear();
    }
}
