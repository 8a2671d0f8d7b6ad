// One of two stores, which does what that store does.
ghost use Rattle.piles.specs.Either.{either, either_each};
ghost use Rattle.regions.specs.Laws.{Countable, Lawful};

use regions::refusal::Refusal;
use regions::store::RegionStore;

#[derive(Drop)]
pub enum Either<A: RegionStore, B: RegionStore> {
    Left(A),
    Right(B),
}

impl<A: RegionStore, B: RegionStore> RegionStore for Either<A, B> {
    ghost regions = { either A.RegionStore.regions B.RegionStore.regions };

    ghost grants = { either A.RegionStore.grants B.RegionStore.grants };

    ghost lawful = { either_each Lawful A.RegionStore.grants B.RegionStore.grants A.RegionStore.lawful B.RegionStore.lawful };

    ghost countable = { either_each Countable A.RegionStore.regions B.RegionStore.regions A.RegionStore.countable B.RegionStore.countable };

    // Each method once for both: a `dyn` store would have to be handed out, and lie in a box.
    fn open(&mut self) -> Result<(), Refusal> {
        match self {
            Either::Left(store) => store.open(),
            Either::Right(store) => store.open(),
        }
    }

    fn put(&mut self, position: usize, first: u32, second: u32) -> Result<usize, Refusal> {
        match self {
            Either::Left(store) => store.put(position, first, second),
            Either::Right(store) => store.put(position, first, second),
        }
    }

    fn get(&self, position: usize, place: usize) -> Result<u32, Refusal> {
        match self {
            Either::Left(store) => store.get(position, place),
            Either::Right(store) => store.get(position, place),
        }
    }

    fn within(&self, most: usize) -> bool {
        match self {
            Either::Left(store) => store.within(most),
            Either::Right(store) => store.within(most),
        }
    }

    fn close(&mut self) -> Result<(), Refusal> {
        match self {
            Either::Left(store) => store.close(),
            Either::Right(store) => store.close(),
        }
    }

    fn clear(&mut self) {
        match self {
            Either::Left(store) => store.clear(),
            Either::Right(store) => store.clear(),
        }
    }
}
