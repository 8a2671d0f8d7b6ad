// Stores made by their description: the kind, its size, and the quotas, the innermost first.
ghost use Rattle.std.specs.Prelude.{◌≡◌, [], Ok, min, drop};
ghost use Rattle.std.specs.List.{reduce};
ghost use Rattle.piles.specs.Ground.{OfKind, ground_regions, ground_rule};
ghost use Rattle.piles.specs.Pile.{under_regions, under_rule};
ghost use Rattle.piles.specs.Build.{kind_rule, quota_if, piled, Built};

use crate::either::Either;
use crate::pile::{Ground, Pile, Under};
use arena::arena::Arena;
use pages::pages::Pages;
use regions::quota::Quota;
use regions::store::RegionStore;
use std::alloc::{AllocError, Global};

// How many words of an arena's memory count.
const WORDS: usize = 65536;

#[derive(Clone, Copy, PartialEq, Eq, Debug)]
pub enum Kind {
    Words,
    Pages,
}

// The least of the quotas over the innermost, if there are any.
fn outer(quotas: &[usize]) -> Option<usize>
    ensures { result ≡ reduce min (drop 1 quotas.now) }
{
    quotas.iter().skip(1).copied().reduce(usize::min)
}

// A new store of this kind, with no region.
fn ground(heap: Global, kind: Kind, size: usize) -> Result<Ground, AllocError>
    ensures empty { (g : OfKind) → result ≡ Ok g → ground_regions g ≡ [] }
    ensures rule { (g : OfKind) → result ≡ Ok g → ground_rule g ≡ kind_rule kind size }
{
    match kind {
        Kind::Words => {
            let memory = vec![in heap; 0u32; size.min(WORDS)]?;
            Ok(Either::Left(Arena::new(memory)))
        }
        Kind::Pages => Ok(Either::Right(Pages::new(size))),
    }
}

// A store under this quota, if there is one.
fn under<S: RegionStore>(store: S, quota: Option<usize>) -> Under<S>
    ensures regions { under_regions S.RegionStore.regions result ≡ S.RegionStore.regions store }
    ensures rule { under_rule S.RegionStore.grants result ≡ quota_if quota (S.RegionStore.grants store) }
{
    match quota {
        Some(quota) => Either::Right(Quota::over(store, quota)),
        None => Either::Left(store),
    }
}

// A new store under these quotas, with no region.
pub fn build(heap: Global, kind: Kind, size: usize, quotas: &[usize]) -> Result<Pile, AllocError>
    ensures { Built (piled (kind_rule kind size) quotas.now) result }
{
    let store = ground(heap, kind, size)?;
    let inner = under(store, quotas.first().copied());
    Ok(under(inner, outer(quotas)))
}
