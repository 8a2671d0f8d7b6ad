// The cases, over any store where the store does not matter.
use crate::clock::{Clock, Times};
use arena::arena::Arena;
use pages::pages::Pages;
use regions::store::RegionStore;

// How often a word is got in one round.
const TURNS: usize = 1000;

// How often words are put at the top in one round.
const PUTS: u32 = 200;

// Appends so many words to the region at `position`.
fn fill<S: RegionStore>(store: &mut S, position: usize, words: usize) {
    for i in 0..words / 2 {
        let word = (i % 1000) as u32;
        let _ = store.put(position, word, word);
    }
}

// A store that holds a region of so many words, and above it one of sixteen.
fn two<S: RegionStore>(store: &mut S, words: usize) {
    store.clear();
    let _ = store.open();
    fill(store, 0, words);
    let _ = store.open();
    fill(store, 1, 16);
}

// A store that holds four regions of so many words each.
fn four<S: RegionStore>(store: &mut S, words: usize) {
    store.clear();
    for position in 0..4 {
        let _ = store.open();
        fill(store, position, words);
    }
}

// Gets the words around a place again and again; the sum is returned, so that it has to be done.
fn gets<S: RegionStore>(
    clock: &Clock,
    store: &mut S,
    position: usize,
    place: usize,
) -> anyhow::Result<(u64, u32)> {
    let mut sum = 0u32;
    let best = clock.least(
        store,
        |_| (),
        |store| {
            for i in 0..TURNS {
                if let Ok(word) = store.get(position, place ^ (i % 8)) {
                    sum = sum.wrapping_add(word);
                }
            }
        },
    )?;
    Ok((best, sum))
}

// Puts at the top, a store of two regions being made anew for each round.
fn puts<S: RegionStore>(clock: &Clock, store: &mut S, words: usize) -> anyhow::Result<u64> {
    clock.least(
        store,
        |store| two(store, words),
        |store| {
            for i in 0..PUTS {
                let _ = store.put(1, i, 1);
            }
        },
    )
}

// Drops regions out of a store of four, of so many words each and then of so many.
fn drops<S: RegionStore, D: Fn(&mut S)>(
    clock: &Clock,
    store: &mut S,
    most: usize,
    drop: D,
) -> anyhow::Result<Times>
    requires { D.IsAlwaysCallable drop }
{
    let small = clock.least(store, |store| four(store, 16), &drop)?;
    let large = clock.least(store, |store| four(store, most / 4), &drop)?;
    Ok(Times { small, large })
}

// What holds of every store: `most` is a number of words that it can hold.
pub(crate) fn store_cases<S: RegionStore>(
    clock: &Clock,
    store: &mut S,
    most: usize,
) -> anyhow::Result<()> {
    two(store, 16);
    let (small, few) = gets(clock, store, 1, 8)?;
    two(store, most);
    let (large, many) = gets(clock, store, 1, 8)?;
    let large = if few == many { large } else { u64::MAX };
    clock.stays(
        "get at the top, with the words held",
        Times { small, large },
    )?;
    let small = puts(clock, store, 16)?;
    let large = puts(clock, store, most)?;
    clock.stays(
        "put at the top, with the words held",
        Times { small, large },
    )?;
    let closes = drops(clock, store, most, |store| {
        for _ in 0..4 {
            let _ = store.close();
        }
    })?;
    clock.stays("close, with the words closed", closes)?;
    let clears = drops(clock, store, most, |store| store.clear())?;
    clock.stays("clear, with the words removed", clears)
}

// Puts into the region at position 1 of three, with so many words in the regions below and above it.
fn low_puts(clock: &Clock, arena: &mut Arena, below: usize, above: usize) -> anyhow::Result<u64> {
    clock.least(
        arena,
        |arena| {
            two(arena, below);
            let _ = arena.open();
            fill(arena, 2, above);
        },
        |arena| {
            for i in 0..50 {
                let _ = arena.put(1, i, 1);
            }
        },
    )
}

// What holds of an arena: a put below other regions moves the words above it, and no others.
pub(crate) fn arena_cases(clock: &Clock, arena: &mut Arena) -> anyhow::Result<()> {
    let small = low_puts(clock, arena, 16, 1000)?;
    let large = low_puts(clock, arena, 16, 32000)?;
    clock.grows("put below, with the words above", Times { small, large })?;
    let large = low_puts(clock, arena, 32000, 1000)?;
    clock.stays("put below, with the words below it", Times { small, large })
}

// What holds of a page store: a get walks from the newest page back to the word's.
pub(crate) fn page_cases(clock: &Clock, pages: &mut Pages) -> anyhow::Result<()> {
    pages.clear();
    let _ = pages.open();
    fill(pages, 0, 4096);
    let (small, _) = gets(clock, pages, 0, 4088)?;
    let (half, _) = gets(clock, pages, 0, 2048)?;
    let (large, _) = gets(clock, pages, 0, 0)?;
    clock.grows(
        "get in a chain, with half of its pages walked",
        Times { small, large: half },
    )?;
    clock.grows(
        "get in a chain, with all of its pages walked",
        Times { small, large },
    )
}
