// What the operations of a store cost, as ratios within one run. Without an argument it prints a verdict for each
// case; with one it prints the times and ratios too.
#![tactic(auto)]

mod cases;
mod clock;

use crate::cases::{arena_cases, page_cases, store_cases};
use crate::clock::Clock;
use arena::arena::Arena;
use pages::pages::Pages;
use regions::quota::Quota;
use std::env;

// The memory of an arena, and the pages of a page store.
const WORDS: usize = 65536;

const PAGES: usize = 256;

fn bench(clock: &Clock) -> anyhow::Result<()> {
    let rt = clock.rt;
    println!(rt; "arena")?;
    let mut arena = Arena::new(vec![in rt.alloc(); 0u32; WORDS]?);
    store_cases(clock, &mut arena, 60000)?;
    arena_cases(clock, &mut arena)?;
    println!(rt; "quota over quota over arena")?;
    let mut piled = Quota::over(Quota::over(arena, WORDS), WORDS);
    store_cases(clock, &mut piled, 60000)?;
    println!(rt; "pages")?;
    let mut pages = Pages::new(PAGES);
    store_cases(clock, &mut pages, 3200)?;
    page_cases(clock, &mut pages)?;
    println!(rt; "quota over pages")?;
    let mut over = Quota::over(pages, WORDS);
    store_cases(clock, &mut over, 3200)
}

fn main(rt: HostRuntime) -> anyhow::Result<()> {
    let timed = env::args(&rt)?.count() > 1;
    bench(&Clock { rt: &rt, timed })
}
