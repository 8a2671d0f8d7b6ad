// Worked cases of the stores, through code for any store.
#![tactic(auto)]

#[cfg(test)]
mod tests {
    use arena::arena::Arena;
    use pages::pages::Pages;
    use regions::quota::Quota;
    use regions::refusal::Refusal;
    use regions::store::RegionStore;
    use std::test::Fail;

    // An answer as a number: a length or a word, or the refusal's.
    fn told<N: TryInto<u32>>(answer: Result<N, Refusal>) -> u32
    where
        N::Error: Drop,
    {
        match answer {
            Ok(number) => number.try_into().unwrap_or(u32::MAX),
            Err(refusal) => refusal.number(),
        }
    }

    // What the second pair of words in a new region is answered.
    fn second_pair<S: RegionStore>(store: &mut S) -> u32 {
        let _ = store.open();
        let _ = store.put(0, 4, 0);
        told(store.put(0, 3, 1))
    }

    #[test]
    fn two_pairs_need_four_words(rt: HostRuntime) -> Result<(), Fail> {
        let heap = rt.alloc();
        assert_eq!(rt; second_pair(&mut Arena::new(vec![in heap; 0u32; 4]?)), 2);
        assert_eq!(rt; second_pair(&mut Arena::new(vec![in heap; 0u32; 3]?)), 25);
        assert_eq!(rt;
            second_pair(&mut Quota::over(Arena::new(vec![in heap; 0u32; 4]?), 2)),
            25
        );
        assert_eq!(rt;
            second_pair(&mut Quota::over(Quota::over(Arena::new(vec![in heap; 0u32; 4]?), 3), 9)),
            25
        );
        assert_eq!(rt; second_pair(&mut Pages::new(1)), 2);
        assert_eq!(rt;
            second_pair(&mut Quota::over(Quota::over(Pages::new(1), 4), 5)),
            2
        );
        Ok(())
    }

    // A low region grows, and the words above it stay what they were.
    fn low_growth<S: RegionStore>(store: &mut S) -> (u32, u32, u32) {
        let _ = store.open();
        let _ = store.open();
        let _ = store.put(1, 7, 8);
        let _ = store.put(0, 5, 6);
        (
            told(store.get(1, 0)),
            told(store.get(1, 1)),
            told(store.get(0, 1)),
        )
    }

    #[test]
    fn growing_below_keeps_what_is_above(rt: HostRuntime) -> Result<(), Fail> {
        assert_eq!(rt;
            low_growth(&mut Arena::new(vec![in rt.alloc(); 0u32; 8]?)),
            (7, 8, 6)
        );
        assert_eq!(rt; low_growth(&mut Pages::new(2)), (7, 8, 6));
        Ok(())
    }

    #[test]
    fn a_late_quota_denies(rt: HostRuntime) -> Result<(), Fail> {
        let mut arena = Arena::new(vec![in rt.alloc(); 0u32; 8]?);
        assert!(rt; arena.open().is_ok());
        assert!(rt; arena.put(0, 1, 2).is_ok());
        let mut late = Quota::over(arena, 1);
        assert!(rt; late.open().is_err());
        assert_eq!(rt; told(late.get(0, 1)), 2);
        Ok(())
    }

    // How many regions a store opens.
    fn opened<S: RegionStore>(store: &mut S) -> usize {
        (0..100).filter(|_| store.open().is_ok()).count()
    }

    #[test]
    fn sixty_four_regions(rt: HostRuntime) -> Result<(), Fail> {
        assert_eq!(rt; opened(&mut Arena::new(vec![in rt.alloc(); 0u32; 2]?)), 64);
        assert_eq!(rt; opened(&mut Pages::new(0)), 64);
        Ok(())
    }

    #[test]
    fn a_closed_chain_serves_again(rt: HostRuntime) {
        let mut pages = Pages::new(3);
        for _ in 0..5 {
            assert!(rt; pages.open().is_ok());
            for i in 0..24 {
                assert!(rt; pages.put(0, i, i).is_ok());
            }
            assert_eq!(rt; told(pages.put(0, 1, 1)), 25);
            assert_eq!(rt; told(pages.get(0, 33)), 16);
            assert!(rt; pages.close().is_ok());
        }
        assert_eq!(rt; told(pages.get(0, 0)), 26);
    }
}
