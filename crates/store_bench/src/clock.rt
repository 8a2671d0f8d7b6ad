// Times, each the least of some rounds, and what their ratio says.
use std::time::Instant;

// How many rounds a time is the least of.
const ROUNDS: u32 = 9;

// The times at a small and at a large number of words.
#[derive(Clone, Copy)]
pub(crate) struct Times {
    pub small: u64,
    pub large: u64,
}

// Where times are taken and told: by verdicts alone, or with the times themselves.
#[derive(Clone, Copy)]
pub(crate) struct Clock<'a> {
    pub rt: &'a HostRuntime,
    // Said once, on the command line: the times are taken either way.
    pub timed: bool,
}

impl Clock<'_> {
    // The least time that some work on a store takes, in nanoseconds; the store is made ready before each round.
    pub fn least<S, R: Fn(&mut S), W: FnMut(&mut S)>(
        &self,
        store: &mut S,
        ready: R,
        mut work: W,
    ) -> anyhow::Result<u64>
        requires ready { R.IsAlwaysCallable ready }
        requires work { W.IsAlwaysCallable work }
    {
        let mut best = u64::MAX;
        for _ in 0..ROUNDS {
            ready(store);
            let start = Instant::now(self.rt)?;
            work(store);
            let nanos = start.elapsed(self.rt)?.as_nanos();
            best = best.min(u64::try_from(nanos).unwrap_or(u64::MAX));
        }
        Ok(best)
    }

    // Tells of what should not grow: it stays within ten times and what a busy clock may take.
    pub fn stays(&self, name: &str, times: Times) -> anyhow::Result<()> {
        let within = times.large <= times.small.saturating_mul(10).saturating_add(400);
        self.tell(
            name,
            if within {
                "does not grow"
            } else {
                "NOT AS IT SHOULD BE"
            },
            times,
        )
    }

    // Tells of what should grow: it is beyond three times.
    pub fn grows(&self, name: &str, times: Times) -> anyhow::Result<()> {
        let beyond = times.large >= times.small.saturating_mul(3);
        self.tell(
            name,
            if beyond {
                "grows"
            } else {
                "NOT AS IT SHOULD BE"
            },
            times,
        )
    }

    fn tell(&self, name: &str, verdict: &str, times: Times) -> anyhow::Result<()> {
        println!(self.rt; "  {name}: {verdict}")?;
        if self.timed {
            let Times { small, large } = times;
            let tenths = large.saturating_mul(10) / small.max(1);
            println!(self.rt;
                "    {small} ns, {large} ns: {}.{} times",
                tenths / 10,
                tenths % 10
            )?;
        }
        Ok(())
    }
}
