// What holds of the plain run, of striking out and of reading lists, each law named by the contract of a function.
ghost use Rattle.std.specs.Prelude.{◌≡◌};
ghost use Rattle.language.specs.RunLaws.{OneStop, OneAnswer, CallsKeep, RunOver, ResumeCounts, GoesOn, ExhaustedExactly, StruckSpelling, StruckAlike, ReadsOnce, ReferenceSays};
ghost use Rattle.language.specs.RunExamples.{Worked};

// every resume comes to exactly one stop, and its words never run out
pub fn one_stop() -> u8
    ensures is { result ≡ 0 }
    ensures law { OneStop }
{
    0
}

// a resume that is not refused answers by that stop
pub fn one_answer() -> u8
    ensures is { result ≡ 0 }
    ensures law { OneAnswer }
{
    0
}

// a refusal changes no session, and a list keeps its length
pub fn calls_keep() -> u8
    ensures is { result ≡ 0 }
    ensures law { CallsKeep }
{
    0
}

// after a resume that is told, the run is over exactly unless it ended spent or list full
pub fn run_over() -> u8
    ensures is { result ≡ 0 }
    ensures law { RunOver }
{
    0
}

// units and entries are neither lost nor invented
pub fn resume_counts() -> u8
    ensures is { result ≡ 0 }
    ensures law { ResumeCounts }
{
    0
}

// a run goes on at the word where it stopped
pub fn goes_on() -> u8
    ensures is { result ≡ 0 }
    ensures law { GoesOn }
{
    0
}

// a resume answers exhausted exactly when its run comes to a word after which the rule denies the account
pub fn exhausted_exactly() -> u8
    ensures is { result ≡ 0 }
    ensures law { ExhaustedExactly }
{
    0
}

// the struck-out script is spelled by the tokens that striking out leaves
pub fn struck_spelling() -> u8
    ensures is { result ≡ 0 }
    ensures law { StruckSpelling }
{
    0
}

// striking out region words leaves values, prints, results, endings and places as they are
pub fn struck_alike() -> u8
    ensures is { result ≡ 0 }
    ensures law { StruckAlike }
{
    0
}

// a word reads as at most one value
pub fn reads_once() -> u8
    ensures is { result ≡ 0 }
    ensures law { ReadsOnce }
{
    0
}

// a reference says its position and its place
pub fn reference_says() -> u8
    ensures is { result ≡ 0 }
    ensures law { ReferenceSays }
{
    0
}

// the worked examples of runs
pub fn worked_runs() -> u8
    ensures is { result ≡ 0 }
    ensures law { Worked }
{
    0
}
