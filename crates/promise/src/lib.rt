//! What a post promises over whole runs, as definitions, and the proofs that every run keeps it.
#![tactic(auto)]

ghost use Rattle.std.specs.Prelude.{◌≡◌};
ghost use Rattle.refusals.specs.Refusals.{first_no, after_asking};
ghost use Rattle.promise.specs.Answers.{making_questions};
ghost use Rattle.promise.specs.Promises.{NeverTwice, EverySealThatCanBeIsTaken, OpensExactlyTheRightFrames, NumbersCostsReadings, EveryRun, EveryRunCounts, EveryTwoRuns, NothingLeftOpen};

use refusals::Refusal;

/// The largest allowance of a post, in calls of its cipher.
pub const MOST_ALLOWANCE: u64 = 1 << 40;

/// The first question before a post is made that is answered no.
pub fn ask_making(key: &[u8], allowance: u64) -> Result<(), Refusal>
    ensures { result ≡ after_asking (first_no (making_questions key.now allowance)) }
{
    if key.len() != 16 {
        Err(Refusal::KeyLength)
    } else if allowance > MOST_ALLOWANCE {
        Err(Refusal::AllowanceSize)
    } else {
        Ok(())
    }
}

/// Every run of a post, whatever its calls, keeps every promise. The theorems stand in the contract; the call does nothing.
pub fn promises_hold()
    ensures never_twice { EveryRun NeverTwice }
    ensures seals { EveryRun EverySealThatCanBeIsTaken }
    ensures opens { EveryRun OpensExactlyTheRightFrames }
    ensures answers { EveryRun NumbersCostsReadings }
    ensures counts { EveryRunCounts }
    ensures outside { EveryTwoRuns }
    ensures pinned { NothingLeftOpen }
{}
