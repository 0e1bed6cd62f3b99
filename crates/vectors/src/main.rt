//! Published vectors and cases that are run.
#![tactic(auto)]

mod posts;
mod published;
mod sizes;

use any_cipher::AnyCipher;
use anyhow::anyhow;
use cipher::Counted;
use mode::{Mode, is_clear};
use posts::{after_wrong, two_empty_seals};
use published::published;
use refusals::{Refusal, answer_number};
use romulus_h::hash;
use romulus_m::RomulusM;
use romulus_n::RomulusN;
use romulus_t::RomulusT;
use sizes::{CASES, refused_so};
use skinny::Rounds;
use std::alloc::{AllocError, Global};
use worked_examples::worked_examples;

// Prints a case; one that fails ends the run.
fn check(rt: &HostRuntime, name: &str, holds: bool) -> anyhow::Result<()> {
    if !holds {
        println!(rt; "{name}: FAILED")?;
        return Err(anyhow!("a case failed"));
    }
    println!(rt; "{name}: ok")?;
    Ok(())
}

// Every refusal of a mode's direct calls that is answered from sizes, in order.
fn refusals<M: Mode>(rt: &HostRuntime, name: &str, mode: &M) -> anyhow::Result<()> {
    let mut held = 0u32;
    for sizes in &CASES {
        let mut cipher = Counted::new(AnyCipher::skinny(Rounds::Forty));
        if refused_so(rt.alloc(), mode, &mut cipher, sizes)? {
            held = held.saturating_add(1);
        }
    }
    println!(rt; "{name}: {held} of 13 cases of sizes")?;
    check(rt, name, held == 13)
}

// Whether the hash of so long an input into a place so long answers so, by the number too that is told outside, and leaves zeros only
// after a refusal.
fn hash_answers(
    heap: Global,
    input: usize,
    place: usize,
    answer: Result<(), Refusal>,
    number: u8,
) -> Result<bool, AllocError> {
    let text = vec![in heap; 5; input]?;
    let mut digest = vec![in heap; 9; place]?;
    let mut cipher = Counted::new(AnyCipher::skinny(Rounds::Forty));
    let answered = hash(&mut cipher, text.as_slice(), digest.as_mut_slice());
    let calls = match answer {
        Ok(()) => 2 * (1_048_576 / 32 + 1),
        Err(_) => 0,
    };
    Ok(
        answered == answer
            && answer_number(&answered) == number
            && cipher.calls() == calls
            && is_clear(digest.as_slice()) == answer.is_err(),
    )
}

// The hash at its limits.
fn hash_limits(rt: &HostRuntime) -> anyhow::Result<()> {
    let cases = [
        ("hash of 1,048,576 bytes", 1_048_576, 32, Ok(()), 0),
        (
            "hash of 1,048,577 bytes is refused with 14",
            1_048_577,
            31,
            Err(Refusal::HashLength),
            14,
        ),
        (
            "digest's place of 31 bytes is refused with 15",
            0,
            31,
            Err(Refusal::DigestLength),
            15,
        ),
        (
            "digest's place of 33 bytes is refused with 15",
            64,
            33,
            Err(Refusal::DigestLength),
            15,
        ),
    ];
    for (name, input, place, answer, number) in cases {
        check(
            rt,
            name,
            hash_answers(rt.alloc(), input, place, answer, number)?,
        )?;
    }
    Ok(())
}

fn post_cases(rt: &HostRuntime) -> anyhow::Result<()> {
    let cases = [
        (
            "an empty seal of Romulus-N at the allowance 1 gives 11",
            two_empty_seals(RomulusN, 1, 9) == Ok([11, 11]),
        ),
        (
            "at the allowance 2 it is taken",
            two_empty_seals(RomulusN, 2, 9) == Ok([0, 11]),
        ),
        (
            "a source of one nonce seals once, and then gives 12",
            two_empty_seals(RomulusN, 100, 1) == Ok([0, 12]),
        ),
        (
            "13 deducts the cost of a wrong opening: in Romulus-N that of a right one",
            after_wrong(RomulusN) == Ok((13, 98)),
        ),
        ("in Romulus-T less", after_wrong(RomulusT) == Ok((13, 95))),
    ];
    for (name, holds) in cases {
        check(rt, name, holds)?;
    }
    Ok(())
}

fn run(rt: &HostRuntime) -> anyhow::Result<()> {
    worked_examples();
    for vector in &published() {
        check(rt, vector.name, vector.holds())?;
    }
    refusals(rt, "Romulus-N", &RomulusN)?;
    refusals(rt, "Romulus-M", &RomulusM)?;
    refusals(rt, "Romulus-T", &RomulusT)?;
    hash_limits(rt)?;
    post_cases(rt)
}

fn main(rt: HostRuntime) -> anyhow::Result<()> {
    run(&rt)
}
