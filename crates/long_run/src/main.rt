//! A long run of posts: calls of mixed kinds from a small fixed generator, on each mode and each kind of nonce source.
//! The program keeps its own books, compares them with every answer and every reading, and tells the differences.
#![tactic(auto)]

mod amounts;
mod books;
mod calls;
mod generator;
mod makings;

use amounts::Amounts;
use anyhow::anyhow;
use books::Books;
use calls::Bench;
use cipher::Counted;
use generator::Generator;
use makings::try_making;
use mode::Mode;
use nonces::{Counting, NonceSource, Sheet};
use post::Post;
use romulus_m::RomulusM;
use romulus_n::RomulusN;
use romulus_t::RomulusT;
use skinny::{Rounds, Skinny};
use std::alloc::{AllocError, Global};

const KEY: [u8; 16] = *b"long run's key 1";

const SHEET_NONCES: u64 = 4_096;

/// What a post is given: its name here, its allowance, the number of its nonces, and the calls that it gets.
#[derive(Clone, Copy)]
struct Terms<'a> {
    name: &'a str,
    allowance: u64,
    nonces: u64,
    calls: u64,
}

// One post, from making to retirement.
fn run<M: Mode + Copy, S: NonceSource + Drop>(
    rt: &HostRuntime,
    mode_name: &str,
    mode: M,
    source: S,
    terms: Terms,
) -> anyhow::Result<()> {
    let Terms {
        name,
        allowance,
        nonces,
        calls,
    } = terms;
    let books = Books::new(allowance, nonces);
    let mut bench = Bench::new(rt.alloc(), mode, books, Generator::new(allowance))?;
    let cipher = Counted::new(Skinny::new(Rounds::Forty));
    let mut post = Post::new(mode, cipher, source, &KEY, allowance).map_err(|_| anyhow!(
        "the making was refused"
    ))?;
    let called = bench.calls(&mut post, calls);
    let retired = post.retire();
    bench.books.compare(retired.reading);
    let books = &bench.books;
    println!(rt; "{mode_name}, {name}: {books}")?;
    called.map_err(|_| anyhow!("no memory"))
}

// One mode on each kind of nonce source with an allowance that lasts, and with one that runs out: one cipher call for each call.
fn on_all_sources<M: Mode + Copy>(
    rt: &HostRuntime,
    mode_name: &str,
    mode: M,
    entries: &[u64],
    amounts: Amounts,
) -> anyhow::Result<()> {
    let Amounts { calls, nonces, .. } = amounts;
    let counting = || {
        Counting::new(b"long run", 1, nonces).map_err(|_| anyhow!(
            "the counting source was refused"
        ))
    };
    let lasting = Terms {
        name: "counting",
        allowance: 1 << 40,
        nonces,
        calls,
    };
    let on_sheet = Terms {
        name: "sheet",
        allowance: 1 << 39,
        nonces: SHEET_NONCES,
        calls,
    };
    let scant = Terms {
        name: "scant allowance",
        allowance: calls,
        nonces,
        calls,
    };
    run(rt, mode_name, mode, counting()?, lasting)?;
    let sheet = Sheet::new(entries).map_err(|_| anyhow!("the sheet was refused"))?;
    run(rt, mode_name, mode, sheet, on_sheet)?;
    run(rt, mode_name, mode, counting()?, scant)
}

// The largest sheet: 4,096 nonces, no two alike.
fn largest_sheet(heap: Global) -> Result<Vec<u64>, AllocError> {
    // `flat_map` and `collect` take three times as many steps
    let mut entries = Vec::new(heap);
    for i in 0..SHEET_NONCES {
        entries.extend_from_slice(&[i % 64, i])?;
    }
    Ok(entries)
}

// Makings alone, most of them refused.
fn on_makings(rt: &HostRuntime, makings: u64) -> anyhow::Result<()> {
    let mut books = Books::new(0, 0);
    let mut generator = Generator::new(makings);
    for _ in 0..makings {
        try_making(rt.alloc(), &mut generator, &mut books)?;
    }
    println!(rt; "makings: {books}")?;
    Ok(())
}

fn long_run(rt: &HostRuntime) -> anyhow::Result<()> {
    let amounts = Amounts::from_args(rt)?;
    let entries = largest_sheet(rt.alloc())?;
    on_all_sources(rt, "N", RomulusN, entries.as_slice(), amounts)?;
    on_all_sources(rt, "M", RomulusM, entries.as_slice(), amounts)?;
    on_all_sources(rt, "T", RomulusT, entries.as_slice(), amounts)?;
    if amounts.makings > 0 {
        on_makings(rt, amounts.makings)?;
    }
    Ok(())
}

fn main(rt: HostRuntime) -> anyhow::Result<()> {
    long_run(&rt)
}
