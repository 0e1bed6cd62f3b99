//! The days on which posts work.
use crate::frame::Frame;
use crate::settings::Settings;
use crate::workshop::{KEY, Workshop, settings_in};
use anyhow::anyhow;
use cipher::Counted;
use mode::Outcome;
use nonces::{Counting, NonceSource, Sheet, from_two_numbers};
use post::{Post, Reading};
use romulus_n::RomulusN;
use side_by_side::{Answer, Parts, Request, Turn, side_by_side};
use skinny::{Rounds, Skinny};
use std::alloc::{AllocError, Global};

fn counting(first: u64, amount: u64) -> anyhow::Result<Counting> {
    Counting::new(b"bench 07", first, amount).map_err(|_| anyhow!(
        "the counting source was refused"
    ))
}

fn print_reading(rt: &HostRuntime, reading: Reading) -> anyhow::Result<()> {
    let Reading {
        left,
        sealed,
        opened,
        wrong,
    } = reading;
    println!(rt; "  reading: {left} calls left, {sealed} sealed, {opened} opened, {wrong} wrong")?;
    Ok(())
}

/// The bench opens Monday's record and moves the trigger time, and a post seals it again under a nonce of its own.
pub(crate) fn wednesday(workshop: Workshop, frame: &Frame) -> anyhow::Result<Frame> {
    let rt = workshop.rt;
    println!(rt; "Wednesday, at the bench:")?;
    let record = workshop.open(&RomulusN, frame)?;
    let was = settings_in(record.as_slice())?;
    let settings = Settings {
        trigger: was.trigger.saturating_add(50),
        ..was
    };
    println!(rt; "  record: {settings}")?;
    let record = format!(in rt.alloc(); "{settings}")?;
    // the nonce is the post's to tell
    let mut changed = Frame::blank(rt.alloc(), [0; 16], frame.label.as_slice(), record.len())?;
    let (sealed, reading) = seal_by_post(workshop.rounds, &mut changed, record.as_bytes())?;
    let number = sealed.number();
    let cost = sealed.cost;
    println!(rt; "  sealed by a post: answer {number}, {cost} cipher calls")?;
    if let Ok((high, low)) = sealed.answer {
        changed.nonce = from_two_numbers(high, low);
    }
    workshop.print_frame(&changed)?;
    print_reading(rt, reading)?;
    Ok(changed)
}

// Makes a post, seals one record into a frame, and retires the post.
fn seal_by_post(
    rounds: Rounds,
    frame: &mut Frame,
    record: &[u8],
) -> anyhow::Result<(Outcome<(u64, u64)>, Reading)> {
    let cipher = Counted::new(Skinny::new(rounds));
    let mut post = Post::new(RomulusN, cipher, counting(1, 100)?, &KEY, 1000).map_err(|_| anyhow!(
        "the post was refused"
    ))?;
    let sealed = post.seal(
        frame.label.as_slice(),
        record,
        frame.text.as_mut_slice(),
        &mut frame.tag,
    );
    let retired = post.retire();
    Ok((sealed, retired.reading))
}

fn seal_turn(heap: Global, record: &str) -> Result<Turn, AllocError> {
    Ok(Turn::new(Request::Seal {
        ad: b"closing".to_vec(heap)?,
        message: record.as_bytes().to_vec(heap)?,
        out: vec![in heap; 0; record.len()]?,
        tag: vec![in heap; 0; 16]?,
    }))
}

// A frame that nobody sealed.
fn stray_turn(heap: Global) -> Result<Turn, AllocError> {
    Ok(Turn::new(Request::Open {
        nonce: vec![in heap; 1; 16]?,
        ad: b"closing".to_vec(heap)?,
        text: vec![in heap; 2; 20]?,
        tag: vec![in heap; 3; 16]?,
        out: vec![in heap; 9; 20]?,
    }))
}

fn closing_turns(heap: Global, one: &str, two: &str) -> Result<Vec<Turn>, AllocError> {
    let turns = [
        seal_turn(heap, one)?,
        stray_turn(heap)?,
        seal_turn(heap, two)?,
        Turn::new(Request::ReadOut),
        seal_turn(heap, one)?,
    ];
    Ok(Vec::from_array(heap, turns)?)
}

// Prints an answer, with the nonce 0 where none was used.
fn print_answer<T>(
    rt: &HostRuntime,
    outcome: &Outcome<T>,
    nonce: Option<(u64, u64)>,
) -> anyhow::Result<()> {
    let number = outcome.number();
    let cost = outcome.cost;
    let (high, low) = nonce.unwrap_or((0, 0));
    println!(rt; "  answer {number}, nonce {high:016x} {low:016x}, cost {cost}")?;
    Ok(())
}

// Prints what a post answered, and its last reading.
fn print_post(rt: &HostRuntime, name: &str, turns: &[Turn], last: Reading) -> anyhow::Result<()> {
    println!(rt; " the {name} post")?;
    for turn in turns {
        match &turn.answer {
            Some(Answer::Sealed(outcome)) => print_answer(rt, outcome, outcome.answer.ok())?,
            Some(Answer::Opened(outcome)) => print_answer(rt, outcome, None)?,
            Some(Answer::Reading(reading)) => print_reading(rt, *reading)?,
            None => println!(rt; "  not served")?,
        }
    }
    print_reading(rt, last)
}

// The parts of a post of 100 calls.
fn parts<S>(rounds: Rounds, source: S) -> Parts<RomulusN, Counted<Skinny>, S> {
    Parts {
        mode: RomulusN,
        cipher: Counted::new(Skinny::new(rounds)),
        source,
        allowance: 100,
    }
}

// Serves two posts of one mode side by side, whatever their nonce sources, and prints what they answered.
fn close<S: NonceSource + Drop, R: NonceSource + Drop>(
    rt: &HostRuntime,
    source: S,
    other_source: R,
) -> anyhow::Result<()> {
    let mut first = closing_turns(
        rt.alloc(),
        "trigger=300 beep=on baud=9600",
        "trigger=250 beep=on baud=9600",
    )?;
    let mut second = closing_turns(
        rt.alloc(),
        "trigger=120 beep=off baud=4800",
        "trigger=80 beep=off baud=19200",
    )?;
    let ended = side_by_side(
        parts(Rounds::Forty, source),
        &KEY,
        first.as_mut_slice(),
        parts(Rounds::FiftySix, other_source),
        b"shelf box key 08",
        second.as_mut_slice(),
    )
    .map_err(|_| anyhow!("a making was refused"))?;
    print_post(rt, "first", first.as_slice(), ended.one.reading)?;
    print_post(rt, "second", second.as_slice(), ended.two.reading)
}

/// Two posts close the week side by side: one counts its nonces on 40 rounds, one reads them off a sheet on 56.
pub(crate) fn close_the_week(rt: &HostRuntime) -> anyhow::Result<()> {
    println!(rt; "Closing the week, two posts side by side:")?;
    let entries = [0x626e_6368_2030_3739, 1, 0x626e_6368_2030_3739, 2];
    let sheet = Sheet::new(&entries).map_err(|_| anyhow!("the sheet was refused"))?;
    close(rt, counting(200, 3)?, sheet)
}
