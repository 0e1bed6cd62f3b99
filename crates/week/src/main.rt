//! A week in the workshop: one settings record, from the counter to the loading dock.
#![tactic(auto)]

mod days;
mod frame;
mod posts;
mod settings;
mod workshop;

use days::{friday, monday, saturday, thursday, tuesday};
use posts::{close_the_week, wednesday};
use settings::Settings;
use skinny::Rounds;
use workshop::Workshop;

// One scanner's week.
fn scanner(rt: &HostRuntime, rounds: Rounds, label: &str, nonce: [u8; 16]) -> anyhow::Result<()> {
    let settings = Settings {
        trigger: 250,
        beep: true,
        baud: 9600,
    };
    let workshop = Workshop { rt, rounds };
    let sealed = monday(workshop, label, nonce, &settings)?;
    tuesday(rt, &sealed)?;
    let changed = wednesday(workshop, &sealed)?;
    thursday(workshop, &changed)?;
    friday(workshop, &changed)?;
    saturday(workshop, changed)
}

fn week(rt: &HostRuntime) -> anyhow::Result<()> {
    println!(rt; "A new scanner, on Skinny-128-384 with 40 rounds")?;
    scanner(
        rt,
        Rounds::Forty,
        "serial 4711, job 'front gate'",
        *b"counter 00000001",
    )?;
    println!(rt; "")?;
    println!(rt; "An old scanner, with 56 rounds")?;
    scanner(
        rt,
        Rounds::FiftySix,
        "serial 0815, job 'cold store'",
        *b"counter 00000002",
    )?;
    println!(rt; "")?;
    close_the_week(rt)
}

fn main(rt: HostRuntime) -> anyhow::Result<()> {
    week(&rt)
}
