//! The days on which the modes are called directly.
use crate::frame::Frame;
use crate::settings::Settings;
use crate::workshop::{Workshop, settings_in};
use byte_blocks::equal;
use cipher::Counted;
use refusals::answer_number;
use romulus_h::hash;
use romulus_m::RomulusM;
use romulus_n::RomulusN;
use romulus_t::RomulusT;
use skinny::Skinny;

/// The counter seals the record with Romulus-N; serial number and job are the label.
pub(crate) fn monday(
    workshop: Workshop,
    label: &str,
    nonce: [u8; 16],
    settings: &Settings,
) -> anyhow::Result<Frame> {
    let rt = workshop.rt;
    println!(rt; "Monday, at the counter: {label}")?;
    println!(rt; "  record: {settings}")?;
    let record = format!(in rt.alloc(); "{settings}")?;
    let frame = workshop.seal(&RomulusN, nonce, label.as_bytes(), record.as_bytes())?;
    workshop.print_frame(&frame)?;
    Ok(frame)
}

/// Anybody reads the label, without the key.
pub(crate) fn tuesday(rt: &HostRuntime, frame: &Frame) -> anyhow::Result<()> {
    let label = frame.label();
    println!(rt; "Tuesday, on the shelf, without the key:")?;
    println!(rt; "  the label reads: {label}")?;
    Ok(())
}

fn compared(one: &Frame, other: &Frame) -> &'static str {
    // the tags without an early end, which `==` does not promise
    if equal(&one.tag, &other.tag) && one == other {
        "the same frame"
    } else {
        "another frame"
    }
}

/// A copy goes into Romulus-M, where a nonce may repeat: the same copy gives the same frame, another record another frame.
pub(crate) fn thursday(workshop: Workshop, frame: &Frame) -> anyhow::Result<()> {
    let rt = workshop.rt;
    println!(rt; "Thursday, a copy for the drawer, under one nonce throughout:")?;
    let record = workshop.open(&RomulusN, frame)?;
    let nonce = *b"drawer copy 0001";
    let label = frame.label.as_slice();
    let one = workshop.seal(&RomulusM, nonce, label, record.as_slice())?;
    let two = workshop.seal(&RomulusM, nonce, label, record.as_slice())?;
    let other = workshop.seal(&RomulusM, nonce, label, b"trigger=90 beep=off baud=19200")?;
    workshop.print_frame(&one)?;
    let again = compared(&one, &two);
    let changed = compared(&one, &other);
    println!(rt; "  the same copy sealed again is {again}, another record is {changed}")?;
    Ok(())
}

/// The scanner is calibrated next to probes through Romulus-T, and the job sheet gets its digest.
pub(crate) fn friday(workshop: Workshop, frame: &Frame) -> anyhow::Result<()> {
    let rt = workshop.rt;
    println!(rt; "Friday, calibration next to probes:")?;
    let record = workshop.open(&RomulusN, frame)?;
    let calibrated = workshop.seal(
        &RomulusT,
        *b"calibration 0001",
        frame.label.as_slice(),
        record.as_slice(),
    )?;
    workshop.print_frame(&calibrated)?;
    let mut place = vec![in rt.alloc(); 0; calibrated.text.len()]?;
    let verdict = match workshop.open_into(&RomulusT, &calibrated, place.as_mut_slice())? {
        Ok(()) => "right",
        Err(_) => "wrong",
    };
    println!(rt; "  calibration frame: {verdict}")?;
    let mut digest = [0; 32];
    let mut cipher = Counted::new(Skinny::new(workshop.rounds));
    let number = answer_number(&hash(&mut cipher, record.as_slice(), &mut digest));
    let digest = hex::encode(rt.alloc(), digest.as_slice())?;
    println!(rt; "  for the job sheet, the record's digest: answer {number}, {digest}")?;
    Ok(())
}

/// The frame is opened on the loading dock; one with a turned bit is refused.
pub(crate) fn saturday(workshop: Workshop, mut frame: Frame) -> anyhow::Result<()> {
    let rt = workshop.rt;
    println!(rt; "Saturday, on the loading dock:")?;
    let mut place = workshop.open(&RomulusN, &frame)?;
    let settings = settings_in(place.as_slice())?;
    println!(rt; "  settings: {settings}")?;
    println!(rt; "  and the same frame with one bit of its tag turned:")?;
    frame.tag[15] ^= 1;
    let _ = workshop.open_into(&RomulusN, &frame, place.as_mut_slice())?;
    let left = hex::encode(rt.alloc(), place.as_slice())?;
    println!(rt; "  the output place holds {left}")?;
    Ok(())
}
