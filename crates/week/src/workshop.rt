//! The workshop's key at work on one scanner: records sealed into frames and frames opened, each call told.
use crate::frame::Frame;
use crate::settings::Settings;
use anyhow::anyhow;
use cipher::Counted;
use mode::Mode;
use refusals::Refusal;
use skinny::{Rounds, Skinny};

pub const KEY: [u8; 16] = *b"shelf box key 07";

/// Where the calls are told, and the rounds of the scanner's cipher.
#[derive(Clone, Copy)]
pub struct Workshop<'a> {
    pub rt: &'a HostRuntime,
    pub rounds: Rounds,
}

impl Workshop<'_> {
    /// Seals a record under a nonce that is handed in.
    pub(crate) fn seal<M: Mode>(
        self,
        mode: &M,
        nonce: [u8; 16],
        label: &[u8],
        record: &[u8],
    ) -> anyhow::Result<Frame> {
        let Workshop { rt, rounds } = self;
        let mut frame = Frame::blank(rt.alloc(), nonce, label, record.len())?;
        let mut cipher = Counted::new(Skinny::new(rounds));
        let sealed = mode.seal(
            &mut cipher,
            &KEY,
            &nonce,
            frame.label.as_slice(),
            record,
            frame.text.as_mut_slice(),
            &mut frame.tag,
        );
        let number = sealed.number();
        let cost = sealed.cost;
        println!(rt; "  sealed: answer {number}, {cost} cipher calls")?;
        Ok(frame)
    }

    /// Opens a frame into an output place of its length, and answers what the mode does.
    pub(crate) fn open_into<M: Mode>(
        self,
        mode: &M,
        frame: &Frame,
        out: &mut [u8],
    ) -> anyhow::Result<Result<(), Refusal>> {
        let Workshop { rt, rounds } = self;
        let mut cipher = Counted::new(Skinny::new(rounds));
        let opened = mode.open(
            &mut cipher,
            &KEY,
            &frame.nonce,
            frame.label.as_slice(),
            frame.text.as_slice(),
            &frame.tag,
            out,
        );
        let number = opened.number();
        let cost = opened.cost;
        println!(rt; "  opened: answer {number}, {cost} cipher calls")?;
        Ok(opened.answer)
    }

    /// The record in a frame that is right.
    pub(crate) fn open<M: Mode>(self, mode: &M, frame: &Frame) -> anyhow::Result<Vec<u8>> {
        let mut record = vec![in self.rt.alloc(); 0; frame.text.len()]?;
        self.open_into(mode, frame, record.as_mut_slice())?
            .map_err(|_| anyhow!("the frame was refused"))?;
        Ok(record)
    }

    /// Prints a frame's nonce, ciphertext and tag.
    pub(crate) fn print_frame(self, frame: &Frame) -> anyhow::Result<()> {
        let rt = self.rt;
        let nonce = hex::encode(rt.alloc(), frame.nonce.as_slice())?;
        let text = hex::encode(rt.alloc(), frame.text.as_slice())?;
        let tag = hex::encode(rt.alloc(), frame.tag.as_slice())?;
        println!(rt; "  nonce      {nonce}")?;
        println!(rt; "  ciphertext {text}")?;
        println!(rt; "  tag        {tag}")?;
        Ok(())
    }
}

/// The settings in an opened record.
pub(crate) fn settings_in(record: &[u8]) -> anyhow::Result<Settings> {
    let text = std::str::from_utf8(record).map_err(|_| anyhow!("the record is no text"))?;
    Ok(text.parse::<Settings>()?)
}
