//! One mode on one cipher: cases sealed, opened, and opened damaged.
use crate::case::{Case, Part, Sealed};
use crate::totals::Totals;
use any_cipher::AnyCipher;
use cipher::Counted;
use mode::Mode;
use refusals::Refusal;
use std::alloc::{AllocError, Global};

const KEY: [u8; 16] = [0, 1, 2, 3, 4, 5, 6, 7, 8, 9, 10, 11, 12, 13, 14, 15];

/// A mode and a cipher, with what was counted of their calls.
#[derive(Drop)]
pub struct Sweep<M> {
    heap: Global,
    mode: M,
    cipher: Counted<AnyCipher>,
    pub totals: Totals,
}

impl<M: Mode> Sweep<M> {
    pub(crate) fn new(heap: Global, mode: M, cipher: AnyCipher) -> Sweep<M> {
        Sweep {
            heap,
            mode,
            cipher: Counted::new(cipher),
            totals: Totals::default(),
        }
    }

    // Seals a case, and counts the cipher's calls against the told cost.
    fn seal(&mut self, case: &Case) -> Result<Sealed, AllocError> {
        let nonce = case.nonce.clone()?;
        let ad = case.ad.clone()?;
        let mut text = vec![in self.heap; 0; case.message.len()]?;
        let mut tag = vec![in self.heap; 0; 16]?;
        let told = self.mode.costs(ad.len(), text.len()).seal;
        let before = self.cipher.calls();
        let outcome = self.mode.seal(
            &mut self.cipher,
            &KEY,
            nonce.as_slice(),
            ad.as_slice(),
            case.message.as_slice(),
            text.as_mut_slice(),
            tag.as_mut_slice(),
        );
        let rose = self.cipher.calls().wrapping_sub(before);
        self.totals.count_calls(rose, told, outcome.cost);
        Ok(Sealed {
            nonce,
            ad,
            text,
            tag,
        })
    }

    // Opens a frame: the number that is told outside, and the message or why it was refused.
    fn open(&mut self, frame: &Sealed) -> Result<(u8, Result<Vec<u8>, Refusal>), AllocError> {
        let mut out = vec![in self.heap; 0; frame.text.len()]?;
        let costs = self.mode.costs(frame.ad.len(), frame.text.len());
        let before = self.cipher.calls();
        let outcome = self.mode.open(
            &mut self.cipher,
            &KEY,
            frame.nonce.as_slice(),
            frame.ad.as_slice(),
            frame.text.as_slice(),
            frame.tag.as_slice(),
            out.as_mut_slice(),
        );
        let (told, opened) = match outcome.answer {
            Ok(()) => (costs.right, Ok(out)),
            Err(refusal) => (costs.wrong, Err(refusal)),
        };
        let rose = self.cipher.calls().wrapping_sub(before);
        self.totals.count_calls(rose, told, outcome.cost);
        Ok((outcome.number(), opened))
    }

    /// One case: sealed, opened, and opened once more with each part damaged.
    pub(crate) fn run(&mut self, case: &Case) -> Result<(), AllocError> {
        let sealed = self.seal(case)?;
        self.totals.chain(self.heap, &sealed)?;
        let (number, opened) = self.open(&sealed)?;
        let right = opened.is_ok_and(|message| message == case.message);
        self.totals.count_right(number == 0 && right);
        for part in [Part::Nonce, Part::Data, Part::Text, Part::Tag] {
            if let Some(damaged) = sealed.damaged(part)? {
                let (number, opened) = self.open(&damaged)?;
                let wrong = opened.err() == Some(Refusal::WrongFrame);
                self.totals.count_damaged(number == 13 && wrong);
            }
        }
        Ok(())
    }
}
