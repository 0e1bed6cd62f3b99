//! What every mode has: its meaning, its costs, and the questions before its work.
#![tactic(auto)]

ghost use Rattle.std.specs.Prelude.{◌≡◌, length, if◌then◌else◌, Decides};
ghost use Rattle.refusals.specs.Refusals.{first_no, answer_number, after_asking};
ghost use Rattle.cipher.specs.Cipher.{Called};
ghost use Rattle.mode.specs.Mode.{Scheme, Keeps, SealsTo, Opened, zeros};
ghost use Rattle.mode.specs.Calls.{frame_questions, size_questions, alike, taken as taken_of, refused as refused_of, wrong as wrong_of, SealAnswer, OpenAnswer};

use byte_blocks::{block_of, equal};
use cipher::Cipher;
use refusals::{Refusal, answer_number};

/// What a seal, a right opening and a wrong opening cost, in calls of the cipher.
#[derive(Clone, Copy)]
pub struct Costs {
    pub seal: u64,
    pub right: u64,
    pub wrong: u64,
}

impl Costs {
    /// The costs of a mode where seals, right openings and wrong openings cost the same.
    pub fn alike(calls: u64) -> Self
        ensures { result ≡ alike calls }
    {
        Costs {
            seal: calls,
            right: calls,
            wrong: calls,
        }
    }
}

/// What a call answers: what it gives, or the question that refused it; and what it cost.
#[derive(Clone, Copy)]
pub struct Outcome<T> {
    pub answer: Result<T, Refusal>,
    pub cost: u64,
}

impl<T> Outcome<T> {
    /// A call that was taken.
    pub fn taken(given: T, cost: u64) -> Self
        ensures { result ≡ taken_of given cost }
    {
        Outcome {
            answer: Ok(given),
            cost,
        }
    }

    /// A call that was refused before its work, so that it cost nothing.
    pub fn refused(refusal: Refusal) -> Self
        ensures { result ≡ refused_of refusal }
    {
        Outcome {
            answer: Err(refusal),
            cost: 0,
        }
    }

    /// The answer's number: 0 where the call was taken.
    pub fn number(&self) -> u8
        ensures { result ≡ answer_number self.now.answer }
    {
        answer_number(&self.answer)
    }
}

impl Outcome<()> {
    /// An opening of a wrong frame: the one refusal that costs calls of the cipher.
    pub fn wrong(calls: u64) -> Self
        ensures { result ≡ wrong_of calls }
    {
        Outcome {
            answer: Err(Refusal::WrongFrame),
            cost: calls,
        }
    }
}

/// The first question on the sizes of a frame that is answered no.
pub fn ask_frame(ad: usize, text: usize, out: usize, tag: usize) -> Result<(), Refusal>
    ensures { result ≡ after_asking (first_no (frame_questions ad text out tag)) }
{
    if ad > 65535 {
        Err(Refusal::DataLength)
    } else if text > 65535 {
        Err(Refusal::TextLength)
    } else if out != text {
        Err(Refusal::OutputLength)
    } else if tag != 16 {
        Err(Refusal::TagLength)
    } else {
        Ok(())
    }
}

/// The first question on the sizes of a direct call that is answered no.
pub fn ask_sizes(
    key: usize,
    ad: usize,
    text: usize,
    out: usize,
    tag: usize,
    nonce: usize,
) -> Result<(), Refusal>
    ensures { result ≡ after_asking (first_no (size_questions key ad text out tag nonce)) }
{
    if key != 16 {
        return Err(Refusal::KeyLength);
    }
    ask_frame(ad, text, out, tag)?;
    if nonce != 16 {
        return Err(Refusal::NonceLength);
    }
    Ok(())
}

/// Writes zeros over a place.
pub fn clear(place: &mut [u8])
    ensures { place.new ≡ zeros place.old }
{
    place.fill(0);
}

/// Whether a place holds zeros and nothing else.
pub fn is_clear(place: &[u8]) -> bool
    ensures { Decides result (place.now ≡ zeros place.now) }
{
    place.iter().all(|byte| *byte == 0)
}

/// A mode of authenticated encryption over any cipher.
///
/// An implementation brings its costs and the two calls in place, which take texts of any length;
/// the asking calls `seal` and `open` are the same for all modes.
pub trait Mode {
    // What a message seals to, and what the calls cost.
    ghost scheme: { Scheme };

    /// The costs for data and message of these lengths, worked out without a call of the cipher.
    fn costs(&self, ad_len: usize, len: usize) -> Costs
        ensures { result ≡ scheme.costs ad_len len };

    /// Seals the text in its own place, and returns the tag.
    fn seal_in_place<C: Cipher>(
        &self,
        cipher: &mut C,
        key: &[u8; 16],
        nonce: &[u8; 16],
        ad: &[u8],
        text: &mut [u8],
    ) -> [u8; 16]
        ensures seals { SealsTo scheme (C.answer cipher.old) key.now nonce.now ad.now text.old text.new result }
        ensures called { Called (C.answer cipher.old) (C.count cipher.old) (scheme.costs (length ad.now) (length text.old)).seal (C.answer cipher.new) (C.count cipher.new) };

    /// Opens the text in its own place, and says whether the frame was right. A wrong one leaves zeros.
    fn open_in_place<C: Cipher>(
        &self,
        cipher: &mut C,
        key: &[u8; 16],
        nonce: &[u8; 16],
        ad: &[u8],
        text: &mut [u8],
        tag: &[u8; 16],
    ) -> bool
        ensures opened { Opened scheme (C.answer cipher.old) key.now nonce.now ad.now text.old tag.now result text.new }
        ensures called { Called (C.answer cipher.old) (C.count cipher.old) (if result then (scheme.costs (length ad.now) (length text.old)).right else (scheme.costs (length ad.now) (length text.old)).wrong) (C.answer cipher.new) (C.count cipher.new) };

    /// Seals a message into an output place and a tag place, after all questions on the sizes.
    fn seal<C: Cipher>(
        &self,
        cipher: &mut C,
        key: &[u8],
        nonce: &[u8],
        ad: &[u8],
        message: &[u8],
        out: &mut [u8],
        tag: &mut [u8],
    ) -> Outcome<()>
        ensures answered { SealAnswer scheme (C.answer cipher.old) key.now nonce.now ad.now message.now out.old tag.old (first_no (size_questions (length key.now) (length ad.now) (length message.now) (length out.old) (length tag.old) (length nonce.now))) result out.new tag.new }
        ensures called { Called (C.answer cipher.old) (C.count cipher.old) result.cost (C.answer cipher.new) (C.count cipher.new) }
        ensures kept { result.cost ≡ 0 → cipher.new ≡ cipher.old }
    {
        if let Err(refusal) = ask_sizes(
            key.len(),
            ad.len(),
            message.len(),
            out.len(),
            tag.len(),
            nonce.len(),
        ) {
            clear(out);
            clear(tag);
            return Outcome::refused(refusal);
        }
        let cost = self.costs(ad.len(), message.len()).seal;
        out.copy_from_slice(message);
        let made = self.seal_in_place(cipher, &block_of(key), &block_of(nonce), ad, out);
        tag.copy_from_slice(&made);
        Outcome::taken((), cost)
    }

    /// Opens a frame into an output place, after all questions on the sizes.
    fn open<C: Cipher>(
        &self,
        cipher: &mut C,
        key: &[u8],
        nonce: &[u8],
        ad: &[u8],
        text: &[u8],
        tag: &[u8],
        out: &mut [u8],
    ) -> Outcome<()>
        ensures answered { OpenAnswer scheme (C.answer cipher.old) key.now nonce.now ad.now text.now tag.now out.old (first_no (size_questions (length key.now) (length ad.now) (length text.now) (length out.old) (length tag.now) (length nonce.now))) result out.new }
        ensures called { Called (C.answer cipher.old) (C.count cipher.old) result.cost (C.answer cipher.new) (C.count cipher.new) }
        ensures kept { result.cost ≡ 0 → cipher.new ≡ cipher.old }
    {
        if let Err(refusal) = ask_sizes(
            key.len(),
            ad.len(),
            text.len(),
            out.len(),
            tag.len(),
            nonce.len(),
        ) {
            clear(out);
            return Outcome::refused(refusal);
        }
        let costs = self.costs(ad.len(), text.len());
        out.copy_from_slice(text);
        let right = self.open_in_place(
            cipher,
            &block_of(key),
            &block_of(nonce),
            ad,
            out,
            &block_of(tag),
        );
        if right {
            Outcome::taken((), costs.right)
        } else {
            Outcome::wrong(costs.wrong)
        }
    }

    // What every mode owes: lengths, one message for a frame, and costs of at least 1.
    ghost keeps: { Keeps scheme };
}

/// Ends an opening in place: the message found stays where the tag made of it is the frame's, and else becomes zeros.
pub fn settle(made: &[u8; 16], tag: &[u8; 16], text: &mut [u8]) -> bool
    ensures verdict { Decides result (made.now ≡ tag.now) }
    ensures text { text.new ≡ (if result then text.old else zeros text.old) }
{
    let right = equal(made, tag);
    if !right {
        clear(text);
    }
    right
}
