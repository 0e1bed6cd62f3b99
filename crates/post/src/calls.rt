// The calls of a post.
ghost use Rattle.std.specs.Prelude.{◌≡◌, ◌≤◌, [], ◌∷◌, length, MatchResult};
ghost use Rattle.refusals.specs.Refusals.{first_no, after_asking};
ghost use Rattle.promise.specs.Calls.{Seal, Open, Read};
ghost use Rattle.promise.specs.Answers.{questions, Stepped};
ghost use Rattle.post.specs.Post.{standing_of, making_of, Made, NotMade, sealed, opened, told};

use super::{Post, Reading, Retired, Unmade};
use byte_blocks::block_of;
use cipher::Cipher;
use mode::{Costs, Mode, Outcome, ask_frame, clear};
use nonces::{NonceSource, two_numbers};
use promise::ask_making;
use refusals::Refusal;

// The costs of a mode, with what every mode keeps.
fn costs_of<M: Mode>(mode: &M, ad: &[u8], text: &[u8]) -> Costs
    ensures told { result ≡ M.scheme.costs (length ad.now) (length text.now) }
    ensures seal { 1 ≤ result.seal }
    ensures wrong { 1 ≤ result.wrong }
    ensures least { result.wrong ≤ result.right }
{
    mode.costs(ad.len(), text.len())
}

impl<M: Mode, C: Cipher, S: NonceSource> Post<M, C, S> {
    /// Makes a post. A refused making takes nothing from the source, and hands all parts back.
    pub fn new(
        mode: M,
        cipher: C,
        source: S,
        key: &[u8],
        allowance: u64,
    ) -> Result<Post<M, C, S>, Unmade<M, C, S>>
        ensures { MatchResult result
            (λ p. Made (making_of C.answer C.count S.pending cipher source key.now allowance) mode cipher source p (standing_of C.answer C.count S.pending p))
            (λ e. NotMade (making_of C.answer C.count S.pending cipher source key.now allowance) mode cipher source e) }
    {
        match ask_making(key, allowance) {
            Err(refusal) => Err(Unmade {
                refusal,
                mode,
                cipher,
                source,
            }),
            Ok(()) => Ok(Post {
                mode,
                cipher,
                source,
                key: block_of(key),
                reading: Reading {
                    left: allowance,
                    sealed: 0,
                    opened: 0,
                    wrong: 0,
                },
            }),
        }
    }

    /// Tells what is left and what was done.
    pub fn read_out(&self) -> Reading
        ensures { Stepped M.scheme (standing_of C.answer C.count S.pending self.now) Read (told result) (standing_of C.answer C.count S.pending self.now) }
    {
        let Post { reading, .. } = self;
        *reading
    }

    // The first question before a seal that is answered no.
    fn ask_seal(&self, ad: &[u8], message: &[u8], out: &[u8], tag: &[u8]) -> Result<(), Refusal>
        ensures { result ≡ after_asking (first_no (questions M.scheme (standing_of C.answer C.count S.pending self.now) (Seal ad.now message.now out.now tag.now))) }
    {
        ask_frame(ad.len(), message.len(), out.len(), tag.len())?;
        if costs_of(&self.mode, ad, message).seal > self.reading.left {
            return Err(Refusal::AllowanceSpent);
        }
        if self.source.is_empty() {
            return Err(Refusal::NoNonce);
        }
        Ok(())
    }

    /// Seals a message under the next nonce, into an output place and a tag place, and answers the nonce as two numbers.
    /// A refusal leaves zeros in both places, and the post as it was.
    pub fn seal(
        &mut self,
        ad: &[u8],
        message: &[u8],
        out: &mut [u8],
        tag: &mut [u8],
    ) -> Outcome<(u64, u64)>
        ensures stepped { Stepped M.scheme (standing_of C.answer C.count S.pending self.old) (Seal ad.now message.now out.old tag.old) (sealed result (out.new ∷ tag.new ∷ [])) (standing_of C.answer C.count S.pending self.new) }
        ensures kept { result.cost ≡ 0 → self.new ≡ self.old }
        ensures mode { self.new.mode ≡ self.old.mode }
    {
        if let Err(refusal) = self.ask_seal(ad, message, out, tag) {
            clear(out);
            clear(tag);
            return Outcome::refused(refusal);
        }
        let cost = costs_of(&self.mode, ad, message).seal;
        let nonce = self.source.next().unwrap();
        out.copy_from_slice(message);
        let made = self
            .mode
            .seal_in_place(&mut self.cipher, &self.key, &nonce, ad, out);
        tag.copy_from_slice(&made);
        self.reading.left -= cost;
        self.reading.sealed += 1;
        Outcome::taken(two_numbers(&nonce), cost)
    }

    // The first question before the verdict that refuses an opening.
    fn ask_open(
        &self,
        nonce: &[u8],
        ad: &[u8],
        text: &[u8],
        tag: &[u8],
        out: &[u8],
    ) -> Result<(), Refusal>
        ensures { result ≡ after_asking (first_no (questions M.scheme (standing_of C.answer C.count S.pending self.now) (Open nonce.now ad.now text.now tag.now out.now))) }
    {
        ask_frame(ad.len(), text.len(), out.len(), tag.len())?;
        if nonce.len() != 16 {
            return Err(Refusal::NonceLength);
        }
        if costs_of(&self.mode, ad, text).right > self.reading.left {
            return Err(Refusal::AllowanceSpent);
        }
        Ok(())
    }

    /// Opens a frame into an output place. A refusal leaves zeros there; one for a wrong frame costs, and any other leaves the post as it was.
    pub fn open(
        &mut self,
        nonce: &[u8],
        ad: &[u8],
        text: &[u8],
        tag: &[u8],
        out: &mut [u8],
    ) -> Outcome<()>
        ensures stepped { Stepped M.scheme (standing_of C.answer C.count S.pending self.old) (Open nonce.now ad.now text.now tag.now out.old) (opened result (out.new ∷ [])) (standing_of C.answer C.count S.pending self.new) }
        ensures kept { result.cost ≡ 0 → self.new ≡ self.old }
        ensures mode { self.new.mode ≡ self.old.mode }
    {
        if let Err(refusal) = self.ask_open(nonce, ad, text, tag, out) {
            clear(out);
            return Outcome::refused(refusal);
        }
        let costs = costs_of(&self.mode, ad, text);
        out.copy_from_slice(text);
        let right = self.mode.open_in_place(
            &mut self.cipher,
            &self.key,
            &block_of(nonce),
            ad,
            out,
            &block_of(tag),
        );
        if right {
            self.reading.left -= costs.right;
            self.reading.opened += 1;
            Outcome::taken((), costs.right)
        } else {
            self.reading.left -= costs.wrong;
            self.reading.wrong += 1;
            Outcome::wrong(costs.wrong)
        }
    }

    /// Ends the post: its last reading, and its parts.
    pub fn retire(self) -> Retired<M, C, S>
        ensures reading { Stepped M.scheme (standing_of C.answer C.count S.pending self) Read (told result.reading) (standing_of C.answer C.count S.pending self) }
        ensures mode { result.mode ≡ self.mode }
        ensures cipher { result.cipher ≡ self.cipher }
        ensures source { result.source ≡ self.source }
    {
        let Post {
            mode,
            cipher,
            source,
            key: _,
            reading,
        } = self;
        Retired {
            reading,
            mode,
            cipher,
            source,
        }
    }
}
