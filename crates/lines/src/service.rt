//! What a request gives: a sealed frame, a message, a digest.
ghost use Rattle.std.specs.Prelude.{◌≡◌, ◌+◌, ◌≤◌, length};
ghost use Rattle.mode.specs.Mode.{SealsTo, Opened};
ghost use Rattle.romulus_h.specs.Hash.{digest_of};
ghost use Rattle.any_cipher.specs.AnyCipher.{any_answer};
ghost use Rattle.lines.specs.Requests.{mode_reply};
ghost use Rattle.lines.specs.Services.{scheme_of, letter_of, cipher_answer, sealed_frame, Opens};

use crate::frame::{CipherName, Parts, Sealed, Variant};
use any_cipher::AnyCipher;
use cipher::{Cipher, Counted};
use hex_lines::buffer::Buffer;
use hex_lines::fault::two_bytes;
use mode::Mode;
use refusals::Refusal;
use romulus_h::Hasher;
use romulus_m::RomulusM;
use romulus_n::RomulusN;
use romulus_t::RomulusT;

/// The most bytes of a frame: a line has two digits for each.
pub(crate) const FRAME: usize = 4096;

/// What a request gives: at most a sealed frame whose message came in the longest frame, 16 bytes of tag more.
pub(crate) type Reply = Buffer<4112>;

impl CipherName {
    /// The cipher that has this name, never called.
    pub(crate) fn make(self) -> Counted<AnyCipher>
        ensures { any_answer result.cipher ≡ cipher_answer self }
    {
        Counted::new(match self {
            CipherName::Skinny(rounds) => AnyCipher::skinny(rounds),
            CipherName::StandIn => AnyCipher::stand_in(),
        })
    }
}

impl Variant {
    // The letter of a frame that this mode sealed.
    fn letter(self) -> u8
        ensures { result ≡ letter_of self }
    {
        match self {
            Variant::RomulusN => b'N',
            Variant::RomulusM => b'M',
            Variant::RomulusT => b'T',
        }
    }

    // A mode is generic in the cipher, so that there is no `dyn Mode` to choose once for sealing and opening.

    // Seals a text in its place by this mode, and returns the tag.
    fn seal<C: Cipher>(
        self,
        cipher: &mut C,
        key: &[u8; 16],
        nonce: &[u8; 16],
        ad: &[u8],
        text: &mut [u8],
    ) -> [u8; 16]
        ensures { SealsTo (scheme_of self) (C.answer cipher.old) key.now nonce.now ad.now text.old text.new result }
    {
        match self {
            Variant::RomulusN => RomulusN.seal_in_place(cipher, key, nonce, ad, text),
            Variant::RomulusM => RomulusM.seal_in_place(cipher, key, nonce, ad, text),
            Variant::RomulusT => RomulusT.seal_in_place(cipher, key, nonce, ad, text),
        }
    }

    // Opens a text in its place by this mode, and says whether the frame was right.
    fn open<C: Cipher>(
        self,
        cipher: &mut C,
        key: &[u8; 16],
        nonce: &[u8; 16],
        ad: &[u8],
        text: &mut [u8],
        tag: &[u8; 16],
    ) -> bool
        ensures { Opened (scheme_of self) (C.answer cipher.old) key.now nonce.now ad.now text.old tag.now result text.new }
    {
        match self {
            Variant::RomulusN => RomulusN.open_in_place(cipher, key, nonce, ad, text, tag),
            Variant::RomulusM => RomulusM.open_in_place(cipher, key, nonce, ad, text, tag),
            Variant::RomulusT => RomulusT.open_in_place(cipher, key, nonce, ad, text, tag),
        }
    }
}

impl Sealed<'_> {
    // The frame of these parts, sealed by a mode.
    fn frame(&self, variant: Variant) -> Reply
        requires { length self.now.parts.ad.now + length self.now.parts.text.now ≤ 4077 }
        ensures { result ≡ sealed_frame variant self.now.parts.nonce self.now.parts.ad.now (self.now.parts.text.now, self.now.tag) }
    {
        let Parts { nonce, ad, text } = self.parts;
        let mut frame = Buffer::new();
        frame.push(variant.letter());
        frame.extend(&nonce);
        frame.extend(&two_bytes(ad.len()));
        frame.extend(ad);
        frame.extend(text);
        frame.extend(&self.tag);
        frame
    }
}

/// The frame that a message seals to.
// The bound on the parts stays a `requires`, here, above and below: parts are also cut from frames of any length.
pub(crate) fn seal_frame<C: Cipher>(
    cipher: &mut C,
    variant: Variant,
    key: &[u8; 16],
    parts: Parts<'_>,
) -> Reply
    requires { length parts.ad.now + length parts.text.now ≤ 4077 }
    ensures { result ≡ sealed_frame variant parts.entry.nonce parts.entry.ad.now ((scheme_of variant).frame (C.answer cipher.old) key.now parts.entry.nonce parts.entry.ad.now parts.entry.text.now) }
{
    let Parts {
        nonce,
        ad,
        text: message,
    } = parts;
    // An array, here and below: whoever lends a `Buffer`'s bytes for writing must show that the room behind them is zeros again.
    let mut room = [0; FRAME];
    let text = &mut room[..message.len()];
    text.copy_from_slice(message);
    let tag = variant.seal(cipher, key, &nonce, ad, text);
    let parts = Parts { nonce, ad, text };
    Sealed { parts, tag }.frame(variant)
}

/// The message that seals to a frame, or the refusal of a frame that is wrong.
pub(crate) fn open_frame<C: Cipher>(
    cipher: &mut C,
    variant: Variant,
    key: &[u8; 16],
    sealed: Sealed<'_>,
) -> Result<Reply, Refusal>
    requires { length sealed.parts.text.now ≤ 4096 }
    ensures { Opens (scheme_of variant) (C.answer cipher.old) key.now sealed.entry.parts.nonce sealed.entry.parts.ad.now sealed.entry.parts.text.now sealed.entry.tag (mode_reply result) }
{
    let Sealed { parts, tag } = sealed;
    let Parts { nonce, ad, text } = parts;
    let mut room = [0; FRAME];
    let message = &mut room[..text.len()];
    message.copy_from_slice(text);
    if !variant.open(cipher, key, &nonce, ad, message, &tag) {
        return Err(Refusal::WrongFrame);
    }
    let mut result = Buffer::new();
    result.extend(message);
    Ok(result)
}

/// The digest of a text.
pub(crate) fn digest<C: Cipher>(cipher: &mut C, text: &[u8]) -> Reply
    ensures { result ≡ digest_of (C.answer cipher.old) text.now }
{
    let mut result = Buffer::new();
    result.extend(&Hasher::new().finish(cipher, text).bytes());
    result
}
