//! Frames: the kind that a frame's letter names, and what a frame asks for.
ghost use Rattle.std.specs.Prelude.{◌≡◌};
ghost use Rattle.std.specs.Option.{ok_or};
ghost use Rattle.hex_lines.specs.declared.fault.FrameFault.TheVariants.{UnknownLetter, UnknownCipher};
ghost use Rattle.lines.specs.Frames.{kind_of, cipher_of, ordered_if, order_of};
ghost use Rattle.lines.specs.Requests.{Cut, SealedCut, ReadAs};

use hex_lines::fault::FrameFault;
use skinny::Rounds;

/// The three modes that seal.
#[derive(Clone, Copy)]
pub enum Variant {
    RomulusN,
    RomulusM,
    RomulusT,
}

/// The ciphers: Skinny with its 40 or 56 rounds, and the bench stand-in.
#[derive(Clone, Copy)]
pub enum CipherName {
    Skinny(Rounds),
    StandIn,
}

/// What a frame's letter names.
#[derive(Clone, Copy)]
pub enum Kind {
    Key,
    Cipher,
    Seal(Variant),
    Open(Variant),
    Hash,
}

/// Nonce, associated data and text of a frame.
#[derive(Clone, Copy)]
pub struct Parts<'a> {
    pub nonce: [u8; 16],
    pub ad: &'a [u8],
    pub text: &'a [u8],
}

/// The parts of a sealed frame, and its tag.
#[derive(Clone, Copy)]
pub struct Sealed<'a> {
    pub parts: Parts<'a>,
    pub tag: [u8; 16],
}

/// What a frame asks for, with the key that it is asked under.
#[derive(Clone, Copy)]
pub enum Request<'a> {
    TakeKey([u8; 16]),
    Choose(CipherName),
    Seal(Variant, [u8; 16], Parts<'a>),
    Open(Variant, [u8; 16], Sealed<'a>),
    Hash(&'a [u8]),
}

impl TryFrom<u8> for Kind {
    type Error = FrameFault;

    ghost try_from_gives = { λ letter r. r ≡ ok_or (kind_of letter) UnknownLetter };

    /// The kind that a letter names.
    fn try_from(letter: u8) -> Result<Kind, FrameFault> {
        match char::from(letter) {
            'K' => Ok(Kind::Key),
            'C' => Ok(Kind::Cipher),
            'n' => Ok(Kind::Seal(Variant::RomulusN)),
            'm' => Ok(Kind::Seal(Variant::RomulusM)),
            't' => Ok(Kind::Seal(Variant::RomulusT)),
            'N' => Ok(Kind::Open(Variant::RomulusN)),
            'M' => Ok(Kind::Open(Variant::RomulusM)),
            'T' => Ok(Kind::Open(Variant::RomulusT)),
            'H' => Ok(Kind::Hash),
            _ => Err(FrameFault::UnknownLetter),
        }
    }
}

impl TryFrom<u8> for CipherName {
    type Error = FrameFault;

    ghost try_from_gives = { λ byte r. r ≡ ok_or (cipher_of byte) UnknownCipher };

    /// The cipher that a byte names: by its rounds, or 0 for the stand-in.
    fn try_from(byte: u8) -> Result<CipherName, FrameFault> {
        match byte {
            0x28 => Ok(CipherName::Skinny(Rounds::Forty)),
            0x38 => Ok(CipherName::Skinny(Rounds::FiftySix)),
            0x00 => Ok(CipherName::StandIn),
            _ => Err(FrameFault::UnknownCipher),
        }
    }
}

// What stands behind the letter of a frame to be sealed: nonce, the data's length, data, message.
// A pattern with a name for each byte, which is a fixed form of this library.
fn cut(body: &[u8]) -> Option<Parts<'_>>
    ensures { Cut body.now result }
{
    let [
        n0,
        n1,
        n2,
        n3,
        n4,
        n5,
        n6,
        n7,
        n8,
        n9,
        n10,
        n11,
        n12,
        n13,
        n14,
        n15,
        high,
        low,
        rest @ ..,
    ] = body
    else {
        return None;
    };
    let len = usize::from(u16::from_be_bytes([*high, *low]));
    let (ad, text) = rest.split_at_checked(len)?;
    let nonce = [
        *n0, *n1, *n2, *n3, *n4, *n5, *n6, *n7, *n8, *n9, *n10, *n11, *n12, *n13, *n14, *n15,
    ];
    Some(Parts { nonce, ad, text })
}

// What stands behind the letter of a sealed frame: nonce, the data's length, data, ciphertext, tag.
fn cut_sealed(body: &[u8]) -> Option<Sealed<'_>>
    ensures { SealedCut body.now result }
{
    let Parts { nonce, ad, text } = cut(body)?;
    let (text, tag) = text.split_last_chunk()?;
    Some(Sealed {
        parts: Parts { nonce, ad, text },
        tag: *tag,
    })
}

impl Kind {
    // What a frame of this kind asks for, with what stands behind its letter; or the first of the later questions that is answered no.
    fn read(self, key: Option<[u8; 16]>, body: &[u8]) -> Result<Request<'_>, FrameFault>
        ensures { ReadAs (ordered_if (Some self) key body.now) result }
    {
        let misfit = FrameFault::FrameLength(1 + body.len());
        match self {
            Kind::Key => {
                let key = body.as_array().ok_or(misfit)?;
                Ok(Request::TakeKey(*key))
            }
            Kind::Cipher => {
                let [byte] = body.as_array::<1>().ok_or(misfit)?;
                Ok(Request::Choose(CipherName::try_from(*byte)?))
            }
            Kind::Seal(variant) => {
                let parts = cut(body).ok_or(misfit)?;
                let key = key.ok_or(FrameFault::NoKey)?;
                Ok(Request::Seal(variant, key, parts))
            }
            Kind::Open(variant) => {
                let sealed = cut_sealed(body).ok_or(misfit)?;
                let key = key.ok_or(FrameFault::NoKey)?;
                Ok(Request::Open(variant, key, sealed))
            }
            Kind::Hash => Ok(Request::Hash(body)),
        }
    }
}

/// What a frame asks for of a session that holds this key, or the first question that is answered no.
pub(crate) fn read(key: Option<[u8; 16]>, frame: &[u8]) -> Result<Request<'_>, FrameFault>
    ensures { ReadAs (order_of key frame.now) result }
{
    let (letter, body) = frame.split_first().ok_or(FrameFault::UnknownLetter)?;
    Kind::try_from(*letter)?.read(key, body)
}
