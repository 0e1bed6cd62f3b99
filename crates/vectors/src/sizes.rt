//! The refusals of a direct call, by the sizes of what it is handed.
use cipher::Cipher;
use mode::{Mode, is_clear};
use refusals::Refusal;
use std::alloc::{AllocError, Global};

/// The lengths of what a call is handed, and what it must answer to them.
#[derive(Clone, Copy)]
pub struct Sizes {
    pub key: usize,
    pub ad: usize,
    pub text: usize,
    pub out: usize,
    pub tag: usize,
    pub nonce: usize,
    pub answer: Result<(), Refusal>,
    /// The number that is told outside: 0 where the call is taken.
    pub number: u8,
}

const LAWFUL: Sizes = Sizes {
    key: 16,
    ad: 65535,
    text: 65535,
    out: 65535,
    tag: 16,
    nonce: 16,
    answer: Ok(()),
    number: 0,
};

/// Each question answered no alone, and each with all later ones answered no too, so that the order shows.
pub const CASES: [Sizes; 13] = [
    LAWFUL,
    Sizes {
        key: 15,
        answer: Err(Refusal::KeyLength),
        number: 4,
        ..LAWFUL
    },
    Sizes {
        ad: 65536,
        answer: Err(Refusal::DataLength),
        number: 6,
        ..LAWFUL
    },
    Sizes {
        text: 65536,
        out: 65536,
        answer: Err(Refusal::TextLength),
        number: 7,
        ..LAWFUL
    },
    Sizes {
        out: 65534,
        answer: Err(Refusal::OutputLength),
        number: 8,
        ..LAWFUL
    },
    Sizes {
        tag: 17,
        answer: Err(Refusal::TagLength),
        number: 9,
        ..LAWFUL
    },
    Sizes {
        nonce: 0,
        answer: Err(Refusal::NonceLength),
        number: 10,
        ..LAWFUL
    },
    Sizes {
        key: 17,
        ad: 65536,
        text: 65536,
        out: 1,
        tag: 0,
        nonce: 15,
        answer: Err(Refusal::KeyLength),
        number: 4,
    },
    Sizes {
        key: 16,
        ad: 65536,
        text: 65536,
        out: 1,
        tag: 0,
        nonce: 15,
        answer: Err(Refusal::DataLength),
        number: 6,
    },
    Sizes {
        key: 16,
        ad: 0,
        text: 65536,
        out: 1,
        tag: 0,
        nonce: 15,
        answer: Err(Refusal::TextLength),
        number: 7,
    },
    Sizes {
        key: 16,
        ad: 0,
        text: 0,
        out: 1,
        tag: 0,
        nonce: 15,
        answer: Err(Refusal::OutputLength),
        number: 8,
    },
    Sizes {
        key: 16,
        ad: 0,
        text: 0,
        out: 0,
        tag: 0,
        nonce: 15,
        answer: Err(Refusal::TagLength),
        number: 9,
    },
    Sizes {
        key: 16,
        ad: 0,
        text: 0,
        out: 0,
        tag: 16,
        nonce: 15,
        answer: Err(Refusal::NonceLength),
        number: 10,
    },
];

/// Whether a seal and an opening of these sizes answer so, and a refusal leaves zeros and costs nothing.
pub(crate) fn refused_so<M: Mode, C: Cipher>(
    heap: Global,
    mode: &M,
    cipher: &mut C,
    sizes: &Sizes,
) -> Result<bool, AllocError> {
    let key = vec![in heap; 7; sizes.key]?;
    let nonce = vec![in heap; 9; sizes.nonce]?;
    let ad = vec![in heap; 1; sizes.ad]?;
    let text = vec![in heap; 2; sizes.text]?;
    let mut out = vec![in heap; 3; sizes.out]?;
    let mut tag = vec![in heap; 4; sizes.tag]?;
    let sealed = mode.seal(
        cipher,
        key.as_slice(),
        nonce.as_slice(),
        ad.as_slice(),
        text.as_slice(),
        out.as_mut_slice(),
        tag.as_mut_slice(),
    );
    let cleared = sealed.cost == 0 && is_clear(out.as_slice()) && is_clear(tag.as_slice());
    let sealed_so = sealed.answer == sizes.answer
        && sealed.number() == sizes.number
        && (sealed.answer.is_ok() || cleared);
    let opened = mode.open(
        cipher,
        key.as_slice(),
        nonce.as_slice(),
        ad.as_slice(),
        text.as_slice(),
        tag.as_slice(),
        out.as_mut_slice(),
    );
    // nobody sealed the frame, so that lawful sizes only lead to the last question
    let number = if sizes.answer.is_ok() {
        13
    } else {
        sizes.number
    };
    let opened_so = opened.answer == sizes.answer.and(Err(Refusal::WrongFrame))
        && opened.number() == number;
    Ok(sealed_so && opened_so && is_clear(out.as_slice()))
}
