// The direct calls: a key and a nonce with each.
ghost use Rattle.std.specs.Prelude.{◌≡◌};
ghost use Rattle.skinny.specs.Skinny.{skinny as skinny_of};
ghost use Rattle.skinny.specs.RoundCount.{round_count};
ghost use Rattle.romulus_c.specs.Told.{told as told_of, SealTold, OpenTold, HashTold};

use cipher::Counted;
use mode::{Mode, Outcome};
use refusals::answer_number;
use romulus_h::hash;
use skinny::{Rounds, Skinny};

/// What a seal or an opening answers: 0 or the refusal's number, and the cost in calls of the cipher.
// a number in place of the enum, since C reads it
#[repr(C)]
#[derive(Clone, Copy)]
pub struct RomulusAnswer {
    pub number: u32,
    pub cost: u64,
}

impl From<Outcome<()>> for RomulusAnswer {
    ghost from_gives = { λ o r. r ≡ told_of o };

    fn from(outcome: Outcome<()>) -> RomulusAnswer {
        RomulusAnswer {
            number: outcome.number() as u32,
            cost: outcome.cost,
        }
    }
}

// A seal in any mode, on a cipher of its own.
pub(crate) fn seal<M: Mode>(
    mode: &M,
    rounds: Rounds,
    key: &[u8],
    nonce: &[u8],
    ad: &[u8],
    message: &[u8],
    out: &mut [u8],
    tag: &mut [u8],
) -> RomulusAnswer
    ensures { SealTold M.scheme (skinny_of (round_count rounds)) key.now nonce.now ad.now message.now out.old tag.old result out.new tag.new }
{
    let mut cipher = Counted::new(Skinny::new(rounds));
    mode.seal(&mut cipher, key, nonce, ad, message, out, tag)
        .into()
}

// An opening in any mode, on a cipher of its own.
pub(crate) fn open<M: Mode>(
    mode: &M,
    rounds: Rounds,
    key: &[u8],
    nonce: &[u8],
    ad: &[u8],
    text: &[u8],
    tag: &[u8],
    out: &mut [u8],
) -> RomulusAnswer
    ensures { OpenTold M.scheme (skinny_of (round_count rounds)) key.now nonce.now ad.now text.now tag.now out.old result out.new }
{
    let mut cipher = Counted::new(Skinny::new(rounds));
    mode.open(&mut cipher, key, nonce, ad, text, tag, out)
        .into()
}

// A hash on a cipher of its own.
pub(crate) fn digest_into(rounds: Rounds, input: &[u8], digest: &mut [u8]) -> u32
    ensures { HashTold (skinny_of (round_count rounds)) input.now digest.old result digest.new }
{
    let mut cipher = Counted::new(Skinny::new(rounds));
    answer_number(&hash(&mut cipher, input, digest)) as u32
}
