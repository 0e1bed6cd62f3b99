// Two posts of one mode, from making to retirement.
ghost use Rattle.std.specs.Prelude.{◌≡◌, map, MatchResult};
ghost use Rattle.side_by_side.specs.Turns.{given};
ghost use Rattle.side_by_side.specs.Sides.{making, whole, remains, SideBySide, HandedBack};

use crate::turns::{Turn, serve};
use cipher::Cipher;
use mode::Mode;
use nonces::NonceSource;
use post::{Post, Retired, Unmade};
use refusals::Refusal;

/// What a post is made of beside its key.
#[derive(Drop)]
pub struct Parts<M, C, S> {
    pub mode: M,
    pub cipher: C,
    pub source: S,
    pub allowance: u64,
}

/// What is handed back where one of two makings is refused: the first question answered no, and all parts as they were.
#[derive(Drop)]
pub struct Refused<M, C, D, S, R> {
    pub refusal: Refusal,
    pub one: Parts<M, C, S>,
    pub two: Parts<M, D, R>,
}

/// What two posts leave once they are retired.
#[derive(Drop)]
pub struct Ended<M, C, D, S, R> {
    pub one: Retired<M, C, S>,
    pub two: Retired<M, D, R>,
}

// Why a making was refused, and its parts as they were. Taken apart and put together by hand, since a post owns its parts and its allowance
// is no part of it.
fn handed_back<M, C, S>(unmade: Unmade<M, C, S>, allowance: u64) -> (Refusal, Parts<M, C, S>)
    ensures { result ≡ (unmade.refusal, record { mode = unmade.mode; cipher = unmade.cipher; source = unmade.source; allowance = allowance }) }
{
    let Unmade {
        refusal,
        mode,
        cipher,
        source,
    } = unmade;
    let parts = Parts {
        mode,
        cipher,
        source,
        allowance,
    };
    (refusal, parts)
}

/// Makes two posts of one mode, serves each its turns, and retires both.
///
/// The contract has all that a post promises, of what happened in this call: of each post that no nonce is used twice, that every seal that
/// can be is taken, that exactly the right frames are opened, and that numbers, costs and readings are those of the questions and of the
/// history; and of both that the outside sees only sizes and verdicts.
pub fn side_by_side<M: Mode, C: Cipher, D: Cipher, S: NonceSource, R: NonceSource>(
    one: Parts<M, C, S>,
    key: &[u8],
    turns: &mut [Turn],
    two: Parts<M, D, R>,
    other_key: &[u8],
    other_turns: &mut [Turn],
) -> Result<Ended<M, C, D, S, R>, Refused<M, C, D, S, R>>
    ensures promised { MatchResult result
        (λ e. SideBySide M.Mode.scheme
        (making C.Cipher.answer C.Cipher.count S.NonceSource.pending one key.now)
        (making D.Cipher.answer D.Cipher.count R.NonceSource.pending two other_key.now)
        (whole turns.old turns.new e.one.reading)
        (whole other_turns.old other_turns.new e.two.reading)
        (remains C.Cipher.answer C.Cipher.count S.NonceSource.pending e.one)
        (remains D.Cipher.answer D.Cipher.count R.NonceSource.pending e.two))
        (λ e. HandedBack one key.now two other_key.now e) }
    ensures inputs { (map given turns.new ≡ map given turns.old) × (map given other_turns.new ≡ map given other_turns.old) }
    ensures parts { MatchResult result (λ e. (e.one.mode ≡ one.mode) × (e.two.mode ≡ two.mode)) (λ e. (turns.new ≡ turns.old) × (other_turns.new ≡ other_turns.old)) }
{
    let Parts {
        mode,
        cipher,
        source,
        allowance,
    } = one;
    match Post::new(mode, cipher, source, key, allowance) {
        Err(unmade) => {
            let (refusal, one) = handed_back(unmade, allowance);
            Err(Refused { refusal, one, two })
        }
        Ok(mut first) => {
            let Parts {
                mode,
                cipher,
                source,
                allowance: other_allowance,
            } = two;
            match Post::new(mode, cipher, source, other_key, other_allowance) {
                Err(unmade) => {
                    let (refusal, two) = handed_back(unmade, other_allowance);
                    let Retired {
                        reading: _,
                        mode,
                        cipher,
                        source,
                    } = first.retire();
                    Err(Refused {
                        refusal,
                        one: Parts {
                            mode,
                            cipher,
                            source,
                            allowance,
                        },
                        two,
                    })
                }
                Ok(mut second) => {
                    serve(&mut first, turns);
                    serve(&mut second, other_turns);
                    let one = first.retire();
                    let two = second.retire();
                    Ok(Ended { one, two })
                }
            }
        }
    }
}
