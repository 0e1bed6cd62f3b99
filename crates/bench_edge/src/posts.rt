// Posts that seal one message over and over.
ghost use Rattle.std.specs.Prelude.{◌≡◌, length};
ghost use Rattle.promise.specs.Answers.{Standing, fresh};
ghost use Rattle.post.specs.Post.{standing_of};
ghost use Rattle.romulus_n.specs.ModeN.{n_scheme};
ghost use Rattle.bench_edge.specs.Posts.{SealedOver, between, making};

use cipher::{Cipher, Counted};
use mode::Mode;
use nonces::{Counting, NonceSource};
use post::Post;
use promise::MOST_ALLOWANCE;
use romulus_n::RomulusN;
use skinny::{Rounds, Skinny};

// Seals one message as often as there are places for answers, and writes the number of each answer into its place.
fn seal_over<M: Mode, C: Cipher, S: NonceSource>(
    post: &mut Post<M, C, S>,
    ad: &[u8],
    message: &[u8],
    out: &mut [u8],
    tag: &mut [u8],
    answers: &mut [u8],
)
    ensures { SealedOver M.scheme ad.now message.now
        (between (standing_of C.answer C.count S.pending post.old) out.old tag.old)
        (between (standing_of C.answer C.count S.pending post.new) out.new tag.new)
        answers.new }
{
    for number in answers.iter_mut() {
        *number = post.seal(ad, message, out, tag).number();
    }
}

/// Makes a post of Romulus-N, seals one message as often as there are places for answers, retires the post, and answers how many seals were taken.
/// The number of each answer stands in its place. A key that has not 16 bytes makes no post, and everything stays.
#[unsafe(no_mangle)]
pub extern "C" fn bench_edge_post(
    key: &[u8],
    ad: &[u8],
    message: &[u8],
    out: &mut [u8],
    tag: &mut [u8],
    answers: &mut [u8],
) -> u64
    ensures sealed { length key.now ≡ 16 → (s : Standing) × (result ≡ s.sealed) × SealedOver n_scheme ad.now message.now
        (between (fresh (making key.now (length answers.old))) out.old tag.old)
        (between s out.new tag.new)
        answers.new }
    ensures unmade { (length key.now ≡ 16 → ⊥) → (result ≡ 0) × (out.new ≡ out.old) × (tag.new ≡ tag.old) × (answers.new ≡ answers.old) }
{
    let Ok(source) = Counting::new(b"the desk", 0, answers.len() as u64) else {
        return 0;
    };
    match Post::new(
        RomulusN,
        Counted::new(Skinny::new(Rounds::Forty)),
        source,
        key,
        MOST_ALLOWANCE,
    ) {
        Err(_) => 0,
        Ok(mut post) => {
            seal_over(&mut post, ad, message, out, tag, answers);
            post.retire().reading.sealed
        }
    }
}
