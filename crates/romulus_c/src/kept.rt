// A post in the hands of a C host: what is kept, the questions on it, and a call by a post of the library.
ghost use Rattle.std.specs.Prelude.{◌≡◌, [], ◌∷◌, None};
ghost use Rattle.refusals.specs.Refusals.{first_no};
ghost use Rattle.skinny.specs.RoundCount.{round_count};
ghost use Rattle.promise.specs.Calls.{Seal, Open};
ghost use Rattle.post.specs.Post.{standing_of as post_standing};
ghost use Rattle.romulus_c.specs.Kept.{kept_questions, unread, reply as reply_of, Carried};
ghost use Rattle.romulus_c.specs.Carry.{Named, Asked, loaded, answer_of, count_of, pending_of, after, Room, sealed as sealed_of, opened as opened_of};

use cipher::Counted;
use mode::{Mode, Outcome};
use nonces::Counting;
use post::{Post, Reading, Retired};
use promise::MOST_ALLOWANCE;
use refusals::Refusal;
use skinny::{Rounds, Skinny};

/// A post that a C host keeps. Nothing in it is trusted: each call asks the questions of a making again.
// numbers for mode and rounds, here and in the answers below, since they lie in the host's memory
#[repr(C)]
#[derive(Clone, Copy, Default)]
pub struct RomulusPost {
    /// The mode's letter: 78 is N, 77 is M, 84 is T. With any other no key is held.
    pub mode: u32,
    /// The rounds of the cipher, 40 or 56. With any other no key is held.
    pub rounds: u32,
    pub key: [u8; 16],
    /// The first half of every nonce, highest byte first.
    pub prefix: u64,
    /// The second half of the next nonce, highest byte first.
    pub count: u64,
    /// How many nonces are left.
    pub amount: u64,
    /// The allowance left, in calls of the cipher.
    pub left: u64,
    /// The calls of the cipher so far.
    pub calls: u64,
    /// How many seals were taken.
    pub sealed: u64,
    /// How many openings were taken.
    pub opened: u64,
    /// How many frames were wrong.
    pub wrong: u64,
}

/// What a seal or an opening by a post answers: 0 or the refusal's number, the nonce of a taken seal as two numbers, and the cost.
#[repr(C)]
#[derive(Clone, Copy)]
pub struct RomulusPostAnswer {
    pub number: u32,
    pub nonce_high: u64,
    pub nonce_low: u64,
    pub cost: u64,
}

/// What reading out tells: 0 or the refusal's number, the allowance left, and how many seals and openings were taken and how many frames were wrong.
#[repr(C)]
#[derive(Clone, Copy, Default)]
pub struct RomulusReading {
    pub number: u32,
    pub left: u64,
    pub sealed: u64,
    pub opened: u64,
    pub wrong: u64,
}

// The mode of a post, by its letter. (`lines` has its own three, since neither crate stands on the other.)
#[derive(Clone, Copy)]
pub(crate) enum Letter {
    N,
    M,
    T,
}

// The mode and the rounds that two numbers name. Where there is none of that name, no key is held.
pub(crate) fn named(mode: u32, rounds: u32) -> Result<(Letter, Rounds), Refusal>
    ensures { Named mode rounds result }
{
    let letter = match mode {
        78 => Letter::N,
        77 => Letter::M,
        84 => Letter::T,
        _ => return Err(Refusal::KeyLength),
    };
    let rounds = Rounds::try_from(rounds).map_err(|_| Refusal::KeyLength)?;
    Ok((letter, rounds))
}

// The first question on what is kept that is answered no; where there is none, its mode and rounds.
pub(crate) fn ask(post: &RomulusPost) -> Result<(Letter, Rounds), Refusal>
    ensures { Asked post.now result }
{
    let RomulusPost {
        mode,
        rounds,
        count,
        amount,
        left,
        calls,
        sealed,
        opened,
        wrong,
        ..
    } = *post;
    count.checked_add(amount).ok_or(Refusal::CountRange)?;
    let named = named(mode, rounds)?;
    if calls > MOST_ALLOWANCE || left > MOST_ALLOWANCE - calls {
        return Err(Refusal::AllowanceSize);
    }
    if sealed > calls || opened > calls - sealed || wrong > calls - sealed - opened {
        return Err(Refusal::AllowanceSize);
    }
    Ok(named)
}

// The library's post over what is kept, with its allowance left and with counters of its own. That the questions were asked stays a `requires`:
// a struct round the lent post would have to say as well, in each contract, that it is still the same post.
fn load<M: Mode + Drop>(
    mode: M,
    rounds: Rounds,
    post: &RomulusPost,
) -> Post<M, Counted<Skinny>, Counting>
    requires sound { first_no (kept_questions post.now) ≡ None }
    requires rounds { round_count rounds ≡ post.now.rounds }
    ensures { post_standing answer_of count_of pending_of result ≡ loaded post.now }
{
    let source = Counting::new(&post.prefix.to_be_bytes(), post.count, post.amount).unwrap();
    Post::new(
        mode,
        Counted::new(Skinny::new(rounds)),
        source,
        &post.key,
        post.left,
    )
    .unwrap()
}

// What a call of that post changed, carried over to what is kept.
fn carry(post: &mut RomulusPost, reading: Reading, cost: u64)
    requires { Room post.old reading cost }
    ensures { post.new ≡ after post.old reading cost }
{
    post.count += reading.sealed;
    post.amount -= reading.sealed;
    post.left = reading.left;
    post.calls += cost;
    post.sealed += reading.sealed;
    post.opened += reading.opened;
    post.wrong += reading.wrong;
}

impl From<Outcome<(u64, u64)>> for RomulusPostAnswer {
    ghost from_gives = { λ o r. r ≡ sealed_of o };

    fn from(outcome: Outcome<(u64, u64)>) -> RomulusPostAnswer {
        let (nonce_high, nonce_low) = outcome.answer.unwrap_or((0, 0));
        RomulusPostAnswer {
            number: outcome.number() as u32,
            nonce_high,
            nonce_low,
            cost: outcome.cost,
        }
    }
}

impl From<Outcome<()>> for RomulusPostAnswer {
    ghost from_gives = { λ o r. r ≡ opened_of o };

    fn from(outcome: Outcome<()>) -> RomulusPostAnswer {
        RomulusPostAnswer {
            number: outcome.number() as u32,
            nonce_high: 0,
            nonce_low: 0,
            cost: outcome.cost,
        }
    }
}

impl From<Refusal> for RomulusReading {
    ghost from_gives = { λ e r. r ≡ unread e };

    fn from(refusal: Refusal) -> RomulusReading {
        RomulusReading {
            number: refusal.number() as u32,
            ..RomulusReading::default()
        }
    }
}

// A seal by a post of any mode. It and the opening below are apart, since one function for both would take a closure whose clauses say
// both contracts again.
pub(crate) fn seal_by<M: Mode + Drop>(
    mode: M,
    rounds: Rounds,
    post: &mut RomulusPost,
    ad: &[u8],
    message: &[u8],
    out: &mut [u8],
    tag: &mut [u8],
) -> RomulusPostAnswer
    requires sound { first_no (kept_questions post.old) ≡ None }
    requires rounds { round_count rounds ≡ post.old.rounds }
    ensures { Carried M.scheme post.old (Seal ad.now message.now out.old tag.old) (reply_of result (out.new ∷ tag.new ∷ [])) post.new }
{
    let mut inner = load(mode, rounds, post);
    let outcome = inner.seal(ad, message, out, tag);
    let Retired { reading, .. } = inner.retire();
    carry(post, reading, outcome.cost);
    outcome.into()
}

// An opening by a post of any mode.
pub(crate) fn open_by<M: Mode + Drop>(
    mode: M,
    rounds: Rounds,
    post: &mut RomulusPost,
    nonce: &[u8],
    ad: &[u8],
    text: &[u8],
    tag: &[u8],
    out: &mut [u8],
) -> RomulusPostAnswer
    requires sound { first_no (kept_questions post.old) ≡ None }
    requires rounds { round_count rounds ≡ post.old.rounds }
    ensures { Carried M.scheme post.old (Open nonce.now ad.now text.now tag.now out.old) (reply_of result (out.new ∷ [])) post.new }
{
    let mut inner = load(mode, rounds, post);
    let outcome = inner.open(nonce, ad, text, tag, out);
    let Retired { reading, .. } = inner.retire();
    carry(post, reading, outcome.cost);
    outcome.into()
}
