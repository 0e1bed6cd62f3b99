//! What a C host calls: seal, open and hash on numbers and byte buffers, and a post that the host keeps.
//!
//! A direct call is named after its mode and the rounds of its cipher, so that none can ask for a cipher that does not exist.
//! A slice crosses as a pointer and a length. Nothing allocates, and nothing is kept from call to call but what the host keeps.
#![tactic(auto)]

mod direct;
mod exports;
mod kept;
mod posts;

pub use direct::RomulusAnswer;
pub use kept::{RomulusPost, RomulusPostAnswer, RomulusReading};
pub use posts::kept_posts_keep_promises;
