//! Lists of requests that a post serves, and two posts of one mode side by side, with all that a post promises.
#![tactic(auto)]

mod sides;
mod turns;

pub use sides::{Ended, Parts, Refused, side_by_side};
pub use turns::{Answer, Request, Turn, handle, serve};
