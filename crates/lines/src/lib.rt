//! Lines of frames in hexadecimal: what a session answers to each.
#![tactic(auto)]

mod frame;
pub mod key_line;
mod service;
pub mod session;
