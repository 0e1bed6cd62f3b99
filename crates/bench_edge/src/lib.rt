//! What the bench times beside the exports for C hosts: single calls of the cipher, posts over many seals, and the loading of a sheet.
//!
//! A slice crosses as a pointer and a length. Nothing allocates, and nothing is kept from call to call.
#![tactic(auto)]

mod calls;
mod posts;
mod sheets;
