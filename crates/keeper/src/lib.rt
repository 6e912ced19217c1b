// The keeper's steps on one object: what is told, what is to be done outside, and the state afterwards.
#![tactic(auto)]

mod clearing;
pub mod codec;
mod content;
mod found;
pub mod object;
pub mod placing;
mod plan;
pub mod readings;
pub mod refusal;
pub mod settling;
pub mod steps;
pub mod view;
pub mod writing;
