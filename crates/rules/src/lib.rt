// The rules of well-formed contents, as code; crate contents has their definitions.
#![tactic(auto)]

pub mod estimates;
pub mod images;
pub mod logs;
pub mod messages;
