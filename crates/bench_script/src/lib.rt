// Reading a script: its lines, fields and numbers.
#![tactic(auto)]

pub mod events;
pub mod headers;
pub mod numbers;
pub mod parts;
