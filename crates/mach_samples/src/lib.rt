//! The built files that the crates of tests share.
#![tactic(auto)]

pub mod files;
