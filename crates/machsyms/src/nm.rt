//! The words of `nm -m` for a symbol: what it is, its scope, and the library that provides it.

pub mod descriptions;
pub mod library;
pub mod origin;
