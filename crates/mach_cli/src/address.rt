//! What an image has at addresses, as the programs print it.

// The line and the object for what was found.
pub mod line;
pub mod loaded;
pub mod object;
pub mod view;

// The addresses that lines give.
pub mod read;
