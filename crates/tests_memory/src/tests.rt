//! The answers when memory runs out. A contract can't rule out that an allocation is refused. Here are the calls that are given an
//! allocator, as no Rust test can give one; the tests of the Rust crate have all calls.

// Each growth is refused in turn; heaps are small.
mod calls;
mod growths;
mod heaps;

// The allocator, and assertions.
mod refusing;
mod same;
