//! Tests of memory that is refused, where the caller gives the allocator. The library is otherwise empty.
#![tactic(auto)]

#[cfg(test)]
mod tests;
