//! Callers of the libraries that are proved: of laws, by contracts of their own, and of generic functions; and a call of each
//! public function that no program makes. The library is otherwise empty.
#![tactic(auto)]

#[cfg(test)]
mod tests;
