//! Assertions as calls: the prover checks a call in a fifth of the time of an `assert_eq!`. Each crate of tests has this file,
//! since no library may contain what can end a process.

use std::fmt::Debug;
use std::process::Abort;

/// Asserts that `got` is `want`.
pub fn same<T: Copy + Debug + PartialEq>(rt: &impl Abort, got: T, want: T) {
    assert_eq!(rt; got, want);
}
