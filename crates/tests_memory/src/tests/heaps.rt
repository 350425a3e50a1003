//! Heaps of few bytes: more memory after less isn't refused.

use crate::tests::calls::{CALLS, Call, REFUSED, Subjects};
use crate::tests::same::same;
use linked_list_allocator::LocalHeap;
use mach_samples::files::file_c;
use std::process::Abort;
use std::test::Fail;

// Calls with larger and larger heaps: refused runs come first, and there are some of both.
fn little_memory(rt: &impl Abort, subjects: &Subjects<'_>, call: Call) -> Result<(), Fail> {
    let want = subjects.answer(call, subjects.alloc)?;
    let mut refused = 0u32;
    let mut given = 0u32;
    for size in 0..256 {
        let heap = LocalHeap::new(subjects.alloc, 64 * size)?;
        let got = subjects.answer(call, &heap)?;
        if got == want {
            given = given.saturating_add(1);
        } else {
            same(rt, got.as_str(), REFUSED);
            same(rt, given, 0);
            refused = refused.saturating_add(1);
        }
    }
    assert!(rt; refused > 0 && given > 1, "{call:?}");
    Ok(())
}

#[test]
fn few_bytes(rt: HostRuntime) -> Result<(), Fail> {
    let fat = file_c(rt.alloc())?;
    let subjects = Subjects::of(rt.alloc(), &fat)?;
    for (call, _) in CALLS {
        little_memory(&rt, &subjects, *call)?;
    }
    Ok(())
}
