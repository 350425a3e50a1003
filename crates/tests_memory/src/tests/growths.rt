//! Each growth refused in turn: a refused run returns the error of a refused allocation and nothing else, and the same call made
//! again returns its answer. Each call has as many refused runs as growths, so one that swallows a refusal has too few.

use crate::tests::calls::{CALLS, Call, REFUSED, Subjects};
use crate::tests::refusing::Refusing;
use crate::tests::same::same;
use goblin_mach::segment::{Segment, Segments};
use goblin_mach::{Ctx, Error, MultiArch, SingleArch};
use mach_samples::files::file_c;
use std::alloc::Allocator;
use std::process::Abort;
use std::test::Fail;

// Asserts the answer of a call if a growth is or isn't refused.
fn gives(rt: &impl Abort, call: Call, when: (&str, u64), got: &str, want: &str) {
    let (place, number) = when;
    assert_eq!(rt; got, want, "{call:?} {place} growth {number}");
}

// Returns how many runs of a call are refused, with one growth refused in each.
fn refused_runs(rt: &impl Abort, subjects: &Subjects<'_>, call: Call) -> Result<u64, Fail> {
    let want = subjects.answer(call, subjects.alloc)?;
    assert!(rt; want.starts_with("Ok("), "{call:?}");
    for number in 1..100 {
        let heap = Refusing::one(subjects.alloc, number);
        let got = subjects.answer(call, &heap)?;
        if !heap.refused() {
            gives(rt, call, ("without", number), got.as_str(), want.as_str());
            return Ok(number - 1);
        }
        gives(rt, call, ("at", number), got.as_str(), REFUSED);
        let again = subjects.answer(call, &heap)?;
        gives(rt, call, ("after", number), again.as_str(), want.as_str());
        let dry = Refusing::from(subjects.alloc, number);
        let got = subjects.answer(call, &dry)?;
        gives(rt, call, ("from", number), got.as_str(), REFUSED);
    }
    Err(Fail::from("no run without a refusal"))
}

#[test]
fn each_growth_refused(rt: HostRuntime) -> Result<(), Fail> {
    let fat = file_c(rt.alloc())?;
    let subjects = Subjects::of(rt.alloc(), &fat)?;
    for (call, growths) in CALLS {
        let runs = refused_runs(&rt, &subjects, *call)?;
        assert_eq!(rt; runs, *growths, "refused runs of {call:?}");
    }
    Ok(())
}

// An entry that is refused doesn't end the list.
#[test]
fn each_growth_of_an_entry_refused(rt: HostRuntime) -> Result<(), Fail> {
    let fat = file_c(rt.alloc())?;
    for number in 1..=4 {
        let heap = Refusing::one(rt.alloc(), number);
        let container = MultiArch::new(&heap, &fat)?;
        let mut entries = (&container).into_iter();
        assert!(rt; matches!(entries.next(), Some(Err(Error::Memory(_)))));
        assert!(rt; matches!(entries.next(), Some(Ok(SingleArch::Archive(_)))));
        assert!(rt; entries.next().is_none());
    }
    Ok(())
}

// Returns a segment at an address.
fn at(vmaddr: u64) -> Segment<'static> {
    let mut segment = Segment::new(Ctx::default(), &[]);
    segment.vmaddr = vmaddr;
    segment
}

// The growths of a list to which twelve segments are pushed.
const GROWTHS_OF_TWELVE: u64 = 3;

// Whether a list has the segments at 0, 1, .. up to `count`, and no others.
fn has_first<A: Allocator>(list: &Segments<'_, A>, count: usize) -> bool {
    let segments = list.as_slice();
    segments.len() == count && (0..).zip(segments).all(|(n, segment)| segment.vmaddr == n)
}

// Pushes a segment to a list with `vmaddr` segments. Returns 1 if the push is refused and made again, else 0.
fn pushed<A: Allocator>(
    rt: &impl Abort,
    list: &mut Segments<'static, A>,
    vmaddr: u64,
) -> Result<u64, Fail> {
    let Err(error) = list.push(at(vmaddr)) else {
        return Ok(0);
    };
    assert!(rt; matches!(error, Error::Memory(_)));
    assert!(rt; has_first(list, vmaddr as usize));
    list.push(at(vmaddr))?;
    Ok(1)
}

#[test]
fn each_growth_of_a_push_refused(rt: HostRuntime) -> Result<(), Fail> {
    let mut runs = 0u64;
    for number in 1..=GROWTHS_OF_TWELVE + 1 {
        let heap = Refusing::one(rt.alloc(), number);
        let mut list = Segments::new(&heap, Ctx::default());
        for vmaddr in 0..12 {
            runs = runs.saturating_add(pushed(&rt, &mut list, vmaddr)?);
        }
        assert!(rt; has_first(&list, 12));
    }
    same(&rt, runs, GROWTHS_OF_TWELVE);
    Ok(())
}
