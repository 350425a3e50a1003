//! A caller that counts the pointers read by a walk along chains.

ghost use Rattle.std.specs.Prelude.{◌≡◌, ◌+◌, length, IfOk};

use crate::tests::same::same;
use goblin_mach::MachO;
use mach_base::Steps;
use mach_chained::{ChainedFixups, Fixup};
use mach_parts::segment::Segment;
use mach_samples::files::FILE_D;
use std::alloc::Global;
use std::test::Fail;

// Returns the fixups of all chains; each costs one read of a pointer.
fn all_fixups<'a>(
    alloc: Global,
    fixups: &ChainedFixups<'a>,
    segments: &[Segment<'a>],
    steps: &mut Steps,
) -> mach_base::Result<Vec<Fixup>>
    ensures { IfOk result (λ found. steps.new ≡ steps.old + length found.items) }
{
    let mut left = fixups.fixups(segments, 0x1_0000_0000);
    let mut found = Vec::new(alloc);
    'fixups: loop {
        match left.next_counted(steps) {
            None => break,
            Some(Ok(fixup)) => found.push(fixup)?,
            Some(Err(e)) => return Err(e),
        }
    }
    Ok(found)
}

#[test]
fn fixups_counted(rt: HostRuntime) -> Result<(), Fail> {
    let image = MachO::parse(rt.alloc(), &FILE_D, 0)?;
    let Some(chained) = image.chained_fixups()? else {
        return Err(Fail::from("chained fixups"));
    };
    let mut steps = Steps::new();
    let segments = image.segments.as_slice();
    let found = all_fixups(rt.alloc(), &chained, segments, &mut steps)?;
    same(&rt, found.len(), 4);
    assert!(rt; all_fixups(rt.alloc(), &chained, &[], &mut steps).is_err());
    Ok(())
}
