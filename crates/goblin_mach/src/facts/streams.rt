//! Laws of the rebases and the weak binds of an image: they are those of its bytes, and what holds of them.

ghost use Rattle.mach_base.specs.Context.{pointer_size};
ghost use Rattle.goblin_mach.specs.Fixups.{chained_view};
ghost use Rattle.goblin_mach.specs.ImageStreams.{AreImageRebases, AreImageWeakBinds, rebase_stream_in, weak_stream_in};
ghost use Rattle.goblin_mach.specs.Modes.{Agrees};
ghost use Rattle.goblin_mach.specs.OpenImage.{bytes_view, commands_view, ctx_view, segments_view};
ghost use Rattle.goblin_mach.specs.StreamFacts.{HasRebases, HasWeakBinds, HasOneListOfRebases, HasOneListOfWeakBinds, HasNoWeakBindsThen, HasRebasesOfFixups};
ghost use Rattle.goblin_mach.specs.StreamFacts.{EachIsReportedOnce, RebasesComeOfFixups};

use crate::macho::MachO;
use std::alloc::Allocator;

/// The rebases that `MachO::rebases` returns, up to the first fault, are those of the bytes.
pub fn rebases_of_image<A: Allocator>(image: &MachO<'_, A>)
    ensures { Agrees image.now HasRebases
        (AreImageRebases (rebase_stream_in (bytes_view image.now) (commands_view image.now)) (chained_view image.now) (ctx_view image.now).le
        (pointer_size (ctx_view image.now).container) (segments_view image.now)) }
{}

/// The weak binds that `MachO::weak_binds` returns, up to the first fault, are those of the bytes.
pub fn weak_binds_of_image<A: Allocator>(image: &MachO<'_, A>)
    ensures { Agrees image.now HasWeakBinds
        (AreImageWeakBinds (weak_stream_in (bytes_view image.now) (commands_view image.now)) (pointer_size (ctx_view image.now).container)
        (segments_view image.now)) }
{}

/// An image has at most one list of rebases up to the first fault.
pub fn one_list_of_image_rebases()
    ensures { HasOneListOfRebases }
{
    mach_dyld::laws::one_list_of_rebases();
    mach_chained::laws::one_list_of_fixups();
}

/// It has at most one list of weak binds up to the first fault.
pub fn one_list_of_image_weak_binds()
    ensures { HasOneListOfWeakBinds }
{
    mach_dyld::laws::one_list_of_weak_binds();
}

/// An image without a command that names opcodes has no weak binds.
pub fn no_weak_binds_without_opcodes()
    ensures { HasNoWeakBindsThen }
{}

/// The rebases of such an image are those among its fixups, in order, up to the fixups' own fault.
pub fn rebases_are_fixups_without_opcodes()
    ensures { HasRebasesOfFixups }
{
    mach_chained::laws::one_list_of_fixups();
}

/// Each fixup of chains is a number, and gives neither a binding nor a rebase; or it gives exactly one of the two.
pub fn fixups_are_reported_once()
    ensures { EachIsReportedOnce }
{}

/// The rebases among fixups are those that the fixups give, and no others.
pub fn rebases_come_of_fixups()
    ensures { RebasesComeOfFixups }
{}
