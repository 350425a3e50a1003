//! Laws of the fixups and the bindings of an image.

ghost use Rattle.goblin_mach.specs.BindingLaws.{HasOneListOfFixups, HasOneListOfBindings, ReportTheSame};

/// An image has at most one list of fixups up to the first fault.
pub fn one_list_of_image_fixups()
    ensures { HasOneListOfFixups }
{
    mach_chained::laws::one_list_of_fixups();
}

/// It has at most one list of bindings up to the first fault.
pub fn one_list_of_image_bindings()
    ensures { HasOneListOfBindings }
{
    mach_dyld::laws::one_list_of_bindings();
    mach_chained::laws::one_list_of_fixups();
}

/// If imports and bindings read the binds of an image alike, each binding has what the import at its place has: the name,
/// the library's name, the places, the addend and both flags. The bindings end where the imports do, or at a fault of their
/// own. If they have no fault, both lists agree one for one, and are equally long.
///
/// They read the binds alike on these conditions:
///
/// - No instruction has opcode 3, and the image has no chained fixups.
/// - In the non-lazy stream only DONEs follow the first DONE, up to the stream's end.
/// - In the lazy stream, an ordinal, a name and a segment are set between the last DONE before each bind and that bind. An
///   addend is set there too, or nowhere before.
///
/// The streams of every linker meet them. The condition on addends includes those before the DONE: after `11 71 00 40 00 60
/// 01 90 00` the stream `11 71 08 40 00 90` gives a binding with the addend 1, and an import with 0.
pub fn image_bindings_are_imports()
    ensures { ReportTheSame }
{
    mach_dyld::laws::bindings_are_imports();
}
