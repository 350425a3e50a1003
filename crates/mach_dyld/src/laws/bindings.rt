//! Laws of bindings: how they follow from the instructions in order, where they lie, and when they agree with the imports.

ghost use Rattle.mach_dyld.specs.BindingLaws.{FindsLastOrdinal, AddsBindings, StreamsHaveOneListOfBindings, BindingLiesIn, BindingsLieIn, StreamsReportTheSame};

/// The ordinal of a bind is the one set last before it, by opcode 1, 2 or 3, or 0. No instruction that bindings read is a DONE.
#[tactic(auto, using(crate::proofs::BindingLaws::finds_last_ordinal_lem))]
pub fn finds_last_ordinal()
    ensures { FindsLastOrdinal }
{}

/// An instruction adds the bindings that are found by looking back over the instructions before it.
#[tactic(auto, using(crate::proofs::BindingLaws::adds_bindings_lem))]
pub fn adds_bindings()
    ensures { AddsBindings }
{}

/// Two streams have at most one list of bindings up to the first fault.
pub fn one_list_of_bindings()
    ensures { StreamsHaveOneListOfBindings }
{}

/// The address of a bind's binding is at least the `vmaddr` of the bind's segment, and less than that plus its `vmsize`.
#[tactic(auto, using(crate::proofs::BindingLaws::binding_lies))]
pub fn binding_lies_in_its_segment()
    ensures { BindingLiesIn }
{}

/// The address of each binding lies in this way in one of the segments.
pub fn bindings_lie_in_segments()
    ensures { BindingsLieIn }
{}

/// If imports and bindings read the streams alike, each binding has what the import at its place has: the name, the
/// library's name, the places, the addend and both flags.
pub fn bindings_are_imports()
    ensures { StreamsReportTheSame }
{}
