//! Theorems on the definitions only: functions with empty bodies, whose contracts are laws.

ghost use Rattle.mach_dyld.specs.StreamLaws.{StreamHasOneListOfWeakBinds, StreamHasOneListOfRebases, FindsLastWeakSet, FindsLastRebaseSet};
ghost use Rattle.mach_dyld.specs.Streams.{StreamsHave, BeginningsHave};
ghost use Rattle.mach_dyld.specs.Bindings.{BindingsHave, opcode_at};
ghost use Rattle.mach_dyld.specs.Instructions.{instruction_at};
ghost use Rattle.mach_dyld.specs.OpcodesFit.{WeakOpcodesFit, RebaseOpcodesFit, BindOpcodesFit, OpcodeBytesFit};
ghost use Rattle.mach_dyld.specs.Rebases.{rebase_opcode_at};
ghost use Rattle.mach_dyld.specs.WeakBinds.{weak_opcode_at};
ghost use Rattle.mach_dyld.specs.StreamLaws.{AddsWeakBinds, AddsRebases, WeakBindsLieIn, RebasesLieIn};

/// A stream of weak binds has at most one list of rows up to the first fault.
pub fn one_list_of_weak_binds()
    ensures { StreamHasOneListOfWeakBinds }
{}

/// A stream of rebases has at most one list of them up to the first fault.
pub fn one_list_of_rebases()
    ensures { StreamHasOneListOfRebases }
{}

/// The type of a weak bind is the one set last before it, or 0. A name and a segment count as set if an instruction before it set one.
pub fn finds_last_weak_set()
    ensures { FindsLastWeakSet }
{}

/// The type of a rebase is the one set last before it, or 0. A segment counts as set if an instruction before it set one.
pub fn finds_last_rebase_set()
    ensures { FindsLastRebaseSet }
{}

/// An instruction adds the rows that are found by looking back over the instructions before it.
#[tactic(auto, using(crate::proofs::StreamLaws::adds_weak_binds_lem))]
pub fn adds_weak_binds()
    ensures { AddsWeakBinds }
{}

/// An instruction adds the rebases that are found in the same way.
#[tactic(auto, using(crate::proofs::StreamLaws::adds_rebases_lem))]
pub fn adds_rebases()
    ensures { AddsRebases }
{}

/// The whole pointer of each weak bind lies in one of the segments.
pub fn weak_binds_lie_in_segments()
    ensures { WeakBindsLieIn }
{}

/// The whole pointer of each rebase lies in its segment.
pub fn rebases_lie_in_segments()
    ensures { RebasesLieIn }
{}

/// A stream of weak binds has at most as many opcodes as its range has bytes in the file.
pub fn weak_opcodes_fit()
    ensures { WeakOpcodesFit }
{}

/// So has a stream of rebases.
pub fn rebase_opcodes_fit()
    ensures { RebaseOpcodesFit }
{}

/// So have both streams of binds together, whether or not they can be read to their ends.
pub fn bind_opcodes_fit()
    ensures whole { BindOpcodesFit StreamsHave }
    ensures cut { BindOpcodesFit BeginningsHave }
{}

/// So have both streams as bindings read them.
pub fn binding_opcodes_fit()
    ensures { BindOpcodesFit BindingsHave }
{}

/// The first opcodes of a range, with their numbers and names, take at most the bytes from its start on: as imports,
/// bindings, weak binds and rebases read them.
pub fn opcode_bytes_fit()
    ensures imports { OpcodeBytesFit (λ r. instruction_at) }
    ensures bindings { OpcodeBytesFit opcode_at }
    ensures weak_binds { OpcodeBytesFit weak_opcode_at }
    ensures rebases { OpcodeBytesFit rebase_opcode_at }
{}
