//! Laws of the tables that commands hold or place.

ghost use Rattle.std.specs.Prelude.{◌≡◌, ◌<◌, ◌≤◌, ◌-◌, ◌/◌, ℕ, List, Result, Ok, Some, length, slice_get};
ghost use Rattle.mach_base.specs.declared.context.Endian.{Endian};
ghost use Rattle.mach_base.specs.Fault.{Fault};
ghost use Rattle.mach_load.specs.DataInCode.{data_in_code_in, data_in_code_item};
ghost use Rattle.mach_load.specs.FunctionStarts.{StartRange, AreFunctionStarts};
ghost use Rattle.mach_load.specs.StartNumbers.{AreDistances, AreSums};

/// A range has only one list of functions.
#[tactic(auto, using(crate::proofs::StartLaws::one_start_list))]
pub fn starts_are_one_list()
    ensures { (r : StartRange) (base : ℕ) (xs ys : List (Result ℕ Fault)) → AreFunctionStarts r base xs → AreFunctionStarts r base ys → xs ≡ ys }
{}

/// Each start is greater than the one before, and there are no more starts than the range has bytes.
#[tactic(auto, using(crate::proofs::StartLaws::starts_ascend, crate::proofs::StartLaws::few_starts))]
pub fn starts_ascend()
    ensures ascend { (r : StartRange) (base : ℕ) (items : List (Result ℕ Fault)) → AreFunctionStarts r base items
        → (j k a b : ℕ) → slice_get items j ≡ Some (Ok a) → slice_get items k ≡ Some (Ok b) → j < k → a < b }
    ensures few { (r : StartRange) (base : ℕ) (items : List (Result ℕ Fault)) → AreFunctionStarts r base items → length items ≤ r.upto - r.from }
{}

/// Each start is the address of the first byte plus the sum of the numbers up to its own. The numbers are spelled one after another.
#[tactic(auto, using(crate::proofs::StartLaws::starts_are_sums))]
pub fn starts_are_sums()
    ensures { (r : StartRange) (base : ℕ) (items : List (Result ℕ Fault)) → AreFunctionStarts r base items
        → (numbers : List ℕ) × AreDistances r.bytes r.upto r.from numbers × AreSums base numbers items }
{}

/// Data-in-code entries are addressed by number. There are as many as the table
/// has room for, and entry k is the one at its own place, whatever the others are.
pub fn data_in_code_by_number()
    ensures count { (le : Endian) (bytes : List ℕ) (dataoff datasize : ℕ) → length (data_in_code_in le bytes dataoff datasize) ≡ datasize / 8 }
    ensures item { (le : Endian) (bytes : List ℕ) (dataoff datasize k : ℕ) → k < datasize / 8
        → slice_get (data_in_code_in le bytes dataoff datasize) k ≡ Some (data_in_code_item le bytes dataoff k) }
{}
