//! Theorems: after a cursor that is all zero comes the whole list.

ghost use Rattle.std.specs.Prelude.{◌≡◌, ◌↔◌, ℕ, List, Result};
ghost use Rattle.mach_base.specs.Fault.{Fault};
ghost use Rattle.mach_chained.specs.Fixups.{Fixup};
ghost use Rattle.mach_dyld.specs.Imports.{Import};
ghost use Rattle.goblin_mach.specs.Facts.{HasBindings, HasFixups, HasImportItems};
ghost use Rattle.goblin_mach.specs.StreamFacts.{HasRebases, HasWeakBinds};
ghost use Rattle.goblin_mach.specs.TableFacts.{HasFunctionStarts};
ghost use Rattle.mach_parts.specs.Bindings.{Binding};
ghost use Rattle.mach_dyld.specs.Rebases.{Rebase};
ghost use Rattle.mach_dyld.specs.WeakBinds.{WeakBind};
ghost use Rattle.goblin_mach_c.specs.BindingsAfter.{HasBindingsAfter};
ghost use Rattle.goblin_mach_c.specs.declared.bindings.gm_binding_cursor.{gm_binding_cursor};
ghost use Rattle.goblin_mach_c.specs.FixupsAfter.{HasFixupsAfter};
ghost use Rattle.goblin_mach_c.specs.ImportsAfter.{HasImportsAfter};
ghost use Rattle.goblin_mach_c.specs.declared.imports.gm_bind_cursor.{gm_bind_cursor};
ghost use Rattle.goblin_mach_c.specs.RebasesAfter.{HasRebasesAfter};
ghost use Rattle.goblin_mach_c.specs.StartsAfter.{HasStartsAfter};
ghost use Rattle.goblin_mach_c.specs.WeakBindsAfter.{HasWeakBindsAfter};
ghost use Rattle.goblin_mach_c.specs.declared.fixups.gm_fixup_cursor.{gm_fixup_cursor};
ghost use Rattle.goblin_mach_c.specs.declared.rebases.gm_rebase_cursor.{gm_rebase_cursor};
ghost use Rattle.goblin_mach_c.specs.declared.starts.gm_start_cursor.{gm_start_cursor};

/// At stage 0 the fixups after a cursor are all those of the image.
pub fn fixups_begin_at_the_start()
    ensures { (bytes : List ℕ) (o : ℕ) (c : gm_fixup_cursor) → c.stage ≡ 0 → (items : List (Result Fixup Fault))
        → HasFixupsAfter bytes o c items ↔ HasFixups bytes o items }
{}

/// At stage 0 the functions after a cursor are all those of the image.
pub fn starts_begin_at_the_start()
    ensures { (bytes : List ℕ) (o : ℕ) (c : gm_start_cursor) → c.stage ≡ 0 → (items : List (Result ℕ Fault))
        → HasStartsAfter bytes o c items ↔ HasFunctionStarts bytes o items }
{}

/// At stage 0 the imports after a cursor are all those of the image.
pub fn imports_begin_at_the_start()
    ensures { (bytes : List ℕ) (o : ℕ) (c : gm_bind_cursor) → c.stage ≡ 0 → (items : List (Result Import Fault))
        → HasImportsAfter bytes o c items ↔ HasImportItems bytes o items }
{}

/// If both parts of a cursor are at stage 0, the bindings after it are all those of the image.
pub fn bindings_begin_at_the_start()
    ensures { (bytes : List ℕ) (o : ℕ) (c : gm_binding_cursor) → c.opcodes.stage ≡ 0 → c.chains.stage ≡ 0
        → (items : List (Result Binding Fault)) → HasBindingsAfter bytes o c items ↔ HasBindings bytes o items }
{}

/// At stage 0 the weak binds after a cursor are all those of the image.
pub fn weak_binds_begin_at_the_start()
    ensures { (bytes : List ℕ) (o : ℕ) (c : gm_bind_cursor) → c.stage ≡ 0 → (items : List (Result WeakBind Fault))
        → HasWeakBindsAfter bytes o c items ↔ HasWeakBinds bytes o items }
{}

/// If both parts of a cursor are at stage 0, the rebases after it are all those of the image.
pub fn rebases_begin_at_the_start()
    ensures { (bytes : List ℕ) (o : ℕ) (c : gm_rebase_cursor) → c.opcodes.stage ≡ 0 → c.chains.stage ≡ 0
        → (items : List (Result Rebase Fault)) → HasRebasesAfter bytes o c items ↔ HasRebases bytes o items }
{}
