//! The rows of the rebases, binds and weak binds of the opcodes and of the fixups of the chains.

ghost use Rattle.std.specs.Prelude.{◌≡◌, ℤ, None, option_map, slice_get};
ghost use Rattle.mach_base.specs.Answer.{Reads};
ghost use Rattle.mach_base.specs.Text.{texts};
ghost use Rattle.mach_dyld.specs.RebasesLeft.{rebase_read};
ghost use Rattle.mach_dyld.specs.WeakBindsLeft.{weak_bind_read};
ghost use Rattle.mach_parts.specs.Bindings.{binding_view, binding_read};
ghost use Rattle.mach_chained.specs.PointerViews.{kind_view};
ghost use Rattle.mach_parts.specs.PointerSigning.{auth_option_view};
ghost use Rattle.mach_chained.specs.Views.{import_view};
ghost use Rattle.mach_chained.specs.WalkViews.{fixup_view, fixup_read};
ghost use Rattle.goblin_mach.specs.AllStretches.{part_with, part_view, parts_view};
ghost use Rattle.machfixups.specs.Rows.{place_by_address, place_in, target_by_kind, bind_of_binding, row_by_address, row_by_segment};
ghost use Rattle.machfixups.specs.Rows.{import_in, action_of, bind_of_import, rebases_to, symbol_there};
ghost use Rattle.machfixups.specs.Rows.{row_for_binding, row_for_rebase, row_for_weak, row_for_fixup, place_view, bind_view, action_view, row_view};
ghost use Rattle.machfixups.specs.Rows.{row_of_fixup, row_read, fixups_table_view};
ghost use Rattle.machfixups.specs.StoredPointers.{source_option_view};
ghost use Rattle.machfixups.specs.TargetSymbols.{symbols_seen, target_symbol_option_view};

use crate::stored_pointers::{StoredPointers, raw_of};
use crate::target_symbols::{TargetSymbol, symbol_to_show};
use goblin_mach::chained_fixups::{ChainedFixups, ChainedImport, Fixup, FixupKind, PointerAuth};
use goblin_mach::{
    AddressMap, AllStretches, Binding, Error, Rebase, RebaseKind, Result, SegmentStretches,
    WeakBind,
};
use mach_cli::{ordinal_of, origin_of, provider_name, section_name_with, stretch_name};
use std::alloc::Allocator;

/// An address.
#[derive(Clone, Copy)]
pub struct Location<'a> {
    pub address: u64,
    /// The printed names of the segment and of the section that hold it, if they do.
    pub segment: Option<&'a str>,
    pub section: Option<&'a str>,
}

/// A symbol whose address a pointer takes.
#[derive(Clone, Copy)]
pub struct Bind<'a> {
    pub name: &'a str,
    /// 0 for the image itself, above 0 for a library of the image's list, -1 for the main executable, -2 for any image, -3 for
    /// weak lookup.
    pub ordinal: i128,
    /// The short name of the image that it comes from, if there is one.
    pub from: Option<&'a str>,
    pub addend: i128,
    pub is_weak: bool,
    pub is_lazy: bool,
    pub auth: Option<PointerAuth>,
}

/// What is stored at a place.
#[derive(Clone, Copy)]
pub enum Action<'b, 'a> {
    /// The address of a symbol.
    Bind(Bind<'a>),
    /// The address of the definition that all images share.
    Weak(Bind<'a>),
    /// An address that moves with the image.
    Rebase {
        target: Location<'b>,
        /// The symbol at the target, if there is one.
        symbol: Option<TargetSymbol<'a>>,
        kind: RebaseKind,
        auth: Option<PointerAuth>,
    },
    /// A number.
    Value(u32),
}

/// A rebase, a bind or a weak bind of the opcodes, or a fixup of the chains.
#[derive(Clone, Copy)]
pub enum Row<'b, 'a> {
    /// A place, and what is stored there.
    At {
        place: Location<'b>,
        action: Action<'b, 'a>,
        /// The pointer of a chain as it is stored, if it is shown.
        raw: Option<u64>,
    },
    /// The name of a strong definition of the image's own.
    Strong(&'a str),
}

// Returns the place of an address in a segment, if there is one.
fn place_in<'b, A: Allocator>(part: Option<&'b SegmentStretches<A>>, address: u64) -> Location<'b>
    ensures { place_view result ≡ place_in (option_map (λ p. part_view p.now) part.entry) address }
{
    match part {
        Some(part) => Location {
            address,
            segment: Some(stretch_name(&part.memory)),
            section: section_name_with(part, address),
        },
        None => Location {
            address,
            segment: None,
            section: None,
        },
    }
}

// Returns the place of an address in the first segment that holds it, if one does.
fn place_by_address<'b, A: Allocator>(parts: &'b AllStretches<A>, address: u64) -> Location<'b>
    ensures { place_view result ≡ place_by_address (parts_view parts.now) address }
{
    place_in(parts.first_with(address), address)
}

// Returns the place of the address that a rebase corrects; a relative number has none.
fn target_by_kind<'b, A: Allocator>(
    parts: &'b AllStretches<A>,
    kind: RebaseKind,
    target: u64,
) -> Location<'b>
    ensures { place_view result ≡ target_by_kind (parts_view parts.now) kind target }
{
    match kind {
        RebaseKind::Pointer | RebaseKind::TextAbsolute32 => place_by_address(parts, target),
        RebaseKind::TextRelative32 => Location {
            address: target,
            segment: None,
            section: None,
        },
    }
}

// Returns the symbol at a target, if a section holds it.
fn symbol_there<'a, A: Allocator>(
    symbols: &Option<AddressMap<'a, '_, A, A>>,
    target: &Location<'_>,
) -> Option<TargetSymbol<'a>>
    ensures { target_symbol_option_view result ≡ symbol_there (symbols_seen symbols.now) (place_view target.now) }
{
    match (symbols, target.section) {
        (Some(symbols), Some(_)) => symbol_to_show(symbols.symbol_at(target.address)),
        (Some(_), None) => None,
        (None, _) => None,
    }
}

// Returns what a rebase to a target stores, with the symbol there.
fn rebase_to<'b, 'a, A: Allocator>(
    symbols: &Option<AddressMap<'a, '_, A, A>>,
    target: Location<'b>,
    kind: RebaseKind,
    auth: Option<PointerAuth>,
) -> Action<'b, 'a>
    ensures { action_view result ≡ rebases_to (symbols_seen symbols.now) (place_view target.entry) kind (auth_option_view auth) }
{
    Action::Rebase {
        target,
        symbol: symbol_there(symbols, &target),
        kind,
        auth,
    }
}

// Returns the bind of a binding of the opcodes.
fn bind_of_binding<'a>(binding: &Binding<'a>) -> Bind<'a>
    ensures { bind_view result ≡ bind_of_binding (binding_view binding.now) }
{
    Bind {
        name: binding.name,
        ordinal: ordinal_of(&binding.provider),
        from: provider_name(&binding.provider),
        addend: i128::from(binding.addend),
        is_weak: binding.is_weak,
        is_lazy: binding.is_lazy,
        auth: None,
    }
}

// Returns the row of an address, in the first segment that holds it.
fn row_by_address<'b, 'a, A: Allocator>(
    parts: &'b AllStretches<A>,
    address: u64,
    action: Action<'b, 'a>,
) -> Row<'b, 'a>
    ensures { row_view result ≡ row_by_address (parts_view parts.now) address (action_view action.entry) }
{
    Row::At {
        place: place_by_address(parts, address),
        action,
        raw: None,
    }
}

// Returns the row of an address, in the segment with a number.
fn row_by_segment<'b, 'a, A: Allocator>(
    parts: &'b AllStretches<A>,
    segment: u32,
    address: u64,
    action: Action<'b, 'a>,
    raw: Option<u64>,
) -> Row<'b, 'a>
    ensures { row_view result ≡ row_by_segment (parts_view parts.now) segment address (action_view action.entry) raw }
{
    let part = parts.get(segment as usize);
    Row::At {
        place: place_in(part, address),
        action,
        raw,
    }
}

// Returns the import with a number, if there are chains and their table has it.
fn import_in<'a>(table: &Option<ChainedFixups<'a>>, index: u32) -> Result<ChainedImport<'a>>
    ensures { Reads import_view result (import_in (fixups_table_view table.now) index) }
{
    match table {
        Some(table) => table.import(index),
        None => Err(Error::Malformed("there is no table of imports")),
    }
}

// Returns the bind of an import, by the image's libraries; its addend is the sum of the table's and the pointer's.
fn bind_of_import<'a>(
    libs: &[&'a str],
    import: &ChainedImport<'a>,
    inline: i32,
    auth: Option<PointerAuth>,
) -> Bind<'a>
    ensures { bind_view result ≡ bind_of_import (texts libs.now) (import_view import.now) inline (auth_option_view auth) }
{
    Bind {
        name: import.name,
        ordinal: i128::from(import.library),
        from: origin_of(libs, import.library),
        addend: i128::from(import.addend) + i128::from(inline),
        is_weak: import.is_weak,
        is_lazy: false,
        auth,
    }
}

// Returns what a fixup stores.
fn action_of<'b, 'a, A: Allocator>(
    parts: &'b AllStretches<A>,
    symbols: &Option<AddressMap<'a, '_, A, A>>,
    libs: &[&'a str],
    table: &Option<ChainedFixups<'a>>,
    fixup: &Fixup,
) -> Result<Action<'b, 'a>>
    ensures { Reads action_view result (action_of (parts_view parts.now) (symbols_seen symbols.now) (texts libs.now) (fixups_table_view table.now)
        (kind_view fixup.now.kind) (auth_option_view fixup.now.auth)) }
{
    let auth = fixup.auth;
    match fixup.kind {
        FixupKind::Rebase { target } => {
            let target = place_by_address(parts, target);
            Ok(rebase_to(symbols, target, RebaseKind::Pointer, auth))
        }
        FixupKind::Value { value } => Ok(Action::Value(value)),
        FixupKind::Bind { import, addend } => {
            let found = import_in(table, import)?;
            Ok(Action::Bind(bind_of_import(libs, &found, addend, auth)))
        }
    }
}

// Returns the row of a fixup of the chains, in its segment; an error if the import of a bind can't be read.
fn row_of_fixup<'b, 'a, A: Allocator>(
    parts: &'b AllStretches<A>,
    symbols: &Option<AddressMap<'a, '_, A, A>>,
    libs: &[&'a str],
    table: &Option<ChainedFixups<'a>>,
    source: &Option<StoredPointers<'_, '_>>,
    fixup: &Fixup,
) -> Result<Row<'b, 'a>>
    ensures { Reads row_view result (row_of_fixup (parts_view parts.now) (symbols_seen symbols.now) (texts libs.now) (fixups_table_view table.now)
        (source_option_view source.now) (fixup_view fixup.now)) }
{
    let action = action_of(parts, symbols, libs, table, fixup)?;
    let raw = raw_of(source, table, fixup);
    Ok(row_by_segment(parts, fixup.segment, fixup.address, action, raw))
}

/// Returns the row of a rebase of the opcodes; its place is in its own segment.
pub fn rebase_row<'b, 'a, A: Allocator>(
    parts: &'b AllStretches<A>,
    symbols: &Option<AddressMap<'a, '_, A, A>>,
    item: Result<Rebase>,
) -> Result<Row<'b, 'a>>
    ensures { row_read result ≡ row_for_rebase (parts_view parts.now) (symbols_seen symbols.now) (rebase_read item) }
{
    let rebase = item?;
    let target = target_by_kind(parts, rebase.kind, rebase.target);
    let action = rebase_to(symbols, target, rebase.kind, rebase.auth);
    Ok(row_by_segment(parts, rebase.segment, rebase.address, action, None))
}

/// Returns the row of a weak bind of the opcodes.
pub fn weak_row<'b, 'a, A: Allocator>(
    parts: &'b AllStretches<A>,
    item: Result<WeakBind<'a>>,
) -> Result<Row<'b, 'a>>
    ensures { row_read result ≡ row_for_weak (parts_view parts.now) (weak_bind_read item.entry) }
{
    match item? {
        WeakBind::Strong { name } => Ok(Row::Strong(name)),
        WeakBind::Bind(binding) => {
            let action = Action::Weak(bind_of_binding(&binding));
            Ok(row_by_address(parts, binding.address, action))
        }
    }
}

/// Returns the row of a bind of the opcodes; its place is in the first segment that holds its address.
pub fn binding_row<'b, 'a, A: Allocator>(
    parts: &'b AllStretches<A>,
    item: Result<Binding<'a>>,
) -> Result<Row<'b, 'a>>
    ensures { row_read result ≡ row_for_binding (parts_view parts.now) (binding_read item.entry) }
{
    let binding = item?;
    let action = Action::Bind(bind_of_binding(&binding));
    Ok(row_by_address(parts, binding.address, action))
}

/// Returns the row of a fixup of the chains, given the image's libraries.
pub fn fixup_row<'b, 'a, A: Allocator>(
    parts: &'b AllStretches<A>,
    symbols: &Option<AddressMap<'a, '_, A, A>>,
    libs: &[&'a str],
    table: &Option<ChainedFixups<'a>>,
    source: &Option<StoredPointers<'_, '_>>,
    item: Result<Fixup>,
) -> Result<Row<'b, 'a>>
    ensures { row_read result ≡ row_for_fixup (parts_view parts.now) (symbols_seen symbols.now) (texts libs.now) (fixups_table_view table.now)
        (source_option_view source.now) (fixup_read item) }
{
    match item {
        Ok(fixup) => row_of_fixup(parts, symbols, libs, table, source, &fixup),
        Err(error) => Err(error),
    }
}
