//! What the header, the segments, the commands and the symbols of an image say of how it is hardened.

ghost use Rattle.std.specs.Prelude.{◌≡◌, drop};
ghost use Rattle.std.specs.List.{list_any};
ghost use Rattle.mach_base.specs.Answer.{Reads};
ghost use Rattle.mach_dyld.specs.Nodes.{has_bit};
ghost use Rattle.mach_load.specs.Variants.{command_of};
ghost use Rattle.mach_parts.specs.SectionRecord.{numbered_section};
ghost use Rattle.mach_parts.specs.Segment.{segment_view};
ghost use Rattle.mach_parts.specs.Symbols.{nlist_at, symbol_place};
ghost use Rattle.mach_parts.specs.SymbolViews.{table_of};
ghost use Rattle.goblin_mach.specs.ImageSlots.{symbol_table_view};
ghost use Rattle.goblin_mach.specs.OpenImage.{bytes_view};
ghost use Rattle.mach_audit.specs.Security as defined;

use goblin_mach::cputype::CPU_TYPE_ARM64;
use goblin_mach::header::Header;
use goblin_mach::load_command::{CommandVariant, LoadCommand};
use goblin_mach::segment::Segment;
use goblin_mach::symbols::{Nlist, Nlist32, Nlist64, Symbols};
use goblin_mach::{Container, Ctx, MachO, Record, Result, SizeWith};
use std::alloc::Allocator;

/// Whether a bit of some flags is set.
pub fn has_bit(flags: u32, bit: u32) -> bool
    ensures { result ≡ has_bit bit flags }
{
    flags & bit != 0
}

/// Whether the cpu is of the kind arm64e.
pub fn is_arm64e(header: &Header) -> bool
    ensures { result ≡ defined.is_arm64e header.now }
{
    header.cputype == CPU_TYPE_ARM64 && header.cpusubtype % 0x100_0000 == 2
}

// Whether a protection allows writing and execution.
fn is_writable_code(protection: u32) -> bool
    ensures { result ≡ defined.is_writable_code protection }
{
    has_bit(protection, 2) && has_bit(protection, 4)
}

/// Whether the initial protection of a segment allows both.
pub fn has_writable_code(segments: &[Segment<'_>]) -> bool
    ensures { result ≡ list_any (λ s. defined.is_writable_code (segment_view s).command.initprot) segments.now }
{
    segments
        .iter()
        .any(|segment| is_writable_code(segment.initprot))
}

/// Whether the maximum protection of a segment allows both.
pub fn may_have_writable_code(segments: &[Segment<'_>]) -> bool
    ensures { result ≡ list_any (λ s. defined.is_writable_code (segment_view s).command.maxprot) segments.now }
{
    segments
        .iter()
        .any(|segment| is_writable_code(segment.maxprot))
}

// Whether a section of a segment is named `__restrict`.
fn is_restrict(segment: &Segment<'_>, number: u32) -> bool
    ensures { result ≡ defined.is_restrict (numbered_section 0 (segment_view segment.now) number) }
{
    match segment.numbered(0, number) {
        Ok(found) => found.section.sectname.starts_with(b"__restrict\0"),
        Err(_) => false,
    }
}

// Whether the command of a segment has such a section.
fn has_restrict(segment: &Segment<'_>) -> bool
    ensures { result ≡ defined.has_restrict (segment_view segment.now) }
{
    (0..segment.sections_held()).any(|number| is_restrict(segment, number))
}

// Whether a segment is `__RESTRICT` and has such a section.
fn restricts(segment: &Segment<'_>) -> bool
    ensures { result ≡ defined.restricts (segment_view segment.now) }
{
    segment.segname.starts_with(b"__RESTRICT\0") && has_restrict(segment)
}

/// Whether one of these segments is.
pub fn has_restricted(segments: &[Segment<'_>]) -> bool
    ensures { result ≡ list_any (λ s. defined.restricts (segment_view s)) segments.now }
{
    segments.iter().any(|segment| restricts(segment))
}

// Whether a command places chained fixups.
fn is_chained(command: &LoadCommand) -> bool
    ensures { result ≡ defined.is_chained (command_of command.now) }
{
    matches!(&command.command, CommandVariant::DyldChainedFixups(_))
}

/// Whether one of these commands does.
pub fn has_chained_fixups(commands: &[LoadCommand]) -> bool
    ensures { result ≡ list_any (λ c. defined.is_chained (command_of c)) commands.now }
{
    commands.iter().any(|command| is_chained(command))
}

// Whether a path begins neither with a slash nor with a place that dyld knows, as `@loader_path`.
fn is_relative(path: &str) -> bool
    ensures { result ≡ defined.is_relative path.now }
{
    !path.starts_with("/") && !path.starts_with("@")
}

/// Whether one of these paths does.
pub fn has_relative_path(paths: &[&str]) -> bool
    ensures { result ≡ list_any (λ path. defined.is_relative path.now) paths.now }
{
    paths.iter().any(|path| is_relative(path))
}

// Reads the record of a symbol, without its name.
fn record_at(bytes: &[u8], place: usize, ctx: Ctx) -> Result<Nlist>
    ensures { Reads (λ symbol. symbol) result (nlist_at ctx bytes.now place) }
{
    match ctx.container {
        Container::Little => Ok(Nlist::from(Nlist32::read(bytes, place, ctx.le)?)),
        Container::Big => Ok(Nlist::from(Nlist64::read(bytes, place, ctx.le)?)),
    }
}

// Whether another image defines a symbol.
fn is_undefined(symbol: &Nlist) -> bool
    ensures { result ≡ defined.is_undefined symbol.now }
{
    let kind = symbol.get_type();
    !symbol.is_stab() && (kind == 0 || kind == 0xc)
}

// Whether the bytes at a place begin with a name that compilers use for stack canaries.
fn names_canary(bytes: &[u8], place: usize) -> bool
    ensures { result ≡ defined.names_canary (drop place bytes.now) }
{
    let name = bytes.get(place..).unwrap_or(&[]);
    name.starts_with(b"___stack_chk_fail\0") || name.starts_with(b"___stack_chk_guard\0")
}

// Returns the place of a symbol's record.
fn record_place(table: &Symbols<'_>, index: usize) -> usize
    ensures { result ≡ symbol_place (table_of table.now) index }
{
    let before = index.saturating_mul(Nlist::size_with(&table.ctx()));
    table.start().saturating_add(before)
}

// Whether a symbol is undefined and has such a name.
fn is_canary(bytes: &[u8], table: &Symbols<'_>, index: usize) -> bool
    ensures { let t = table_of table.now in result ≡ defined.is_canary bytes.now t (nlist_at t.ctx bytes.now (symbol_place t index)) }
{
    match record_at(bytes, record_place(table, index), table.ctx()) {
        Ok(symbol) => is_undefined(&symbol) && names_canary(bytes, table.name_place(&symbol)),
        Err(_) => false,
    }
}

// Whether a table has such a symbol.
fn any_canary(bytes: &[u8], table: &Symbols<'_>) -> bool
    ensures { result ≡ defined.any_canary bytes.now (table_of table.now) }
{
    (0..table.len()).any(|index| is_canary(bytes, table, index))
}

/// Whether an image has such a symbol. It reads each record once, and of a name no more bytes than it compares.
pub fn has_canary<A: Allocator>(image: &MachO<'_, A>) -> bool
    ensures { result ≡ defined.has_canary (bytes_view image.now) (symbol_table_view image.now) }
{
    match &image.symbols {
        None => false,
        Some(table) => any_canary(image.bytes(), &table.in_bounds()),
    }
}
