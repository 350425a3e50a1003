//! The ranges of the file that the parts of an image claim, one at a time.

ghost use Rattle.std.specs.Prelude.{◌≡◌, ◌<◌, ◌*◌, ◌∷◌, [], IfSome, slice_get};
ghost use Rattle.mach_records.specs.Linkedit.{dyld_info_command_values, linkedit_data_command_values};
ghost use Rattle.mach_records.specs.SymbolTables.{symtab_command_values, dysymtab_command_values};
ghost use Rattle.mach_load.specs.Variants.{command_of};
ghost use Rattle.mach_layout.specs.Laid.{laid_of, newer_of};
ghost use Rattle.mach_layout.specs.Claims as defined;
ghost use Rattle.mach_layout.specs.ClaimsLeft.{open_left, claims_left, TakesClaim};

use crate::claim::Claim;
use crate::fault::Part;
use crate::layout::Layout;
use crate::placed_sections::{PlacedSection, PlacedSegment, segment_of, take_section};
use crate::rules::{Items, owner_at};
use mach_base::Container;
use mach_load::{CommandVariant, LoadCommand, NewerCommand};
use mach_parts::segment::is_of_zeros;
use mach_parts::symbols::{SIZEOF_NLIST_32, SIZEOF_NLIST_64};
use mach_records::{DyldInfoCommand, DysymtabCommand, LinkeditDataCommand, SymtabCommand};
use std::slice::Iter;

// Returns the claim of `len` bytes from a start on, by a part of the command at a place.
fn claim(part: Part, place: usize, start: u64, len: u64) -> Claim
    ensures { result ≡ defined.claim part place start len }
{
    let owner = owner_at(part, place, 0);
    Claim { owner, start, len }
}

// Returns a claim from fields of 32 bits. The second one counts items of `each` bytes.
fn table(part: Part, place: usize, start: u32, count: u32, each: u32) -> Claim
    ensures { result ≡ defined.claim part place start (count * each) }
{
    claim(
        part,
        place,
        u64::from(start),
        u64::from(count) * u64::from(each),
    )
}

// Returns a claim from fields of 32 bits that count bytes.
fn range(part: Part, place: usize, start: u32, len: u32) -> Claim
    ensures { result ≡ defined.claim part place start len }
{
    claim(part, place, u64::from(start), u64::from(len))
}

// Returns the claims of the symbols and their names.
fn symtab_claims(width: Container, place: usize, c: &SymtabCommand) -> [Claim; 2]
    ensures { result ≡ defined.symtab_claims width place (symtab_command_values c.now) }
{
    let each = match width {
        Container::Little => SIZEOF_NLIST_32 as u32,
        Container::Big => SIZEOF_NLIST_64 as u32,
    };
    [
        table(Part::Symbols, place, c.symoff, c.nsyms, each),
        range(Part::Strings, place, c.stroff, c.strsize),
    ]
}

// Returns the claims of the six tables of `LC_DYSYMTAB`.
fn dysymtab_claims(width: Container, place: usize, c: &DysymtabCommand) -> [Claim; 6]
    ensures { result ≡ defined.dysymtab_claims width place (dysymtab_command_values c.now) }
{
    let module = match width {
        Container::Little => 52,
        Container::Big => 56,
    };
    [
        table(Part::TableOfContents, place, c.tocoff, c.ntoc, 8),
        table(Part::Modules, place, c.modtaboff, c.nmodtab, module),
        table(
            Part::ExternalReferences,
            place,
            c.extrefsymoff,
            c.nextrefsyms,
            4,
        ),
        table(
            Part::IndirectSymbols,
            place,
            c.indirectsymoff,
            c.nindirectsyms,
            4,
        ),
        table(Part::ExternalRelocations, place, c.extreloff, c.nextrel, 8),
        table(Part::LocalRelocations, place, c.locreloff, c.nlocrel, 8),
    ]
}

// Returns the claims of the five ranges of `LC_DYLD_INFO`.
fn dyld_info_claims(place: usize, c: &DyldInfoCommand) -> [Claim; 5]
    ensures { result ≡ defined.dyld_info_claims place (dyld_info_command_values c.now) }
{
    [
        range(Part::RebaseOpcodes, place, c.rebase_off, c.rebase_size),
        range(Part::BindOpcodes, place, c.bind_off, c.bind_size),
        range(
            Part::WeakBindOpcodes,
            place,
            c.weak_bind_off,
            c.weak_bind_size,
        ),
        range(
            Part::LazyBindOpcodes,
            place,
            c.lazy_bind_off,
            c.lazy_bind_size,
        ),
        range(Part::ExportTrie, place, c.export_off, c.export_size),
    ]
}

// Returns claim number `field` of a command that claims one part.
fn only(claim: Claim, field: usize) -> Option<Claim>
    ensures value { result ≡ slice_get (claim ∷ []) field }
    ensures first { IfSome result (λ _. field < 1) }
{
    [claim].get(field).copied()
}

// Returns claim number `field` of a command that claims one part and has its start and size as fields.
fn linkedit_claim(part: Part, place: usize, c: &LinkeditDataCommand, field: usize) -> Option<Claim>
    ensures value { result ≡ slice_get (defined.linkedit_claims part place (linkedit_data_command_values c.now)) field }
    ensures first { IfSome result (λ _. field < 1) }
{
    only(range(part, place, c.dataoff, c.datasize), field)
}

// Returns claim number `field` of a command that goblin's table lacks.
fn newer_claim(layout: &Layout<'_, '_>, command: &LoadCommand, field: usize) -> Option<Claim>
    ensures value { let c = command_of command.now in result ≡ slice_get (defined.newer_claims c.offset (newer_of (laid_of layout.now) c)) field }
    ensures first { IfSome result (λ _. field < 1) }
{
    let place = command.offset;
    match NewerCommand::of(layout.bytes, layout.ctx.le, command)? {
        NewerCommand::AtomInfo(c) => linkedit_claim(Part::AtomInfo, place, &c, field),
        NewerCommand::FunctionVariants(c) => linkedit_claim(
            Part::FunctionVariants,
            place,
            &c,
            field,
        ),
        NewerCommand::FunctionVariantFixups(c) => linkedit_claim(
            Part::FunctionVariantFixups,
            place,
            &c,
            field,
        ),
        NewerCommand::TargetTriple(_) => None,
    }
}

// Returns claim number `field` of the tables of a command.
fn table_claim(layout: &Layout<'_, '_>, command: &LoadCommand, field: usize) -> Option<Claim>
    ensures value { result ≡ slice_get (defined.tables_by (laid_of layout.now) (command_of command.now)) field }
    ensures few { IfSome result (λ _. field < 6) }
{
    let width = layout.ctx.container;
    let place = command.offset;
    match &command.command {
        CommandVariant::Symtab(c) => symtab_claims(width, place, c).get(field).copied(),
        CommandVariant::Dysymtab(c) => dysymtab_claims(width, place, c).get(field).copied(),
        CommandVariant::DyldInfo(c) | CommandVariant::DyldInfoOnly(c) => {
            dyld_info_claims(place, c).get(field).copied()
        }
        CommandVariant::CodeSignature(c) => linkedit_claim(Part::Signature, place, c, field),
        CommandVariant::SegmentSplitInfo(c) => linkedit_claim(Part::SplitInfo, place, c, field),
        CommandVariant::FunctionStarts(c) => linkedit_claim(Part::FunctionStarts, place, c, field),
        CommandVariant::DataInCode(c) => linkedit_claim(Part::DataInCode, place, c, field),
        CommandVariant::DylibCodeSignDrs(c) => linkedit_claim(
            Part::SignatureRequirements,
            place,
            c,
            field,
        ),
        CommandVariant::LinkerOptimizationHint(c) => linkedit_claim(
            Part::LinkerHints,
            place,
            c,
            field,
        ),
        CommandVariant::DyldExportsTrie(c) => linkedit_claim(Part::ExportTrie, place, c, field),
        CommandVariant::DyldChainedFixups(c) => linkedit_claim(
            Part::ChainedFixups,
            place,
            c,
            field,
        ),
        CommandVariant::EncryptionInfo32(c) => {
            only(
                range(Part::Encrypted, place, c.cryptoff, c.cryptsize),
                field,
            )
        }
        CommandVariant::EncryptionInfo64(c) => {
            only(
                range(Part::Encrypted, place, c.cryptoff, c.cryptsize),
                field,
            )
        }
        CommandVariant::Note(c) => { only(claim(Part::Note, place, c.offset, c.size), field) }
        CommandVariant::TwolevelHints(c) => {
            only(
                table(Part::TwolevelHints, place, c.offset, c.nhints, 4),
                field,
            )
        }
        CommandVariant::Symseg(c) => {
            only(range(Part::GdbSymbols, place, c.offset, c.size), field)
        }
        CommandVariant::Unimplemented(_) => newer_claim(layout, command, field),
        _ => None,
    }
}

/// Whether a section has bytes in the file.
pub fn has_bytes(layout: &Layout<'_, '_>, placed: &PlacedSection) -> bool
    ensures { result ≡ defined.has_bytes (laid_of layout.now) placed.now }
{
    placed.section.size != 0
        && !is_of_zeros(placed.section.flags)
        && !layout.is_stub()
        && !(layout.is_dsym() && placed.section.offset == 0)
}

// Returns the claim of `len` bytes from a start on, by a part of a section.
fn section_claim(part: Part, placed: &PlacedSection, start: u32, len: u64) -> Claim
    ensures { result ≡ defined.section_claim part placed.now start len }
{
    Claim {
        owner: owner_at(part, placed.segment.place, placed.number),
        start: u64::from(start),
        len,
    }
}

// Returns the claim of a section's bytes: none if it has none.
fn bytes_claim(layout: &Layout<'_, '_>, placed: &PlacedSection) -> Claim
    ensures { result ≡ defined.bytes_claim (laid_of layout.now) placed.now }
{
    let len = if has_bytes(layout, placed) {
        placed.section.size
    } else {
        0
    };
    section_claim(Part::Section, placed, placed.section.offset, len)
}

// Returns the claim of a section's relocations.
fn relocations_claim(placed: &PlacedSection) -> Claim
    ensures { result ≡ defined.relocations_claim placed.now }
{
    let len = u64::from(placed.section.nreloc) * 8;
    section_claim(Part::Relocations, placed, placed.section.reloff, len)
}

// Returns the claim of a segment's bytes.
pub(crate) fn segment_claim(segment: &PlacedSegment) -> Claim
    ensures { result ≡ defined.segment_claim segment.now }
{
    let c = &segment.command;
    claim(Part::Segment, segment.place, c.fileoff, c.filesize)
}

// Returns the claim of the header and the commands.
fn header_claim(layout: &Layout<'_, '_>) -> Claim
    ensures { result ≡ defined.header_claim (laid_of layout.now) }
{
    claim(Part::Header, 0, 0, layout.used_end())
}

// The claims left of one command: `first`, if there is one; those of the segment's sections after the first `taken`; and
// those of the command's tables from `field` on.
#[derive(Clone, Copy)]
struct Open<'b> {
    first: Option<Claim>,
    segment: Option<PlacedSegment>,
    taken: u32,
    command: Option<&'b LoadCommand>,
    field: usize,
}

impl<'b> Open<'b> {
    // Returns the claim of the header only.
    fn header(layout: &Layout<'_, '_>) -> Self
        ensures { open_left (laid_of layout.now) result ≡ defined.header_claim (laid_of layout.now) ∷ [] }
    {
        Open {
            first: Some(header_claim(layout)),
            segment: None,
            taken: 0,
            command: None,
            field: 0,
        }
    }

    // Returns the claims of a command.
    fn command(layout: &Layout<'_, '_>, command: &'b LoadCommand) -> Self
        ensures { open_left (laid_of layout.now) result ≡ defined.claims_by (laid_of layout.now) (command_of command.now) }
    {
        let segment = segment_of(command);
        let first = match &segment {
            Some(segment) => Some(segment_claim(segment)),
            None => None,
        };
        Open {
            first,
            segment,
            taken: 0,
            command: Some(command),
            field: 0,
        }
    }

    // Returns the next claim.
    fn next(&mut self, layout: &Layout<'_, '_>) -> Option<Claim>
        ensures { TakesClaim (laid_of layout.now) self.old result self.new }
    {
        if let Some(first) = self.first {
            self.first = None;
            return Some(first);
        }
        if let Some(placed) = take_section(layout.bytes, layout.ctx, self.segment, self.taken) {
            self.taken += 1;
            self.first = Some(relocations_claim(&placed));
            return Some(bytes_claim(layout, &placed));
        }
        let claim = table_claim(layout, self.command?, self.field)?;
        self.field += 1;
        Some(claim)
    }
}

/// An iterator over the claims of an image: that of the header and the commands, then those of each command, in order. A
/// part of no bytes claims a range of length 0. It allocates nothing.
#[derive(Clone, Drop)]
pub struct ClaimIterator<'a, 'b> {
    layout: Layout<'a, 'b>,
    commands: Iter<'b, LoadCommand>,
    open: Open<'b>,
}

impl<'a, 'b> ClaimIterator<'a, 'b> {
    pub(crate) fn new(layout: &Layout<'a, 'b>) -> Self
        ensures { claims_left result ≡ defined.claims_of (laid_of layout.now) }
    {
        ClaimIterator {
            layout: *layout,
            commands: layout.commands.iter(),
            open: Open::header(layout),
        }
    }
}

impl<'a, 'b> Iterator for ClaimIterator<'a, 'b> {
    type Item = Claim;

    ghost use Rattle.std.specs.Iterator.{YieldsFirst, item_count};

    ghost next_gives = { YieldsFirst claims_left };

    ghost remaining = { item_count claims_left };

    fn next(&mut self) -> Option<Claim> {
        'commands: loop {
            if let Some(claim) = self.open.next(&self.layout) {
                return Some(claim);
            }
            match self.commands.next() {
                None => return None,
                Some(command) => self.open = Open::command(&self.layout, command),
            }
        }
    }
}

impl<'a, 'b> Items for ClaimIterator<'a, 'b> {
    type Item = Claim;

    ghost left = { claims_left };

    fn again(&self) -> ClaimIterator<'a, 'b> {
        ClaimIterator {
            layout: self.layout,
            commands: self.commands.as_slice().iter(),
            open: self.open,
        }
    }

    fn take_next(&mut self) -> Option<Claim> {
        self.next()
    }
}
