//! Small callers of what is looked up in an image, what its sections hold, and what single commands say: each states its answer by a fact about the
//! bytes, and cites the law that gives it.

ghost use Rattle.std.specs.Prelude.{◌≡◌, ℕ, List, Some, IfSome, option_map};
ghost use Rattle.mach_base.specs.Items.{read_as};
ghost use Rattle.mach_parts.specs.Segment.{segment_view};
ghost use Rattle.goblin_mach.specs.FileOffsets.{maps_address, maps_offset, AtMostOne};
ghost use Rattle.goblin_mach.specs.LookedUpFacts.{HasSegmentNamed, HasSectionNamed, HasSymbolNamed, HasSymbolsNamed, HasFunctionAt};
ghost use Rattle.goblin_mach.specs.LookedUpFacts.{HasAddressOf, HasOffsetOf};
ghost use Rattle.goblin_mach.specs.ImageSlots.{symbol_table_view};
ghost use Rattle.goblin_mach.specs.NamedLeft.{named_left};
ghost use Rattle.goblin_mach.specs.NamedParts.{symbols_within, IsFirstNamed};
ghost use Rattle.goblin_mach.specs.NearestSymbol.{found_symbol_view};
ghost use Rattle.goblin_mach.specs.OpenImage.{IsImage, segments_view};
ghost use Rattle.goblin_mach.specs.Said.{build_version_said};
ghost use Rattle.goblin_mach.specs.SaidFacts.{HasUuid, HasBuildVersions, HasSourceVersion, HasEncryption, HasDylinker};
ghost use Rattle.goblin_mach.specs.SaidLeft.{said_left, said_text};
ghost use Rattle.goblin_mach.specs.SlotFacts.{HasSectionData, HasStringsOf, HasInitializers};
ghost use Rattle.goblin_mach.specs.Initializers.{initializers_left};
ghost use Rattle.goblin_mach.specs.Strings.{strings_left};

use crate::tests::same::same;
use goblin_mach::said::BuildVersionIterator;
use goblin_mach::segment::{NumberedSection, Segment};
use goblin_mach::symbols::Nlist;
use goblin_mach::{
    Encryption, Function, InitializerIterator, MachO, NamedSymbols, Result, StringIterator,
    SymbolAt, SymbolMap, laws,
};
use mach_samples::files::FILE_B;
use std::test::Fail;

// Each of these returns what the bytes say in which the image was opened.
fn uuid(image: &MachO<'_>) -> Option<[u8; 16]>
    ensures { (bytes : List ℕ) (o : ℕ) → IsImage bytes o image.now → HasUuid bytes o result }
{
    laws::uuid_of_image(image);
    image.uuid()
}

fn build_versions<'b>(image: &'b MachO<'_>) -> BuildVersionIterator<'b>
    ensures { (bytes : List ℕ) (o : ℕ) → IsImage bytes o image.now → HasBuildVersions bytes o (said_left (λ s. build_version_said s.cputype) result) }
{
    laws::build_versions_of_image(image);
    image.build_versions()
}

fn source_version(image: &MachO<'_>) -> Option<u64>
    ensures { (bytes : List ℕ) (o : ℕ) → IsImage bytes o image.now → HasSourceVersion bytes o result }
{
    laws::source_version_of_image(image);
    image.source_version()
}

fn encryption(image: &MachO<'_>) -> Option<Encryption>
    ensures { (bytes : List ℕ) (o : ℕ) → IsImage bytes o image.now → HasEncryption bytes o result }
{
    laws::encryption_of_image(image);
    image.encryption()
}

fn dylinker<'a>(image: &MachO<'a>) -> Option<Result<&'a str>>
    ensures { (bytes : List ℕ) (o : ℕ) → IsImage bytes o image.now → HasDylinker bytes o (option_map said_text result) }
{
    laws::dylinker_of_image(image);
    image.dylinker()
}

fn segment_named<'a, 'b>(image: &'b MachO<'a>, name: &str) -> Option<&'b Segment<'a>>
    ensures { (bytes : List ℕ) (o : ℕ) → IsImage bytes o image.now → HasSegmentNamed bytes o name.now (option_map (λ s. segment_view s.now) result) }
{
    laws::named_segment_of_image(image);
    image.segment_named(name)
}

fn section_named(image: &MachO<'_>, segment: &str, section: &str) -> Option<NumberedSection>
    ensures { (bytes : List ℕ) (o : ℕ) → IsImage bytes o image.now → HasSectionNamed bytes o segment.now section.now result }
{
    laws::named_section_of_image(image);
    image.section_named(segment, section)
}

fn symbol_named(image: &MachO<'_>, name: &str) -> Option<(usize, Nlist)>
    ensures { (bytes : List ℕ) (o : ℕ) → IsImage bytes o image.now → HasSymbolNamed bytes o name.now result }
{
    laws::named_symbol_of_image(image);
    image.symbol_named(name)
}

fn symbols_named<'a, 'b>(image: &MachO<'a>, name: &'b str) -> NamedSymbols<'a, 'b>
    ensures { (bytes : List ℕ) (o : ℕ) → IsImage bytes o image.now → HasSymbolsNamed bytes o name.now (named_left result) }
{
    laws::named_symbols_of_image(image);
    image.symbols_named(name)
}

// Returns the first symbol with a name that is no debugging entry, or None exactly if there is none.
fn first_named(image: &MachO<'_>, name: &str) -> Option<(usize, Nlist)>
    ensures { IsFirstNamed (symbols_within (symbol_table_view image.now)) name.now result }
{
    laws::first_symbol_of_a_name();
    image.symbol_named(name)
}

fn function_at(image: &MachO<'_>, address: u64) -> Option<Function>
    ensures { (bytes : List ℕ) (o : ℕ) → IsImage bytes o image.now → HasFunctionAt bytes o address result }
{
    laws::function_at_of_image(image);
    image.function_at(address)
}

fn address_of(image: &MachO<'_>, offset: u64) -> Option<u64>
    ensures { (bytes : List ℕ) (o : ℕ) → IsImage bytes o image.now → HasAddressOf bytes o offset result }
{
    laws::address_of_image(image);
    image.address_of_offset(offset)
}

fn offset_of(image: &MachO<'_>, address: u64) -> Option<u64>
    ensures { (bytes : List ℕ) (o : ℕ) → IsImage bytes o image.now → HasOffsetOf bytes o address result }
{
    laws::offset_of_image(image);
    image.offset_of_address(address)
}

fn section_data<'a>(image: &MachO<'a>, section: &NumberedSection) -> Result<&'a [u8]>
    ensures { (bytes : List ℕ) (o : ℕ) → IsImage bytes o image.now
        → HasSectionData bytes o section.now.section (read_as (λ found. found.now) result) }
{
    laws::section_data_of_image(image);
    image.section_data(section)
}

fn strings_of<'a>(image: &MachO<'a>, section: &NumberedSection) -> Result<StringIterator<'a>>
    ensures { (bytes : List ℕ) (o : ℕ) → IsImage bytes o image.now → HasStringsOf bytes o section.now.section (read_as strings_left result) }
{
    laws::strings_of_image(image);
    image.strings_of(section)
}

fn initializers<'a, 'b>(image: &'b MachO<'a>) -> Result<InitializerIterator<'a, 'b>>
    ensures { (bytes : List ℕ) (o : ℕ) → IsImage bytes o image.now → HasInitializers bytes o (read_as initializers_left result) }
{
    laws::initializers_of_image(image);
    image.initializers()
}

// Returns what a map and its image find at an address, which is the same.
fn found_twice<'a>(
    map: &SymbolMap<'a, '_>,
    address: u64,
) -> (Option<SymbolAt<'a>>, Option<SymbolAt<'a>>)
    ensures { option_map found_symbol_view result.0 ≡ option_map found_symbol_view result.1 }
{
    laws::one_symbol_at_address();
    (map.symbol_at(address), map.image().symbol_at(address))
}

// Returns the address of an offset, and the offset of that address: the same offset, if one segment alone has the address.
fn offset_again(image: &MachO<'_>, offset: u64) -> Option<(u64, Option<u64>)>
    ensures { IfSome result (λ found. AtMostOne (maps_address found.0) (segments_view image.now) → found.1 ≡ Some offset) }
{
    laws::address_leads_back_to_offset();
    let address = image.address_of_offset(offset)?;
    Some((address, image.offset_of_address(address)))
}

// Returns the offset of an address, and the address of that offset: the same address, if one segment alone has the offset.
fn address_again(image: &MachO<'_>, address: u64) -> Option<(u64, Option<u64>)>
    ensures { IfSome result (λ found. AtMostOne (maps_offset found.0) (segments_view image.now) → found.1 ≡ Some address) }
{
    laws::offset_leads_back_to_address();
    let offset = image.offset_of_address(address)?;
    Some((offset, image.address_of_offset(offset)))
}

#[test]
fn looked_up(rt: HostRuntime) -> std::result::Result<(), Fail> {
    let image = MachO::parse(rt.alloc(), &FILE_B, 0)?;
    assert!(rt; segment_named(&image, "__TEXT").is_some());
    assert!(rt; segment_named(&image, "__text").is_none());
    assert!(rt; section_named(&image, "__TEXT", "__text").is_some());
    assert!(rt; matches!(symbol_named(&image, "_main"), Some((0, _))));
    assert!(rt; matches!(first_named(&image, "_main"), Some((0, _))));
    assert!(rt; matches!(symbols_named(&image, "_main").next(), Some((0, _))));
    same(&rt, address_of(&image, 0x138), Some(0x100000138));
    same(&rt, offset_of(&image, 0x100000138), Some(0x138));
    assert!(rt;
        matches!(
            offset_again(&image, 0x138),
            Some((0x100000138, Some(0x138)))
        )
    );
    assert!(rt;
        matches!(
            address_again(&image, 0x100000138),
            Some((0x138, Some(0x100000138)))
        )
    );
    assert!(rt; function_at(&image, 0x100000138).is_none());
    let map = SymbolMap::new(rt.alloc(), &image)?;
    let (found, other) = found_twice(&map, 0x100000138);
    assert!(rt; found.is_none() && other.is_none());
    Ok(())
}

#[test]
fn contents(rt: HostRuntime) -> std::result::Result<(), Fail> {
    let image = MachO::parse(rt.alloc(), &FILE_B, 0)?;
    let Some(section) = section_named(&image, "__TEXT", "__text") else {
        return Err(Fail::from("section"));
    };
    let held = &FILE_B[0x138..0x140];
    assert!(rt; section_data(&image, &section)? == held);
    let mut strings = strings_of(&image, &section)?;
    assert!(rt; matches!(strings.next(), Some(s) if s.place == 0 && s.bytes == &held[..4]));
    assert!(rt; matches!(strings.next(), Some(s) if s.place == 5 && s.bytes == &held[5..]));
    assert!(rt; strings.next().is_none());
    assert!(rt; initializers(&image)?.next().is_none());
    Ok(())
}

#[test]
fn said(rt: HostRuntime) -> std::result::Result<(), Fail> {
    let image = MachO::parse(rt.alloc(), &FILE_B, 0)?;
    assert!(rt; uuid(&image).is_none());
    assert!(rt; build_versions(&image).next().is_none());
    same(&rt, source_version(&image), None);
    assert!(rt; encryption(&image).is_none());
    assert!(rt; dylinker(&image).is_none());
    Ok(())
}
