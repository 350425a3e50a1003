//! A section that is written and read again, and how many symbols there are, by the laws that say so.

use crate::tests::same::same;
use mach_base::{BE, Container, Ctx};
use mach_parts::laws::{section_written_and_read, symbols_counted};
use mach_parts::segment::Section;
use mach_parts::symbols::Symbols;
use mach_samples::files::FILE_B;
use std::test::Fail;

// Returns a section whose address has 33 bits.
fn high_section() -> Section {
    let mut section = Section::default();
    section.addr = 0x1_0000_0001;
    section
}

#[test]
fn section_written(rt: HostRuntime) -> Result<(), Fail> {
    let wide = Ctx::new(Container::Big, BE);
    let mut bytes = [7; 81];
    let again = section_written_and_read(high_section(), &mut bytes, wide)?;
    same(&rt, again.addr, 0x1_0000_0001);
    same(&rt, &bytes[32..40], [0, 0, 0, 1, 0, 0, 0, 1].as_slice());
    same(&rt, bytes[80], 7);
    let mut short = [7; 79];
    assert!(rt; section_written_and_read(high_section(), &mut short, wide).is_err());
    same(&rt, short, [7; 79]);
    Ok(())
}

#[test]
fn how_many_symbols(rt: HostRuntime) -> Result<(), Fail> {
    let symbols = Symbols::new(&FILE_B, 352, 3, 368)?;
    same(&rt, symbols.iter().count(), 3);
    same(&rt, symbols_counted(&symbols), 3);
    Ok(())
}
