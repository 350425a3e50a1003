//! A call of each public function of the libraries that no library, no program and no other test calls. What they answer is in
//! the vectors and in the tests of the Rust crate: here each is called once, so that its contract can be met.

use crate::tests::same::same;
use goblin_mach::bind_opcodes::opcode_to_str;
use goblin_mach::exports::{ExportTrie, SymbolKind};
use goblin_mach::fat::{FatArch, FatHeader};
use goblin_mach::header::{Header, Header32, Header64};
use goblin_mach::imports::BindInterpreter;
use goblin_mach::load_command::{
    DyldInfoCommand, Platform, SegmentCommand32, SegmentCommand64, VersionMinCommand,
};
use goblin_mach::relocation::{Relocation, RelocationInfo};
use goblin_mach::symbols::Symbols;
use goblin_mach::{CommandIterator, Ctx, FatArch64, LE, MachO, Record, Sleb128, Uleb128};
use mach_samples::files::{EXPORTS, FILE_B, FILE_D};
use mach_signature::CodeSignature;
use std::test::Fail;

#[test]
fn numbers(rt: HostRuntime) -> Result<(), Fail> {
    same(&rt, Uleb128::read(&[5], &mut 0)?, 5);
    same(&rt, Uleb128::parse(&[5], 0)?.size(), 1);
    same(&rt, Sleb128::read(&[5], &mut 0)?, 5);
    same(&rt, Sleb128::parse(&[5], 0)?.size(), 1);
    Ok(())
}

#[test]
fn headers(rt: HostRuntime) {
    let header = Header::new(Ctx::default());
    same(&rt, header.cputype(), 0);
    same(&rt, (header.cpusubtype(), header.cpu_caps()), (0, 0));
    same(&rt, Header32::from_bytes(&[0; 28]).size(), 28);
    same(&rt, Header64::from_bytes(&[0; 32]).size(), 32);
}

#[test]
fn fat_records(rt: HostRuntime) {
    same(&rt, FatHeader::from_bytes([0; 8]).nfat_arch, 0);
    let arch = FatArch::default();
    same(&rt, (arch.cputype(), arch.cpusubtype()), (0, 0));
    same(&rt, (arch.cpu_caps(), arch.is_64()), (0, false));
    let wide = FatArch64::default();
    same(&rt, (wide.cputype(), wide.cpusubtype()), (0, 0));
    same(&rt, (wide.cpu_caps(), wide.is_64()), (0, false));
}

#[test]
fn commands(rt: HostRuntime) -> Result<(), Fail> {
    assert!(rt; CommandIterator::at(&FILE_B, 32, 5, LE).next().is_some());
    same(
        &rt,
        SegmentCommand64::read(&FILE_B, 32, LE)?.name()?,
        "__TEXT",
    );
    same(
        &rt,
        SegmentCommand32::read(&FILE_B, 32, LE)?.name()?,
        "__TEXT",
    );
    let version = VersionMinCommand::new(Platform::Macos);
    assert!(rt; matches!(version.platform(), Platform::Macos));
    Ok(())
}

#[test]
fn relocations(rt: HostRuntime) {
    let bits = RelocationInfo {
        r_address: 4,
        r_info: 0x2d00_0001,
    };
    assert!(rt; bits.is_extern() && bits.is_pic());
    same(&rt, bits.to_str(0x0100_0007), "X86_64_RELOC_BRANCH");
    let decoded = bits.read_as(0x0100_0007, LE);
    assert!(rt; matches!(decoded, Relocation::Plain { symbol: 1, .. }));
}

#[test]
fn symbols(rt: HostRuntime) -> Result<(), Fail> {
    let symbols = Symbols::new(&FILE_B, 352, 1, 368)?;
    let (name, symbol) = symbols.get(0)?;
    same(&rt, (name, symbol.type_str()), ("_main", "N_SECT"));
    same(&rt, symbols.name_place(&symbol), 369);
    assert!(rt; symbol.is_global() && !symbol.is_weak() && !symbol.is_undefined());
    assert!(rt; symbols.ctx().is_big() && !symbols.is_empty());
    same(&rt, symbols.iter_from(1).count(), 0);
    Ok(())
}

#[test]
fn streams(rt: HostRuntime) -> Result<(), Fail> {
    let trie = ExportTrie::at(&EXPORTS, 0, EXPORTS.len());
    same(&rt, (trie.from(), trie.upto()), (0, 64));
    same(&rt, SymbolKind::new(0).to_str(), "Regular");
    same(&rt, opcode_to_str(0), "BIND_OPCODE_DONE");
    let command = DyldInfoCommand::read(&FILE_B, 216, LE)?;
    let binds = BindInterpreter::new(&FILE_B, &command);
    let again = BindInterpreter::at(&FILE_B, binds.places());
    same(&rt, again.cursor().library, 0);
    Ok(())
}

#[test]
fn chains(rt: HostRuntime) -> Result<(), Fail> {
    let image = MachO::parse(rt.alloc(), &FILE_D, 0)?;
    let Some(chained) = image.chained_fixups()? else {
        return Err(Fail::from("chained fixups"));
    };
    let segments = image.segments.as_slice();
    let binds = chained.binds(rt.alloc(), &image.libs, segments, image.base())?;
    same(&rt, binds.len(), 2);
    Ok(())
}

// A signature without blobs.
const SIGNATURE: [u8; 12] = [0xfa, 0xde, 0x0c, 0xc0, 0, 0, 0, 12, 0, 0, 0, 0];

#[test]
fn signatures(rt: HostRuntime) -> Result<(), Fail> {
    let signature = CodeSignature::parse(&SIGNATURE)?;
    assert!(rt; signature.requirement_bytes()?.is_none());
    assert!(rt; signature.der_entitlements()?.is_none());
    assert!(rt; signature.cms()?.is_none());
    Ok(())
}
