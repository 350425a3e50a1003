//! The number of bytes in the struct of a command.

ghost use Rattle.std.specs.Prelude.{◌≡◌};
ghost use Rattle.mach_base.specs.Record.{number_among};
ghost use Rattle.mach_load.specs.Newer.{newer_kind};
ghost use Rattle.mach_load.specs.Variants.{kind_in, variant_values};
ghost use Rattle.mach_layout.specs.Commands as defined;

use mach_base::Record;
use mach_load::CommandVariant;
use mach_records::{
    BuildVersionCommand, DyldInfoCommand, DylibCommand, DylinkerCommand, DysymtabCommand,
    EncryptionInfoCommand32, EncryptionInfoCommand64, EntryPointCommand, FilesetEntryCommand,
    FvmfileCommand, FvmlibCommand, LC_ATOM_INFO, LC_FUNCTION_VARIANT_FIXUPS, LC_FUNCTION_VARIANTS,
    LC_TARGET_TRIPLE, LinkeditDataCommand, LinkerOptionCommand, LoadCommandHeader, NoteCommand,
    PrebindCksumCommand, PreboundDylibCommand, RoutinesCommand32, RoutinesCommand64, RpathCommand,
    SegmentCommand32, SegmentCommand64, SourceVersionCommand, SubClientCommand,
    SubFrameworkCommand, SubLibraryCommand, SubUmbrellaCommand, SymsegCommand, SymtabCommand,
    TargetTripleCommand, TwolevelHintsCommand, UuidCommand, VersionMinCommand,
};

/// The number of bytes in the struct of a command.
#[derive(Clone, Copy, Debug, PartialEq)]
pub enum StructSize {
    /// Nothing follows it.
    Exactly(usize),
    /// Texts, sections or other items may follow it.
    AtLeast(usize),
}

// Returns the same as `struct_size` for a number that goblin's table lacks.
fn newer_size(cmd: u32) -> StructSize
    ensures { result ≡ defined.newer_size (newer_kind cmd) }
{
    match cmd {
        LC_ATOM_INFO | LC_FUNCTION_VARIANTS | LC_FUNCTION_VARIANT_FIXUPS => {
            StructSize::Exactly(LinkeditDataCommand::SIZE)
        }
        LC_TARGET_TRIPLE => StructSize::AtLeast(TargetTripleCommand::SIZE),
        _ => StructSize::AtLeast(LoadCommandHeader::SIZE),
    }
}

/// Returns the number of bytes in the struct of a command, and whether other items may follow it.
pub fn struct_size(command: &CommandVariant) -> StructSize
    ensures { result ≡ defined.struct_size (kind_in command.now) (number_among (variant_values command.now) 0) }
{
    match command {
        CommandVariant::Segment32(_) => StructSize::AtLeast(SegmentCommand32::SIZE),
        CommandVariant::Segment64(_) => StructSize::AtLeast(SegmentCommand64::SIZE),
        CommandVariant::Symtab(_) => StructSize::Exactly(SymtabCommand::SIZE),
        CommandVariant::Dysymtab(_) => StructSize::Exactly(DysymtabCommand::SIZE),
        CommandVariant::Symseg(_) => StructSize::Exactly(SymsegCommand::SIZE),
        CommandVariant::LoadFvmlib(_) | CommandVariant::IdFvmlib(_) => {
            StructSize::AtLeast(FvmlibCommand::SIZE)
        }
        CommandVariant::Fvmfile(_) => StructSize::AtLeast(FvmfileCommand::SIZE),
        CommandVariant::LoadDylib(_)
        | CommandVariant::IdDylib(_)
        | CommandVariant::LazyLoadDylib(_)
        | CommandVariant::LoadWeakDylib(_)
        | CommandVariant::ReexportDylib(_)
        | CommandVariant::LoadUpwardDylib(_) => StructSize::AtLeast(DylibCommand::SIZE),
        CommandVariant::LoadDylinker(_)
        | CommandVariant::IdDylinker(_)
        | CommandVariant::DyldEnvironment(_) => StructSize::AtLeast(DylinkerCommand::SIZE),
        CommandVariant::PreboundDylib(_) => StructSize::AtLeast(PreboundDylibCommand::SIZE),
        CommandVariant::Routines32(_) => StructSize::Exactly(RoutinesCommand32::SIZE),
        CommandVariant::Routines64(_) => StructSize::Exactly(RoutinesCommand64::SIZE),
        CommandVariant::SubFramework(_) => StructSize::AtLeast(SubFrameworkCommand::SIZE),
        CommandVariant::SubUmbrella(_) => StructSize::AtLeast(SubUmbrellaCommand::SIZE),
        CommandVariant::SubClient(_) => StructSize::AtLeast(SubClientCommand::SIZE),
        CommandVariant::SubLibrary(_) => StructSize::AtLeast(SubLibraryCommand::SIZE),
        CommandVariant::TwolevelHints(_) => StructSize::Exactly(TwolevelHintsCommand::SIZE),
        CommandVariant::PrebindCksum(_) => StructSize::Exactly(PrebindCksumCommand::SIZE),
        CommandVariant::Uuid(_) => StructSize::Exactly(UuidCommand::SIZE),
        CommandVariant::CodeSignature(_)
        | CommandVariant::SegmentSplitInfo(_)
        | CommandVariant::FunctionStarts(_)
        | CommandVariant::DataInCode(_)
        | CommandVariant::DylibCodeSignDrs(_)
        | CommandVariant::LinkerOptimizationHint(_)
        | CommandVariant::DyldExportsTrie(_)
        | CommandVariant::DyldChainedFixups(_) => StructSize::Exactly(LinkeditDataCommand::SIZE),
        CommandVariant::LinkerOption(_) => StructSize::AtLeast(LinkerOptionCommand::SIZE),
        CommandVariant::EncryptionInfo32(_) => StructSize::Exactly(EncryptionInfoCommand32::SIZE),
        CommandVariant::EncryptionInfo64(_) => StructSize::Exactly(EncryptionInfoCommand64::SIZE),
        CommandVariant::DyldInfo(_) | CommandVariant::DyldInfoOnly(_) => {
            StructSize::Exactly(DyldInfoCommand::SIZE)
        }
        CommandVariant::VersionMinMacosx(_)
        | CommandVariant::VersionMinIphoneos(_)
        | CommandVariant::VersionMinTvos(_)
        | CommandVariant::VersionMinWatchos(_) => StructSize::Exactly(VersionMinCommand::SIZE),
        CommandVariant::SourceVersion(_) => StructSize::Exactly(SourceVersionCommand::SIZE),
        CommandVariant::Note(_) => StructSize::Exactly(NoteCommand::SIZE),
        CommandVariant::BuildVersion(_) => StructSize::AtLeast(BuildVersionCommand::SIZE),
        CommandVariant::Rpath(_) => StructSize::AtLeast(RpathCommand::SIZE),
        CommandVariant::Main(_) => StructSize::Exactly(EntryPointCommand::SIZE),
        CommandVariant::FilesetEntry(_) => StructSize::AtLeast(FilesetEntryCommand::SIZE),
        CommandVariant::Thread(_)
        | CommandVariant::Unixthread(_)
        | CommandVariant::Ident(_)
        | CommandVariant::Prepage(_) => StructSize::AtLeast(LoadCommandHeader::SIZE),
        CommandVariant::Unimplemented(c) => newer_size(c.cmd),
    }
}
