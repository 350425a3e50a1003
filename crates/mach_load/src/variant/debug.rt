//! How `Debug` prints a load command.

use crate::variant::CommandVariant;
use std::fmt;

// Prints a variant: its name, and its record in brackets.
fn shown<T: fmt::Debug, W: fmt::Write>(
    f: &mut fmt::Formatter<W>,
    name: &str,
    record: &T,
) -> fmt::Result {
    f.debug_tuple(name).field(record).finish()
}

impl CommandVariant {
    // Prints the variant.
    fn show<W: fmt::Write>(&self, f: &mut fmt::Formatter<W>) -> fmt::Result {
        match self {
            CommandVariant::Segment32(c) => shown(f, "Segment32", c),
            CommandVariant::Symtab(c) => shown(f, "Symtab", c),
            CommandVariant::Symseg(c) => shown(f, "Symseg", c),
            CommandVariant::Thread(c) => shown(f, "Thread", c),
            CommandVariant::Unixthread(c) => shown(f, "Unixthread", c),
            CommandVariant::LoadFvmlib(c) => shown(f, "LoadFvmlib", c),
            CommandVariant::IdFvmlib(c) => shown(f, "IdFvmlib", c),
            CommandVariant::Ident(c) => shown(f, "Ident", c),
            CommandVariant::Fvmfile(c) => shown(f, "Fvmfile", c),
            CommandVariant::Prepage(c) => shown(f, "Prepage", c),
            CommandVariant::Dysymtab(c) => shown(f, "Dysymtab", c),
            CommandVariant::LoadDylib(c) => shown(f, "LoadDylib", c),
            CommandVariant::IdDylib(c) => shown(f, "IdDylib", c),
            CommandVariant::LoadDylinker(c) => shown(f, "LoadDylinker", c),
            CommandVariant::IdDylinker(c) => shown(f, "IdDylinker", c),
            CommandVariant::PreboundDylib(c) => shown(f, "PreboundDylib", c),
            CommandVariant::Routines32(c) => shown(f, "Routines32", c),
            CommandVariant::SubFramework(c) => shown(f, "SubFramework", c),
            CommandVariant::SubUmbrella(c) => shown(f, "SubUmbrella", c),
            CommandVariant::SubClient(c) => shown(f, "SubClient", c),
            CommandVariant::SubLibrary(c) => shown(f, "SubLibrary", c),
            CommandVariant::TwolevelHints(c) => shown(f, "TwolevelHints", c),
            CommandVariant::PrebindCksum(c) => shown(f, "PrebindCksum", c),
            CommandVariant::Segment64(c) => shown(f, "Segment64", c),
            CommandVariant::Routines64(c) => shown(f, "Routines64", c),
            CommandVariant::Uuid(c) => shown(f, "Uuid", c),
            CommandVariant::CodeSignature(c) => shown(f, "CodeSignature", c),
            CommandVariant::SegmentSplitInfo(c) => shown(f, "SegmentSplitInfo", c),
            CommandVariant::LazyLoadDylib(c) => shown(f, "LazyLoadDylib", c),
            CommandVariant::EncryptionInfo32(c) => shown(f, "EncryptionInfo32", c),
            CommandVariant::DyldInfo(c) => shown(f, "DyldInfo", c),
            CommandVariant::VersionMinMacosx(c) => shown(f, "VersionMinMacosx", c),
            CommandVariant::VersionMinIphoneos(c) => shown(f, "VersionMinIphoneos", c),
            CommandVariant::FunctionStarts(c) => shown(f, "FunctionStarts", c),
            CommandVariant::DyldEnvironment(c) => shown(f, "DyldEnvironment", c),
            CommandVariant::DataInCode(c) => shown(f, "DataInCode", c),
            CommandVariant::SourceVersion(c) => shown(f, "SourceVersion", c),
            CommandVariant::DylibCodeSignDrs(c) => shown(f, "DylibCodeSignDrs", c),
            CommandVariant::EncryptionInfo64(c) => shown(f, "EncryptionInfo64", c),
            CommandVariant::LinkerOption(c) => shown(f, "LinkerOption", c),
            CommandVariant::LinkerOptimizationHint(c) => shown(f, "LinkerOptimizationHint", c),
            CommandVariant::VersionMinTvos(c) => shown(f, "VersionMinTvos", c),
            CommandVariant::VersionMinWatchos(c) => shown(f, "VersionMinWatchos", c),
            CommandVariant::Note(c) => shown(f, "Note", c),
            CommandVariant::BuildVersion(c) => shown(f, "BuildVersion", c),
            CommandVariant::LoadWeakDylib(c) => shown(f, "LoadWeakDylib", c),
            CommandVariant::Rpath(c) => shown(f, "Rpath", c),
            CommandVariant::ReexportDylib(c) => shown(f, "ReexportDylib", c),
            CommandVariant::DyldInfoOnly(c) => shown(f, "DyldInfoOnly", c),
            CommandVariant::LoadUpwardDylib(c) => shown(f, "LoadUpwardDylib", c),
            CommandVariant::Main(c) => shown(f, "Main", c),
            CommandVariant::DyldExportsTrie(c) => shown(f, "DyldExportsTrie", c),
            CommandVariant::DyldChainedFixups(c) => shown(f, "DyldChainedFixups", c),
            CommandVariant::FilesetEntry(c) => shown(f, "FilesetEntry", c),
            CommandVariant::Unimplemented(c) => shown(f, "Unimplemented", c),
        }
    }
}

impl fmt::Debug for CommandVariant {
    fn fmt<W: fmt::Write>(&self, f: &mut fmt::Formatter<W>) -> fmt::Result {
        self.show(f)
    }
}
