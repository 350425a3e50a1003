//! The words of a rule and of a part.

ghost use Rattle.std.specs.Prelude.{◌≡◌, Some};
ghost use Rattle.mach_layout.specs.Words as defined;

use crate::fault::{Part, Rule};
use std::fmt;
use std::fmt::{Display, Formatter, Write};

impl Rule {
    /// Returns the words for it.
    pub fn words(self) -> &'static str
        ensures { result.now ≡ defined.rule_words self }
    {
        match self {
            Rule::FileKind => "file kind",
            Rule::CommandsOutOfFile => "commands out of file",
            Rule::CommandSize => "command size",
            Rule::CommandUnaligned => "command unaligned",
            Rule::CommandOutOfCommands => "command out of commands",
            Rule::CommandCount => "command count",
            Rule::SegmentWidth => "segment width",
            Rule::CommandsEndEarly => "commands end early",
            Rule::CommandAgain => "command again",
            Rule::DynamicSymbolsAlone => "dynamic symbols alone",
            Rule::OutOfFile => "out of file",
            Rule::SegmentBeyondAddresses => "segment beyond addresses",
            Rule::SegmentFileLarger => "segment file larger",
            Rule::SegmentAddressUnaligned => "segment address unaligned",
            Rule::SegmentPlaceUnaligned => "segment place unaligned",
            Rule::SegmentNameAgain => "segment name again",
            Rule::SegmentRights => "segment rights",
            Rule::SegmentsShareMemory => "segments share memory",
            Rule::SegmentsShareFile => "segments share file",
            Rule::NoSegmentOfHeader => "no segment of header",
            Rule::SectionOutOfMemory => "section out of memory",
            Rule::SectionOutOfBytes => "section out of bytes",
            Rule::SectionElsewhere => "section elsewhere",
            Rule::SectionAlignment => "section alignment",
            Rule::SectionUnaligned => "section unaligned",
            Rule::SectionOfOther => "section of other",
            Rule::SectionsShareMemory => "sections share memory",
            Rule::ClaimsShare => "claims share",
            Rule::HeaderShared => "header shared",
            Rule::OutOfLinkedit => "out of linkedit",
            Rule::EncryptedNotExecutable => "encrypted not executable",
            Rule::SymbolSection => "symbol section",
            Rule::SymbolName => "symbol name",
            Rule::SymbolRange => "symbol range",
            Rule::SymbolRangeKind => "symbol range kind",
            Rule::SymbolLibrary => "symbol library",
            Rule::IndirectSymbol => "indirect symbol",
            Rule::IndirectSection => "indirect section",
            Rule::SymbolRangeOrder => "symbol range order",
            Rule::EntryOutOfCode => "entry out of code",
            Rule::NoEntry => "no entry",
            Rule::TextMisplaced => "text misplaced",
            Rule::TextEmpty => "text empty",
            Rule::IdMissing => "id missing",
            Rule::IdUnexpected => "id unexpected",
            Rule::Binds => "binds",
            Rule::Rebases => "rebases",
            Rule::WeakBinds => "weak binds",
            Rule::FunctionStarts => "function starts",
            Rule::ChainedFixups => "chained fixups",
            Rule::ImportLibrary => "import library",
            Rule::ImportName => "import name",
            Rule::DataOutOfCode => "data out of code",
            Rule::DataShared => "data shared",
            Rule::RecordsOutOfFile => "records out of file",
            Rule::SliceOutOfFile => "slice out of file",
            Rule::SliceInRecords => "slice in records",
            Rule::SliceAlignment => "slice alignment",
            Rule::SliceUnaligned => "slice unaligned",
            Rule::SliceAgain => "slice again",
            Rule::SliceOfOtherCpu => "slice of other cpu",
            Rule::SlicesShare => "slices share",
        }
    }
}

impl Display for Rule {
    ghost output = { λ x. Some (defined.rule_words x) };

    fn fmt<W: Write>(&self, f: &mut Formatter<W>) -> fmt::Result {
        let words = self.words();
        write!(f, "{words}")
    }
}

impl Part {
    /// Returns the words for it.
    pub fn words(self) -> &'static str
        ensures { result.now ≡ defined.part_words self }
    {
        match self {
            Part::Header => "header",
            Part::Command => "command",
            Part::Text => "text",
            Part::Segment => "segment",
            Part::Section => "section",
            Part::Relocations => "relocations",
            Part::Symbols => "symbols",
            Part::SymbolRanges => "symbol ranges",
            Part::Strings => "strings",
            Part::TableOfContents => "table of contents",
            Part::Modules => "modules",
            Part::ExternalReferences => "external references",
            Part::IndirectSymbols => "indirect symbols",
            Part::ExternalRelocations => "external relocations",
            Part::LocalRelocations => "local relocations",
            Part::RebaseOpcodes => "rebase opcodes",
            Part::BindOpcodes => "bind opcodes",
            Part::WeakBindOpcodes => "weak bind opcodes",
            Part::LazyBindOpcodes => "lazy bind opcodes",
            Part::ExportTrie => "export trie",
            Part::Signature => "signature",
            Part::SplitInfo => "split info",
            Part::FunctionStarts => "function starts",
            Part::DataInCode => "data in code",
            Part::SignatureRequirements => "signature requirements",
            Part::LinkerHints => "linker hints",
            Part::ChainedFixups => "chained fixups",
            Part::Imports => "imports",
            Part::Encrypted => "encrypted",
            Part::Note => "note",
            Part::TwolevelHints => "twolevel hints",
            Part::GdbSymbols => "gdb symbols",
            Part::Binds => "binds",
            Part::Entry => "entry",
            Part::Slice => "slice",
            Part::AtomInfo => "atom info",
            Part::FunctionVariants => "function variants",
            Part::FunctionVariantFixups => "function variant fixups",
        }
    }
}

impl Display for Part {
    ghost output = { λ x. Some (defined.part_words x) };

    fn fmt<W: Write>(&self, f: &mut Formatter<W>) -> fmt::Result {
        let words = self.words();
        write!(f, "{words}")
    }
}
