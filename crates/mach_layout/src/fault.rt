//! A fault of layout: its rule, its owner, and two numbers as evidence.

/// What is wrong. Each rule says what `found` and `limit` of its faults are. An end that doesn't fit into 64 bits is given
/// as the last number that does.
#[derive(Clone, Copy, Debug, PartialEq)]
pub enum Rule {
    // ---- the kind of file
    /// No rules are defined for the file type. `found`: the file type; `limit`: 0.
    FileKind,

    // ---- commands
    /// The commands end past the end of the file. `found`: where they end by the header; `limit`: the bytes of the file.
    CommandsOutOfFile,
    /// A command doesn't have the size of its record. `found`: its cmdsize; `limit`: the bytes of the record.
    CommandSize,
    /// A command's size isn't a multiple of its unit. `found`: its cmdsize; `limit`: the unit.
    CommandUnaligned,
    /// A command ends past the end of the commands. `found`: where it ends; `limit`: where they end by the header.
    CommandOutOfCommands,
    /// A command doesn't have the size of the items that it counts. `found`: its cmdsize; `limit`: the size with its items.
    CommandCount,
    /// A segment's command is one of the other width. `found`: the command's number; `limit`: that of the image's width.
    SegmentWidth,
    /// The last command ends before the commands do. `found`: where it ends; `limit`: where they end by the header.
    CommandsEndEarly,
    /// A second command of a kind that may occur only once. `found`: the command's number; `limit`: 1. `other`: the first.
    CommandAgain,
    /// There are indirect symbols but no symbols. `found`: the command's number; `limit`: that of the missing one.
    DynamicSymbolsAlone,

    // ---- ranges of the file
    /// A claimed range ends past the end of the file. `found`: where it ends; `limit`: the bytes of the file.
    OutOfFile,

    // ---- segments
    /// A segment ends past the last address. `found`: where it ends; `limit`: the last end that the width allows.
    SegmentBeyondAddresses,
    /// A segment has more bytes in the file than in memory. `found`: filesize; `limit`: vmsize.
    SegmentFileLarger,
    /// A segment's address isn't a multiple of a page. `found`: the address; `limit`: the page.
    SegmentAddressUnaligned,
    /// A segment's place in the file isn't a multiple of a page. `found`: the place; `limit`: the page.
    SegmentPlaceUnaligned,
    /// A segment has the name of an earlier one. `found`: 0; `limit`: 0. `other`: the earlier one.
    SegmentNameAgain,
    /// The initial protection allows more than the maximum. `found`: initprot; `limit`: maxprot.
    SegmentRights,
    /// Two segments share an address. `found`: where this one begins; `limit`: where the other one ends.
    SegmentsShareMemory,
    /// Two segments share a byte of the file. `found`: where this one begins; `limit`: where the other one ends.
    SegmentsShareFile,
    /// No segment holds the header and the commands. `found`: 0; `limit`: where they end.
    NoSegmentOfHeader,

    // ---- sections
    /// A section's addresses aren't in its segment. `found`: where it ends; `limit`: where its segment ends.
    SectionOutOfMemory,
    /// A section's bytes aren't in its segment. `found`: where they end; `limit`: where those of its segment end.
    SectionOutOfBytes,
    /// A section's place in the file doesn't match its address. `found`: the distance of its bytes from those of its
    /// segment; `limit`: the distance of its address from that of its segment.
    SectionElsewhere,
    /// A section's alignment is greater than linkers allow. `found`: the power of 2; `limit`: 15.
    SectionAlignment,
    /// A section doesn't have the alignment that it states. `found`: its address; `limit`: the alignment in bytes.
    SectionUnaligned,
    /// A section names another segment as its own. `found`: 0; `limit`: 0.
    SectionOfOther,
    /// Two sections share an address. `found`: where this one begins; `limit`: where the other one ends.
    SectionsShareMemory,

    // ---- shared bytes of the file, and `__LINKEDIT`
    /// Two claims share a byte of the file. `found`: where this one begins; `limit`: where the other one ends.
    ClaimsShare,
    /// A segment or an encrypted range begins within the header and the commands although it may not. `found`: where it
    /// begins; `limit`: where they end.
    HeaderShared,
    /// A table isn't in `__LINKEDIT`. `found`: where it ends; `limit`: where `__LINKEDIT` ends, or 0 if there is none.
    OutOfLinkedit,
    /// An encrypted range isn't in an executable segment. `found`: where it ends; `limit`: 0.
    EncryptedNotExecutable,

    // ---- symbols
    /// A symbol's section doesn't exist in the image. `found`: n_sect; `limit`: the number of sections.
    SymbolSection,
    /// A symbol's name isn't among the strings. `found`: where it begins there; `limit`: the bytes of the strings.
    SymbolName,
    /// A range of symbols ends past the end of the table. `found`: where it ends; `limit`: the number of symbols.
    SymbolRange,
    /// A symbol of a range isn't of its kind; only the first of each range is reported. `found`: n_type; `limit`: 0.
    SymbolRangeKind,
    /// A symbol's library doesn't exist in the image. `found`: the ordinal; `limit`: the number of libraries.
    SymbolLibrary,
    /// An indirect symbol isn't in the table. `found`: its number; `limit`: the number of symbols.
    IndirectSymbol,
    /// A section's indirect symbols aren't in their table. `found`: where they end; `limit`: the number of indirect symbols.
    /// Or the section isn't a whole number of entries. `found`: its bytes; `limit`: those of an entry.
    IndirectSection,
    /// The ranges of symbols don't follow each other to the end of the table, which counts as the last of them. `found`:
    /// where this one begins; `limit`: where it should begin.
    SymbolRangeOrder,

    // ---- the entry
    /// The entry isn't in an executable segment, after the commands. `found`: the entry; `limit`: where the commands end.
    EntryOutOfCode,
    /// An executable has no entry. `found`: 0; `limit`: 0.
    NoEntry,

    // ---- texts of commands
    /// A text of a command isn't in it. `found`: where it begins there; `limit`: the command's size.
    TextMisplaced,
    /// A text of a command is empty. `found`: where it begins there; `limit`: the command's size.
    TextEmpty,
    /// A library has no command with its own name. `found`: the file type; `limit`: 0.
    IdMissing,
    /// A file that isn't a library has a command with a name of its own. `found`: the file type; `limit`: 0.
    IdUnexpected,

    // ---- the lists that an image returns one item at a time
    /// What dyld binds by opcodes can't be read to its end. `found`: 0; `limit`: 0.
    Binds,
    /// What dyld rebases by opcodes can't be read to its end. `found`: 0; `limit`: 0.
    Rebases,
    /// What dyld binds weakly can't be read to its end. `found`: 0; `limit`: 0.
    WeakBinds,
    /// The function starts can't be read to their end. `found`: 0; `limit`: 0.
    FunctionStarts,

    // ---- chained fixups
    /// The data of chained fixups can't be read. `found`: the field's value; `limit`: its bound.
    ChainedFixups,
    /// The library of an import doesn't exist in the image. `found`: the ordinal; `limit`: the number of libraries.
    ImportLibrary,
    /// The name of an import isn't in the data. `found`: where it begins; `limit`: where the data end.
    ImportName,

    // ---- data in code
    /// An entry of data in code isn't in the executable range. `found`: where it begins; `limit`: where the last executable
    /// segment ends, or 0 if there is none.
    DataOutOfCode,
    /// An entry of data in code shares bytes with the entry before it. `found`: where it begins, counted from the image's
    /// first byte in memory; `limit`: where that entry ends. `other`: that entry.
    DataShared,

    // ---- a fat file
    /// The records of a fat file end past its end. `found`: where they end; `limit`: the bytes of the file.
    RecordsOutOfFile,
    /// A slice has no bytes, or ends past the end of the file. `found`: where it ends; `limit`: the bytes of the file.
    SliceOutOfFile,
    /// A slice begins within the header and the records. `found`: where it begins; `limit`: where the records end.
    SliceInRecords,
    /// A slice's alignment is greater than linkers allow. `found`: the power of 2; `limit`: 15.
    SliceAlignment,
    /// A slice doesn't have the alignment that it states. `found`: where it begins; `limit`: the alignment in bytes.
    SliceUnaligned,
    /// A second slice of a cpu and subtype. `found`: the cputype times 2^24, plus the subtype (the low 24 bits of
    /// cpusubtype); `limit`: one more. `other`: the first.
    SliceAgain,
    /// The record of a slice has another cpu than its image. `found`: the cputype of the record; `limit`: that of the image.
    SliceOfOtherCpu,
    /// Two slices share a byte. `found`: where this one begins; `limit`: where the other one ends.
    SlicesShare,
}

/// A part of an image or of a fat file.
#[derive(Clone, Copy, Debug, PartialEq)]
pub enum Part {
    /// The header with the commands.
    Header,
    /// A load command.
    Command,
    /// The text of a load command.
    Text,
    /// A segment.
    Segment,
    /// A section, or its bytes.
    Section,
    /// The relocations of a section.
    Relocations,
    /// The symbols.
    Symbols,
    /// A range of the symbols: local, defined external or undefined ones.
    SymbolRanges,
    /// The names of the symbols.
    Strings,
    /// The table of contents of a dynamic library.
    TableOfContents,
    /// The module table of a dynamic library.
    Modules,
    /// The external references of a dynamic library.
    ExternalReferences,
    /// The indirect symbols.
    IndirectSymbols,
    /// The external relocations.
    ExternalRelocations,
    /// The local relocations.
    LocalRelocations,
    /// The rebase opcodes.
    RebaseOpcodes,
    /// The bind opcodes.
    BindOpcodes,
    /// The weak bind opcodes.
    WeakBindOpcodes,
    /// The lazy bind opcodes.
    LazyBindOpcodes,
    /// The export trie.
    ExportTrie,
    /// The code signature.
    Signature,
    /// The information for splitting segments.
    SplitInfo,
    /// The function starts.
    FunctionStarts,
    /// The data-in-code table.
    DataInCode,
    /// The requirements on the signatures of libraries.
    SignatureRequirements,
    /// The hints for the linker.
    LinkerHints,
    /// The chained fixups.
    ChainedFixups,
    /// The imports of chained fixups.
    Imports,
    /// A range that is encrypted.
    Encrypted,
    /// A note.
    Note,
    /// The two-level namespace hints.
    TwolevelHints,
    /// The symbols in gdb's format (`LC_SYMSEG`).
    GdbSymbols,
    /// What dyld binds by opcodes.
    Binds,
    /// The entry.
    Entry,
    /// A slice of a fat file.
    Slice,
    /// What the linker knows of each atom (`LC_ATOM_INFO`).
    AtomInfo,
    /// The variants of functions (`LC_FUNCTION_VARIANTS`).
    FunctionVariants,
    /// The pointers to such functions (`LC_FUNCTION_VARIANT_FIXUPS`).
    FunctionVariantFixups,
}

/// The owner of a range or a fault.
#[derive(Clone, Copy, Debug, PartialEq)]
pub struct Owner {
    /// Which part of the file or of an image it is.
    pub part: Part,
    /// The place of its command in the bytes; 0 for the header. For a slice, the place of its record.
    pub command: u64,
    /// The number of a section in its segment, from 1; of a symbol, an entry or a record, from 0; otherwise 0.
    pub index: u64,
}

/// A fault of layout.
#[derive(Clone, Copy, Debug, PartialEq)]
pub struct LayoutFault {
    /// The rule.
    pub rule: Rule,
    /// What breaks the rule.
    pub owner: Owner,
    /// The other owner, if two conflict.
    pub other: Option<Owner>,
    /// The number that was found, as the rule states.
    pub found: u64,
    /// The number that it violates, as the rule states.
    pub limit: u64,
}
