//! The words that select a list.

ghost use Rattle.std.specs.Prelude.{◌≡◌};
ghost use Rattle.machinfo.specs.Lists.{past_name};
ghost use Rattle.machinfo.specs.Headings.{heading_of};
ghost use Rattle.machinfo.specs.Words.{choice_named, explained_choice, explained_word, spelling_of, word_named};

use crate::section_bytes::SectionName;

/// What a call shows of an image in place of its summary.
#[derive(Clone, Copy, PartialEq)]
pub enum Choice {
    /// A list that takes no memory.
    Word(Word),
    /// Its exports.
    Exports,
    /// What dyld binds in it.
    Imports,
    /// The functions that dyld calls before its main function.
    Inits,
    /// What it has at this address.
    At(u64),
}

/// A list of an image that takes no memory.
#[derive(Clone, Copy, PartialEq)]
pub enum Word {
    /// Its load commands, each with what it holds.
    Commands,
    /// Its load commands alone, which are counted.
    CommandsAlone,
    /// The addresses of its functions.
    Starts,
    /// Its stubs and pointers that stand for symbols.
    Slots,
    /// Its indirect symbols.
    Indirect,
    /// Its data in code.
    Data,
    /// Its linker options.
    Options,
    /// The tools that it was built with.
    Tools,
    /// Its notes.
    Notes,
    /// The providers of its undefined symbols.
    Providers,
    /// Its libraries.
    Libraries,
    /// Its name as a library.
    Id,
    /// Its rebases.
    Rebases,
    /// Its weak binds.
    Weak,
    /// Its segments.
    Segments,
    /// The sections of all segments.
    Sections,
    /// Its UUIDs.
    Uuid,
    /// Its run paths.
    Rpaths,
    /// Where it begins to run.
    Entry,
    /// Its header.
    Header,
    /// How it is hardened.
    Security,
    /// The same, and what turns each on.
    SecurityExplained,
    /// The relocations of its sections.
    Relocations,
    /// The strings of its sections.
    Strings,
    /// The bytes of its first section with these names.
    Bytes(SectionName),
}

impl Choice {
    /// Returns what this spelling selects, if anything.
    #[tactic(auto, unfolding(crate::specs::Words::choice_named))]
    pub fn named(text: &str) -> Option<Choice>
        ensures { result ≡ choice_named text.now }
    {
        match text {
            "exports" => Some(Choice::Exports),
            "imports" => Some(Choice::Imports),
            "inits" => Some(Choice::Inits),
            _ => Some(Choice::Word(Word::named(text)?)),
        }
    }

    /// Returns the choice of the list that explains the items of this one, if that is asked for and there is one, and else itself.
    pub fn explained(self, is_explained: bool) -> Choice
        ensures { result ≡ explained_choice is_explained self }
    {
        match self {
            Choice::Word(word) if is_explained => Choice::Word(word.explained()),
            choice => choice,
        }
    }
}

impl Word {
    /// Returns the word with this spelling, if there is one.
    pub fn named(text: &str) -> Option<Word>
        ensures { result ≡ word_named text.now }
    {
        match text {
            "commands" => Some(Word::Commands),
            "starts" => Some(Word::Starts),
            "slots" => Some(Word::Slots),
            "indirect" => Some(Word::Indirect),
            "data" => Some(Word::Data),
            "options" => Some(Word::Options),
            "tools" => Some(Word::Tools),
            "notes" => Some(Word::Notes),
            "providers" => Some(Word::Providers),
            "libraries" => Some(Word::Libraries),
            "id" => Some(Word::Id),
            "rebases" => Some(Word::Rebases),
            "weak" => Some(Word::Weak),
            "segments" => Some(Word::Segments),
            "sections" => Some(Word::Sections),
            "uuid" => Some(Word::Uuid),
            "rpaths" => Some(Word::Rpaths),
            "entrypoint" => Some(Word::Entry),
            "header" => Some(Word::Header),
            "security" => Some(Word::Security),
            "relocations" => Some(Word::Relocations),
            "strings" => Some(Word::Strings),
            _ => None,
        }
    }

    /// Returns the spelling of the word.
    pub fn name(self) -> &'static str
        ensures { result.now ≡ spelling_of self }
    {
        match self {
            Word::Commands => "commands",
            Word::CommandsAlone => "commands",
            Word::Starts => "starts",
            Word::Slots => "slots",
            Word::Indirect => "indirect",
            Word::Data => "data",
            Word::Options => "options",
            Word::Tools => "tools",
            Word::Notes => "notes",
            Word::Providers => "providers",
            Word::Libraries => "libraries",
            Word::Id => "id",
            Word::Rebases => "rebases",
            Word::Weak => "weak",
            Word::Segments => "segments",
            Word::Sections => "sections",
            Word::Uuid => "uuid",
            Word::Rpaths => "rpaths",
            Word::Entry => "entrypoint",
            Word::Header => "header",
            Word::Security => "security",
            Word::SecurityExplained => "security",
            Word::Relocations => "relocations",
            Word::Strings => "strings",
            Word::Bytes(_) => "bytes",
        }
    }

    /// Returns the heading of the word's list: the name of each column.
    pub fn heading(self) -> &'static str
        ensures { result.now ≡ heading_of self }
    {
        match self {
            Word::Commands => "NUM OFFSET  SIZE COMMAND  FIELDS",
            Word::CommandsAlone => "NUM OFFSET  SIZE COMMAND  FIELDS",
            Word::Starts => "ADDRESS",
            Word::Slots => "ADDRESS KIND SYMBOL",
            Word::Indirect => "KIND SYMBOL",
            Word::Data => "OFFSET LENGTH KIND",
            Word::Options => "COMMAND OPTION",
            Word::Tools => "COMMAND TOOL VERSION",
            Word::Notes => "COMMAND OWNER OFFSET SIZE",
            Word::Providers => "SYMBOL PROVIDER ORDINAL",
            Word::Libraries => "NAME CURRENT COMPATIBLE USE",
            Word::Id => "NAME CURRENT COMPATIBLE",
            Word::Rebases => "ADDRESS TYPE TARGET SIGNING",
            Word::Weak => "ADDRESS ADDEND WEAK SYMBOL",
            Word::Segments =>
                "SEGMENT      ADDRESS     SIZE        OFFSET     FILE-SIZE  INI MAX FLAGS",
            Word::Sections =>
                "NUM SEGMENT      SECTION          ADDRESS     SIZE     OFFSET   TYPE STUBS",
            Word::Uuid => "KEY UUID CPU",
            Word::Rpaths => "NUM PATH",
            Word::Entry => "ADDRESS SEGMENT SECTION SYMBOL",
            Word::Header => "CPU KIND FLAGS  FIELDS",
            Word::Security => "VERDICT                IS  MEANING",
            Word::SecurityExplained => "VERDICT                IS  MEANING",
            Word::Relocations =>
                "SEGMENT      SECTION          ADDRESS  TYPE                    TARGET PCREL SIZE",
            Word::Strings => "ADDRESS     SECTION          STRING",
            Word::Bytes(_) => "ADDRESS     BYTES                            TEXT",
        }
    }

    /// Returns the word of the list that explains the items of this one, if there is one, and else itself.
    fn explained(self) -> Word
        ensures { result ≡ explained_word self }
    {
        match self {
            Word::Security => Word::SecurityExplained,
            word => word,
        }
    }

    /// Returns what the items of the word's list are called, if more of them may be claimed past the end of the bytes.
    pub fn past_name(self) -> &'static str
        ensures { result.now ≡ past_name self }
    {
        match self {
            Word::Indirect => "indirect symbols",
            Word::Data => "data in code entries",
            Word::Providers => "symbols",
            Word::Sections => "sections",
            Word::Relocations => "relocations",
            _ => "",
        }
    }
}
