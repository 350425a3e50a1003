//! The list of an image that a word selects.

ghost use Rattle.std.specs.Prelude.{◌≡◌, ◌-◌, ℕ, List, length, IfOk};
ghost use Rattle.std.specs.Io.KnownBytes.{Appends};
ghost use Rattle.mach_base.specs.Items.{items_in_bounds};
ghost use Rattle.mach_load.specs.TablesLeft.{data_in_code_left};
ghost use Rattle.mach_parts.specs.SlotViews.{indirect_left};
ghost use Rattle.goblin_mach.specs.OpenImage.{IsLossyImage};
ghost use Rattle.machinfo.specs.Lists.{OfRows};

use crate::command_rows::CommandRows;
use crate::commands::NumberedCommands;
use crate::lists::{
    BuildTools, DataInCode, FunctionStarts, IndirectSymbols, Libraries, LinkerOptions, Rebases,
    Slots, WeakBinds,
};
use crate::notes::NumberedNotes;
use crate::own_names::OwnNames;
use crate::parts::{EntryPoint, NumberedPaths, NumberedSegments, OneHeader, UuidRows};
use crate::providers::ProvidedSymbols;
use crate::relocations::RelocationRows;
use crate::section_bytes::ByteRows;
use crate::sections::CountedSections;
use crate::strings::StringRows;
use crate::verdicts::{ExplainedFindings, HardeningFindings};
use crate::word::Word;
use goblin_mach::slots::IndirectSymbolIterator;
use goblin_mach::{DataInCodeIterator, MachO};
use mach_audit::Findings;
use mach_cli::{ItemList, Outcome};
use std::alloc::Allocator;
use std::io;
use std::io::Write;

/// What is done with a list.
pub trait ListUse {
    ghost use Rattle.std.specs.Prelude.{List, ℕ, Result, IfOk};
    ghost use Rattle.std.specs.Io.KnownBytes.{Appends};
    ghost use Rattle.mach_base.specs.Fault.{Fault};
    ghost use Rattle.mach_cli.specs.Fields.{FieldView};
    ghost use Rattle.mach_cli.specs.declared.image_view.Outcome.{Outcome};

    // It writes this text of a list with these rows, which claims `past` more, and answers so.
    ghost writes: { Self → (rows : List (Result (List FieldView) Fault)) → (past : ℕ) → (text : List ℕ) → Outcome → Type 0 };

    /// Uses a list.
    fn of_list<L: ItemList + Drop, O: Write>(
        &self,
        list: L,
        past: usize,
        out: &mut O,
    ) -> io::Result<Outcome>
        ensures { IfOk result (λ outcome. (text : List ℕ) × writes self.now (L.items_left list) past text outcome
            × Appends (O.contents out.old) (O.contents out.new) text) };
}

// Returns the indirect symbols that begin within the bytes, and how many more are claimed.
fn indirect_symbols_in_bounds(list: IndirectSymbolIterator<'_>) -> (IndirectSymbols<'_>, usize)
    ensures left { indirect_left result.0.0 ≡ items_in_bounds (indirect_left list.entry) }
    ensures past { result.1 ≡ length (indirect_left list.entry) - length (items_in_bounds (indirect_left list.entry)) }
{
    let in_bounds = list.in_bounds();
    let past = list.len() - in_bounds.len();
    (IndirectSymbols(in_bounds), past)
}

// Returns the entries of data in code that begin within the bytes, and how many more are claimed.
fn data_in_bounds(list: DataInCodeIterator<'_>) -> (DataInCode<'_>, usize)
    ensures left { data_in_code_left result.0.0 ≡ items_in_bounds (data_in_code_left list.entry) }
    ensures past { result.1 ≡ length (data_in_code_left list.entry) - length (items_in_bounds (data_in_code_left list.entry)) }
{
    let in_bounds = list.in_bounds();
    let past = list.len() - in_bounds.len();
    (DataInCode(in_bounds), past)
}

/// Uses the list of an image that a word selects. Of a table the list has the rows that begin within the bytes.
pub fn use_list<U: ListUse, A: Allocator, O: Write>(
    how: &U,
    word: Word,
    image: &MachO<'_, A>,
    out: &mut O,
) -> io::Result<Outcome>
    ensures { (bytes : List ℕ) → IsLossyImage bytes 0 image.now → IfOk result (λ outcome. (text : List ℕ)
        × OfRows word bytes (λ rows past. U.writes how.now rows past text outcome)
        × Appends (O.contents out.old) (O.contents out.new) text) }
{
    match word {
        Word::Commands => how.of_list(CommandRows::of(image), 0, out),
        Word::CommandsAlone => how.of_list(NumberedCommands::of(image), 0, out),
        Word::Starts => how.of_list(FunctionStarts(image.function_starts()), 0, out),
        Word::Slots => how.of_list(Slots(image.symbol_slots()), 0, out),
        Word::Indirect => {
            let (list, past) = indirect_symbols_in_bounds(image.indirect_symbols());
            how.of_list(list, past, out)
        }
        Word::Data => {
            let (list, past) = data_in_bounds(image.data_in_code());
            how.of_list(list, past, out)
        }
        Word::Options => how.of_list(LinkerOptions(image.linker_options()), 0, out),
        Word::Tools => how.of_list(BuildTools(image.build_tools()), 0, out),
        Word::Notes => how.of_list(NumberedNotes::of(image), 0, out),
        Word::Providers => {
            let (list, past) = ProvidedSymbols::of(image);
            how.of_list(list, past, out)
        }
        Word::Libraries => how.of_list(Libraries(image.libraries()), 0, out),
        Word::Id => how.of_list(OwnNames::of(image), 0, out),
        Word::Rebases => how.of_list(Rebases(image.rebases()), 0, out),
        Word::Weak => how.of_list(WeakBinds(image.weak_binds()), 0, out),
        Word::Segments => how.of_list(NumberedSegments::of(image), 0, out),
        Word::Sections => {
            let (list, past) = CountedSections::of(image);
            how.of_list(list, past, out)
        }
        Word::Uuid => how.of_list(UuidRows::of(image), 0, out),
        Word::Rpaths => how.of_list(NumberedPaths::of(image), 0, out),
        Word::Entry => how.of_list(EntryPoint::of(image), 0, out),
        Word::Header => how.of_list(OneHeader(Some(image.header)), 0, out),
        Word::Security => how.of_list(HardeningFindings(Findings::of(image)), 0, out),
        Word::SecurityExplained => how.of_list(ExplainedFindings(Findings::of(image)), 0, out),
        Word::Relocations => {
            let (list, past) = RelocationRows::of(image);
            how.of_list(list, past, out)
        }
        Word::Strings => how.of_list(StringRows::of(image), 0, out),
        Word::Bytes(name) => how.of_list(ByteRows::of(image, &name), 0, out),
    }
}
