//! The lists of an image, and what their rows show, field by field: as lines, and as objects of JSON.

ghost use Rattle.std.specs.Prelude.{◌≡◌, Ok, map, OnOk};
ghost use Rattle.std.specs.Io.KnownBytes.{Appends};
ghost use Rattle.mach_load.specs.TablesLeft.{starts_left, data_in_code_left, options_left, build_tools_left};
ghost use Rattle.mach_parts.specs.Bindings.{binding_view, provider_view};
ghost use Rattle.mach_parts.specs.SlotViews.{indirect_left, slot_view};
ghost use Rattle.mach_parts.specs.SlotsLeft.{slots_left};
ghost use Rattle.goblin_mach.specs.Libraries.{libraries_left, library_view};
ghost use Rattle.goblin_mach.specs.RebasesLeft.{rebases_left};
ghost use Rattle.mach_dyld.specs.RebasesLeft.{rebase_view};
ghost use Rattle.mach_dyld.specs.WeakBindsLeft.{weak_bind_view, weak_binds_left};
ghost use Rattle.mach_cli.specs.Fields.{field_view};
ghost use Rattle.machinfo.specs.NumberedNotes.{numbered_note_view, notes_numbered_left};
ghost use Rattle.machinfo.specs.ProvidedSymbols.{provided_left, provided_view};
ghost use Rattle.machinfo.specs.PartFields.{column_if, flag_field};
ghost use Rattle.machinfo.specs.RowFields.{binding_fields, data_fields, fields_read, indirect_fields};
ghost use Rattle.machinfo.specs.RowFields.{is_lazy_kind, is_plain, library_fields, library_row_fields, note_fields, option_fields};
ghost use Rattle.machinfo.specs.RowFields.{provided_fields, rebase_row_fields};
ghost use Rattle.machinfo.specs.RowFields.{slot_fields, slot_kind_text, start_fields, strong_row_fields, tool_fields, weak_row_fields};

use crate::notes::{NumberedNote, NumberedNotes};
use crate::own_names::version_columns;
use crate::providers::{Provided, ProvidedSymbols};
use crate::text::tool_word;
use goblin_mach::load_command::{BuildToolVersion, DataInCodeEntry};
use goblin_mach::slots::{
    IndirectSymbol, IndirectSymbolIterator, SlotIterator, SlotKind, SlotSymbol, SymbolSlot,
};
use goblin_mach::{
    Binding, BuildToolIterator, DataInCodeIterator, FunctionStartIterator, Library,
    LibraryAttributes, LibraryIterator, LibraryKind, LinkerOptionIterator, Provider, Rebase,
    RebaseIterator, Result, WeakBind, WeakBindIterator,
};
use mach_cli::{
    Field, FieldsForm, ItemList, Value, diverse_by, diversity_by, has_auth, if_not_empty, key_by,
    rebase_type,
};
use std::alloc::Allocator;
use std::io;
use std::io::Write;

/// Returns the column of a field that a line has only if something is so.
pub fn column_if(is_so: bool, column: usize) -> usize
    ensures { result ≡ column_if is_so column }
{
    if is_so { column } else { 0 }
}

/// Returns a flag, of which a line has the word if it is so.
pub fn flag_field(
    name: &'static str,
    is_so: bool,
    word: &'static str,
    column: usize,
) -> Field<'static>
    ensures { field_view result ≡ flag_field name.now is_so word.now column }
{
    let value = Value::Flag {
        is_so,
        yes: word,
        no: "",
    };
    Field::new(name, value, column_if(is_so, column))
}

/// The addresses of functions.
#[derive(Drop)]
pub struct FunctionStarts<'a>(pub FunctionStartIterator<'a>);

impl<'a> ItemList for FunctionStarts<'a> {
    type Item = u64;

    ghost fields = { start_fields };

    ghost items_left = { λ s. fields_read start_fields (starts_left s.0) };

    #[tactic(auto, using(crate::proofs::ListRows::next_fields))]
    fn next_item(&mut self) -> Option<Result<u64>> {
        self.0.next()
    }

    fn write_item<F: FieldsForm, O: Write>(address: &u64, out: &mut O) -> io::Result<()>
        ensures { OnOk result (Appends (O.contents out.old) (O.contents out.new) (F.fields_text (start_fields address.now))) }
    {
        F::write(&[Field::new("address", Value::Hex(*address), 1)], out)
    }
}

/// Indirect symbols.
#[derive(Drop)]
pub struct IndirectSymbols<'a>(pub IndirectSymbolIterator<'a>);

impl<'a> ItemList for IndirectSymbols<'a> {
    type Item = IndirectSymbol;

    ghost fields = { indirect_fields };

    ghost items_left = { λ s. fields_read indirect_fields (indirect_left s.0) };

    #[tactic(auto, using(crate::proofs::ListRows::next_fields))]
    fn next_item(&mut self) -> Option<Result<IndirectSymbol>> {
        self.0.next()
    }

    fn write_item<F: FieldsForm, O: Write>(entry: &IndirectSymbol, out: &mut O) -> io::Result<()>
        ensures { OnOk result (Appends (O.contents out.old) (O.contents out.new) (F.fields_text (indirect_fields entry.now))) }
    {
        write_indirect::<F, O>(*entry, out)
    }
}

// Writes what an entry of the table of indirect symbols says.
fn write_indirect<F: FieldsForm, O: Write>(entry: IndirectSymbol, out: &mut O) -> io::Result<()>
    ensures { OnOk result (Appends (O.contents out.old) (O.contents out.new) (F.fields_text (indirect_fields entry))) }
{
    match entry {
        IndirectSymbol::Symbol(number) => {
            let symbol = Field::new("symbol", Value::Number(u64::from(number)), 2);
            F::write(&[Field::new("kind", Value::Text("symbol"), 1), symbol], out)
        }
        IndirectSymbol::Local => F::write(&[Field::new("kind", Value::Text("local"), 1)], out),
        IndirectSymbol::Absolute => F::write(
            &[Field::new("kind", Value::Text("absolute"), 1)],
            out,
        ),
        IndirectSymbol::LocalAbsolute => F::write(
            &[Field::new("kind", Value::Text("local absolute"), 1)],
            out,
        ),
    }
}

/// Data in code.
#[derive(Drop)]
pub struct DataInCode<'a>(pub DataInCodeIterator<'a>);

impl<'a> ItemList for DataInCode<'a> {
    type Item = DataInCodeEntry;

    ghost fields = { data_fields };

    ghost items_left = { λ s. fields_read data_fields (data_in_code_left s.0) };

    #[tactic(auto, using(crate::proofs::ListRows::next_fields))]
    fn next_item(&mut self) -> Option<Result<DataInCodeEntry>> {
        self.0.next()
    }

    fn write_item<F: FieldsForm, O: Write>(entry: &DataInCodeEntry, out: &mut O) -> io::Result<()>
        ensures { OnOk result (Appends (O.contents out.old) (O.contents out.new) (F.fields_text (data_fields entry.now))) }
    {
        F::write(&data_fields(*entry), out)
    }
}

// Returns the fields of an entry of data in code: its offset from the image's first byte, its length and its kind.
fn data_fields(entry: DataInCodeEntry) -> [Field<'static>; 3]
    ensures { map field_view result ≡ data_fields entry }
{
    [
        Field::new("kind", Value::Number(u64::from(entry.kind)), 3),
        Field::new("length", Value::Number(u64::from(entry.length)), 2),
        Field::new("offset", Value::Hex(u64::from(entry.offset)), 1),
    ]
}

/// Linker options, each with the number of its command.
#[derive(Drop)]
pub struct LinkerOptions<'a, 'b>(pub LinkerOptionIterator<'a, 'b>);

impl<'a, 'b> ItemList for LinkerOptions<'a, 'b> {
    type Item = (usize, &'a str);

    ghost fields = { λ item. option_fields (item.0, item.1.now) };

    ghost items_left = { λ s. fields_read option_fields (options_left s.0) };

    #[tactic(auto, using(crate::proofs::ListRows::next_fields))]
    fn next_item(&mut self) -> Option<Result<(usize, &'a str)>> {
        self.0.next()
    }

    fn write_item<F: FieldsForm, O: Write>(option: &(usize, &'a str), out: &mut O) -> io::Result<()>
        ensures { OnOk result (Appends (O.contents out.old) (O.contents out.new) (F.fields_text (option_fields (option.now.0, option.now.1.now)))) }
    {
        F::write(&option_fields(option.0, option.1), out)
    }
}

// Returns the fields of a linker option, with the number of its command.
fn option_fields<'a>(number: usize, text: &'a str) -> [Field<'a>; 2]
    ensures { map field_view result ≡ option_fields (number, text.now) }
{
    [
        Field::new("command", Value::Number(number as u64), 1),
        Field::new("text", Value::Text(text), 2),
    ]
}

/// Build tools, each with the number of its command.
#[derive(Drop)]
pub struct BuildTools<'a, 'b>(pub BuildToolIterator<'a, 'b>);

impl<'a, 'b> ItemList for BuildTools<'a, 'b> {
    type Item = (usize, BuildToolVersion);

    ghost fields = { tool_fields };

    ghost items_left = { λ s. fields_read tool_fields (build_tools_left s.0) };

    #[tactic(auto, using(crate::proofs::ListRows::next_fields))]
    fn next_item(&mut self) -> Option<Result<(usize, BuildToolVersion)>> {
        self.0.next()
    }

    fn write_item<F: FieldsForm, O: Write>(
        tool: &(usize, BuildToolVersion),
        out: &mut O,
    ) -> io::Result<()>
        ensures { OnOk result (Appends (O.contents out.old) (O.contents out.new) (F.fields_text (tool_fields tool.now))) }
    {
        F::write(&tool_fields(tool.0, tool.1), out)
    }
}

// Returns the fields of a tool and its version, with the number of its command.
fn tool_fields(number: usize, tool: BuildToolVersion) -> [Field<'static>; 4]
    ensures { map field_view result ≡ tool_fields (number, tool) }
{
    [
        Field::new("command", Value::Number(number as u64), 1),
        Field::new(
            "tool",
            Value::Named(u64::from(tool.tool), tool_word(tool.tool)),
            2,
        ),
        Field::of_object("version", Value::Number(u64::from(tool.version))),
        Field::of_line(Value::Version(tool.version), 3),
    ]
}

impl<'a, 'b> ItemList for NumberedNotes<'a, 'b> {
    type Item = NumberedNote<'a>;

    ghost fields = { λ item. note_fields (numbered_note_view item) };

    ghost items_left = { λ s. fields_read note_fields (notes_numbered_left s) };

    #[tactic(auto, using(crate::proofs::ListRows::next_fields))]
    fn next_item(&mut self) -> Option<Result<NumberedNote<'a>>> {
        self.take_next()
    }

    fn write_item<F: FieldsForm, O: Write>(note: &NumberedNote<'a>, out: &mut O) -> io::Result<()>
        ensures { OnOk result (Appends (O.contents out.old) (O.contents out.new) (F.fields_text (note_fields (numbered_note_view note.now)))) }
    {
        F::write(&note_fields(*note), out)
    }
}

// Returns the fields of a note: the number of its command, its owner, the offset of its bytes, and their number.
fn note_fields<'a>(note: NumberedNote<'a>) -> [Field<'a>; 4]
    ensures { map field_view result ≡ note_fields (numbered_note_view note.entry) }
{
    let owner = if_not_empty(Some(note.note.owner));
    [
        Field::new("command", Value::Number(note.number as u64), 1),
        Field::new("offset", Value::Hex(note.place), 3),
        Field::new("owner", Value::OptionalText(owner), 2),
        Field::new("size", Value::Number(note.note.data.len() as u64), 4),
    ]
}

/// Stubs and symbol pointers.
#[derive(Drop)]
pub struct Slots<'a, 'b>(pub SlotIterator<'a, 'b>);

impl<'a, 'b> ItemList for Slots<'a, 'b> {
    type Item = SymbolSlot<'a>;

    ghost fields = { λ item. slot_fields (slot_view item) };

    ghost items_left = { λ s. fields_read slot_fields (slots_left s.0) };

    #[tactic(auto, using(crate::proofs::ListRows::next_fields))]
    fn next_item(&mut self) -> Option<Result<SymbolSlot<'a>>> {
        self.0.next()
    }

    fn write_item<F: FieldsForm, O: Write>(slot: &SymbolSlot<'a>, out: &mut O) -> io::Result<()> {
        write_slot::<F, O>(*slot, out)
    }
}

// Returns the words for a kind of slot.
fn kind_text(kind: SlotKind) -> &'static str
    ensures { result.now ≡ slot_kind_text kind }
{
    match kind {
        SlotKind::Pointer => "pointer",
        SlotKind::LazyPointer => "lazy pointer",
        SlotKind::Stub => "stub",
        SlotKind::LazyLibraryPointer => "lazy library pointer",
        SlotKind::ThreadLocalPointer => "thread-local pointer",
    }
}

// Writes a slot: its address, its kind, its length in bytes, and its symbol.
fn write_slot<F: FieldsForm, O: Write>(slot: SymbolSlot<'_>, out: &mut O) -> io::Result<()>
    ensures { OnOk result (Appends (O.contents out.old) (O.contents out.new) (F.fields_text (slot_fields (slot_view slot.entry)))) }
{
    let address = Field::new("address", Value::Hex(slot.address), 1);
    let kind = Field::new("kind", Value::Text(kind_text(slot.kind)), 2);
    let length = Field::of_object("length", Value::Number(slot.len));
    let owner = match slot.symbol {
        SlotSymbol::Named { index, name } => {
            let name = Field::new("name", Value::Text(name), 3);
            let owner = Field::of_object("owner", Value::Text("symbol"));
            let symbol = Field::of_object("symbol", Value::Number(u64::from(index)));
            return F::write(&[address, kind, length, name, owner, symbol], out);
        }
        SlotSymbol::Local => "local",
        SlotSymbol::Absolute => "absolute",
        SlotSymbol::LocalAbsolute => "local absolute",
    };
    let owner = Field::new("owner", Value::Text(owner), 3);
    F::write(&[address, kind, length, owner], out)
}

impl<'a, 'b, A: Allocator> ItemList for ProvidedSymbols<'a, 'b, A> {
    type Item = Provided<'a>;

    ghost fields = { λ item. provided_fields (provided_view item) };

    ghost items_left = { λ s. fields_read provided_fields (provided_left s) };

    #[tactic(auto, using(crate::proofs::ListRows::next_fields))]
    fn next_item(&mut self) -> Option<Result<Provided<'a>>> {
        self.take_next()
    }

    fn write_item<F: FieldsForm, O: Write>(provided: &Provided<'a>, out: &mut O) -> io::Result<()> {
        write_provided::<F, O>(*provided, out)
    }
}

// Writes a symbol, and its provider.
fn write_provided<F: FieldsForm, O: Write>(provided: Provided<'_>, out: &mut O) -> io::Result<()>
    ensures { OnOk result (Appends (O.contents out.old) (O.contents out.new) (F.fields_text (provided_fields (provided_view provided.entry)))) }
{
    let name = Field::new("name", Value::Text(provided.name), 1);
    let provider = match provided.provider {
        Provider::Library {
            ordinal,
            name: path,
        } => {
            let ordinal = Field::new("ordinal", Value::Number(ordinal), 3);
            let path = Field::of_object("path", Value::Text(path));
            let provider = Field::new("provider", Value::Text("library"), 2);
            return F::write(&[name, ordinal, path, provider], out);
        }
        Provider::Itself => "itself",
        Provider::MainExecutable => "main-executable",
        Provider::Flat => "flat",
        Provider::WeakLookup => "weak-lookup",
    };
    let provider = Field::new("provider", Value::Text(provider), 2);
    F::write(&[name, provider], out)
}

/// Libraries.
#[derive(Drop)]
pub struct Libraries<'a, 'b>(pub LibraryIterator<'a, 'b>);

impl<'a, 'b> ItemList for Libraries<'a, 'b> {
    type Item = Library<'a>;

    ghost fields = { λ item. library_row_fields (library_view item) };

    ghost items_left = { λ s. map (λ l. Ok (library_row_fields l)) (libraries_left s.0) };

    fn next_item(&mut self) -> Option<Result<Library<'a>>> {
        Some(Ok(self.0.next()?))
    }

    fn write_item<F: FieldsForm, O: Write>(library: &Library<'a>, out: &mut O) -> io::Result<()>
        ensures { OnOk result (Appends (O.contents out.old) (O.contents out.new) (F.fields_text (library_row_fields (library_view library.now)))) }
    {
        let versions = version_columns(library.current_version, library.compatibility_version);
        F::write_both(&library_fields(*library), &versions, out)
    }
}

// Whether a library is loaded at its first use.
fn is_lazy_kind(kind: LibraryKind) -> bool
    ensures { result ≡ is_lazy_kind kind }
{
    match kind {
        LibraryKind::Lazy => true,
        LibraryKind::Required => false,
        LibraryKind::Weak => false,
        LibraryKind::Reexport => false,
        LibraryKind::Upward => false,
    }
}

// Whether no attribute of a library is set.
fn is_plain(how: LibraryAttributes, is_lazy: bool) -> bool
    ensures { result ≡ is_plain how is_lazy }
{
    !(how.is_weak || how.is_reexport || how.is_upward || how.is_delayed || is_lazy)
}

// Returns the fields of a library: its name and how it is used; an object also has its versions and its place in the image's list.
// A line of the list has the versions in the columns 2 and 3.
fn library_fields<'a>(library: Library<'a>) -> [Field<'a>; 10]
    ensures { map field_view result ≡ library_fields (library_view library.entry) }
{
    let how = library.attributes;
    let is_lazy = is_lazy_kind(library.kind);
    let least = Value::Number(u64::from(library.compatibility_version));
    let current = Value::Number(u64::from(library.current_version));
    [
        Field::of_object("compatibility_version", least),
        Field::of_object("current_version", current),
        flag_field("is_delayed", how.is_delayed, "delayed", 7),
        flag_field("is_lazy", is_lazy, "lazy", 8),
        flag_field("is_reexport", how.is_reexport, "reexport", 5),
        flag_field("is_upward", how.is_upward, "upward", 6),
        flag_field("is_weak", how.is_weak, "weak", 4),
        Field::new("name", Value::Text(library.name), 1),
        Field::of_object("ordinal", Value::Number(library.ordinal as u64)),
        Field::of_line(Value::Text("-"), column_if(is_plain(how, is_lazy), 9)),
    ]
}

/// Writes the fields of a library in a form.
pub fn write_library<F: FieldsForm, O: Write>(library: Library<'_>, out: &mut O) -> io::Result<()>
    ensures { OnOk result (Appends (O.contents out.old) (O.contents out.new) (F.fields_text (library_fields (library_view library.entry)))) }
{
    F::write(&library_fields(library), out)
}

/// Rebases.
#[derive(Drop)]
pub struct Rebases<'a, 'b>(pub RebaseIterator<'a, 'b>);

impl<'a, 'b> ItemList for Rebases<'a, 'b> {
    type Item = Rebase;

    ghost fields = { λ item. rebase_row_fields (rebase_view item) };

    ghost items_left = { λ s. fields_read rebase_row_fields (rebases_left s.0) };

    #[tactic(auto, using(crate::proofs::ListRows::next_fields))]
    fn next_item(&mut self) -> Option<Result<Rebase>> {
        self.0.next()
    }

    fn write_item<F: FieldsForm, O: Write>(rebase: &Rebase, out: &mut O) -> io::Result<()> {
        F::write(&rebase_fields(*rebase), out)
    }
}

// Returns the fields of a rebase: its address, its type, the target, and how the pointer is signed.
fn rebase_fields(rebase: Rebase) -> [Field<'static>; 8]
    ensures { map field_view result ≡ rebase_row_fields (rebase_view rebase) }
{
    let auth = rebase.auth;
    let signing = Value::Flags {
        is_weak: false,
        is_lazy: false,
        auth,
    };
    let diversity = Value::Number(u64::from(diversity_by(auth)));
    [
        Field::new("address", Value::Hex(rebase.address), 1),
        Field::of_object("diversity", diversity),
        Field::whether("is_address_diverse", diverse_by(auth)),
        Field::whether("is_signed", has_auth(auth)),
        Field::of_object("key", Value::Number(u64::from(key_by(auth)))),
        Field::new("target", Value::Hex(rebase.target), 3),
        Field::new("type", Value::Text(rebase_type(rebase.kind)), 2),
        Field::of_line(signing, column_if(has_auth(auth), 4)),
    ]
}

/// Weak binds.
#[derive(Drop)]
pub struct WeakBinds<'a, 'b>(pub WeakBindIterator<'a, 'b>);

impl<'a, 'b> ItemList for WeakBinds<'a, 'b> {
    type Item = WeakBind<'a>;

    ghost fields = { λ item. weak_row_fields (weak_bind_view item) };

    ghost items_left = { λ s. fields_read weak_row_fields (weak_binds_left s.0) };

    #[tactic(auto, using(crate::proofs::ListRows::next_fields))]
    fn next_item(&mut self) -> Option<Result<WeakBind<'a>>> {
        self.0.next()
    }

    fn write_item<F: FieldsForm, O: Write>(bind: &WeakBind<'a>, out: &mut O) -> io::Result<()> {
        match bind {
            WeakBind::Strong { name } => F::write(&strong_fields(name), out),
            WeakBind::Bind(binding) => F::write(&binding_fields(*binding), out),
        }
    }
}

// Returns the fields of an address and what is bound weakly there.
fn binding_fields<'a>(binding: Binding<'a>) -> [Field<'a>; 5]
    ensures { map field_view result ≡ binding_fields (binding_view binding.entry) }
{
    let is_weak = Value::Flag {
        is_so: binding.is_weak,
        yes: "weak",
        no: "-",
    };
    [
        Field::new("addend", Value::Signed(i128::from(binding.addend)), 2),
        Field::new("address", Value::Hex(binding.address), 1),
        flag_field("is_strong", false, "strong", 1),
        Field::new("is_weak", is_weak, 3),
        Field::new("name", Value::Text(binding.name), 4),
    ]
}

// Returns the fields of a strong definition of the image's own.
fn strong_fields<'a>(name: &'a str) -> [Field<'a>; 2]
    ensures { map field_view result ≡ strong_row_fields name.now }
{
    [
        flag_field("is_strong", true, "strong", 1),
        Field::new("name", Value::Text(name), 2),
    ]
}
