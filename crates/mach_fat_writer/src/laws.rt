//! Laws of written fat files: what they say is what they were written from.

ghost use Rattle.std.specs.Prelude.{◌≡◌, ◌↔◌, ◌+◌, ◌%◌, ◌^◌, ◌<◌, ◌≤◌, ℕ, List, ◌∷◌, ◌++◌, Ok, length, true};
ghost use Rattle.mach_base.specs.Number.{number};
ghost use Rattle.mach_base.specs.Record.{Value};
ghost use Rattle.mach_base.specs.declared.context.Endian.TheVariants.{Big};
ghost use Rattle.mach_fat_writer.specs.Entries.{FatEntryView, HasTwo, any_two, are_of_one_cpu};
ghost use Rattle.mach_fat_writer.specs.FatForms.{fat_form_32, fat_form_64, table_end, gap_after, fat_place_after, end_after, fat_end};
ghost use Rattle.mach_fat_writer.specs.FatReads.{HaveNumbers, declared_records, records_of, entries_of_records};
ghost use Rattle.mach_fat_writer.specs.FatWrites.{fat_file_of};

/// A written file begins with its magic and ends with its last entry. Its table holds exactly the records of the entries, in
/// their order, and the entries' bytes lie at the offsets of their records.
pub fn entries_are_read_back()
    ensures of_32 { (es : List FatEntryView) (file : List ℕ) → HaveNumbers es → fat_file_of fat_form_32 es ≡ Ok file
        → (number Big 4 file ≡ 0xcafe_babe) × (length file ≡ fat_end (table_end fat_form_32 (length es)) es)
        × (declared_records fat_form_32 file ≡ Ok (records_of fat_form_32 (table_end fat_form_32 (length es)) es))
        × (entries_of_records file (records_of fat_form_32 (table_end fat_form_32 (length es)) es) ≡ es) }
    ensures of_64 { (es : List FatEntryView) (file : List ℕ) → HaveNumbers es → fat_file_of fat_form_64 es ≡ Ok file
        → (number Big 4 file ≡ 0xcafe_babf) × (length file ≡ fat_end (table_end fat_form_64 (length es)) es)
        × (declared_records fat_form_64 file ≡ Ok (records_of fat_form_64 (table_end fat_form_64 (length es)) es))
        × (entries_of_records file (records_of fat_form_64 (table_end fat_form_64 (length es)) es) ≡ es) }
{}

/// Writing the entries that a written file holds gives that file again.
pub fn entries_are_written_again()
    ensures of_32 { (es : List FatEntryView) (file : List ℕ) (records : List (List Value)) → HaveNumbers es → fat_file_of fat_form_32 es ≡ Ok file
        → declared_records fat_form_32 file ≡ Ok records → fat_file_of fat_form_32 (entries_of_records file records) ≡ Ok file }
    ensures of_64 { (es : List FatEntryView) (file : List ℕ) (records : List (List Value)) → HaveNumbers es → fat_file_of fat_form_64 es ≡ Ok file
        → declared_records fat_form_64 file ≡ Ok records → fat_file_of fat_form_64 (entries_of_records file records) ≡ Ok file }
{}

/// An entry's offset is the first multiple of 2 to the power of its alignment at or after the previous end.
pub fn places_are_multiples()
    ensures { (from align : ℕ) → ((from + gap_after from align) % 2 ^ align ≡ 0) × (from ≤ from + gap_after from align)
        × (from + gap_after from align < from + 2 ^ align) }
{}

/// No entry overlaps the table, and of two entries the first ends at or before the start of the second.
#[tactic(auto, using(crate::proofs::Places::occurs_after, crate::proofs::Places::occur_apart))]
pub fn entries_occur_apart()
    ensures table { (from : ℕ) (before : List FatEntryView) (e : FatEntryView) → from ≤ fat_place_after (fat_end from before) e }
    ensures entries { (from : ℕ) (before between : List FatEntryView) (e f : FatEntryView)
        → end_after (fat_end from before) e ≤ fat_place_after (fat_end from (before ++ e ∷ between)) f }
{}

/// Entries are refused for one cpu exactly when two of them, at different places in the list, are for one cpu.
#[tactic(auto, using(crate::proofs::Twos::any_two_are_two))]
pub fn two_of_one_cpu_occur()
    ensures { (es : List FatEntryView) → (any_two are_of_one_cpu es ≡ true) ↔ HasTwo are_of_one_cpu es }
{}
