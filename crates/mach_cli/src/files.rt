//! The files of a call: each is shown part by part.

ghost use Rattle.std.specs.Prelude.{◌≡◌, ◌≤◌, max, true, IfErr, IfOk};
ghost use Rattle.goblin_mach.specs.ItemsLeft.{input_item_read};
ghost use Rattle.mach_cli.specs.Labels.{label_view};
ghost use Rattle.mach_cli.specs.Selected.{within_left};
ghost use Rattle.mach_cli.specs.InOrder.{InOrder};
ghost use Rattle.mach_cli.specs.ShownCalls.{manner_in, ShowsBytes, ShowsFiles, ShowsFilesBy, ShowsList, ShowsListed, ShowsNamed, ShowsPart, ShowsTitled};
ghost use Rattle.mach_cli.specs.ShownCalls.{file_itself, have_title, no_text_status};
ghost use Rattle.mach_cli.specs.Statuses.{IsStatus, IsUnwritten};

use crate::cpu::Cpu;
use crate::document::status;
use crate::entries::outside_at;
use crate::first_bytes::begins_fat;
use crate::label::Label;
use crate::named::{Others, names_of};
use crate::names::Names;
use crate::omitted::Omitted;
use crate::parts::selection::{SelectedParts, is_missed};
use crate::parts::shown::{ShownPart, shown_part};
use crate::parts::{parts_left_out, parts_of};
use crate::program::Program;
use crate::progress::Progress;
use crate::refusal::{Refusal, complain};
use crate::title::{Title, title_of};
use crate::titled::{Titled, put_title};
use crate::word::NoText;
use goblin_mach::{InputItem, begins_archive};
use mach_base::describe;
use mach_parts::FatArch64;
use std::alloc::{AllocError, Allocator, Global};
use std::io::{BufWriter, IsTerminal, Write};
use std::marker::PhantomData;
use std::str;

/// What a program shows of a file.
pub trait FileView<W> {
    ghost use Rattle.std.specs.Prelude.{◌≤◌};
    ghost use Rattle.mach_cli.specs.ShownCalls.{Showing};
    ghost use Rattle.mach_cli.specs.Statuses.{IsStatus};

    // What is shown of a file of a name, with the exit status.
    ghost shows: { Self → Showing W };

    /// Shows a file of a name, and returns the exit status.
    fn show(&self, rt: &HostRuntime, name: &str, bytes: &[u8], out: &mut W) -> u8
        ensures status { IsStatus result }
        ensures shown { result ≤ 1 → shows self.now name.now bytes.now out.old out.new result };
}

/// How the files of a call are shown.
#[derive(Clone, Copy)]
pub struct Files {
    /// The program that is called.
    pub program: Program,
    /// The cpu whose images are selected.
    pub cpu: Cpu,
    /// Whether output may have titles: a file's name if there are several, a part's name always.
    pub has_titles: bool,
    /// Whether each part of a file is shown, instead of the file itself.
    pub has_parts: bool,
    /// How many lines of a file are shown, and of its parts as many, and one at least.
    pub limit: usize,
}

// The standard output of a call.
type Out<W, B: Allocator> = BufWriter<Titled<W>, B>;

// A run over the files of a call.
#[derive(Drop)]
struct Run<'r, S, W: Write + Drop, B: Allocator> {
    rt: &'r HostRuntime,
    files: Files,
    // Whether there may be several files.
    are_several: bool,
    // Whether titles are those of `llvm-nm`.
    is_nm: bool,
    // What is shown of each.
    shows: &'r S,
    out: PhantomData<Out<W, B>>,
}

// Returns the status of a file that is shown. After a failed write nothing else is shown: its status is an error.
fn unless_unwritten(status: u8) -> Result<u8, u8>
    requires { IsStatus status }
    ensures kept { IfOk result (λ kept. (kept ≡ status) × (status ≤ 1)) }
    ensures unwritten { IfErr result (λ failed. IsUnwritten failed) }
{
    if status > 1 {
        return Err(status);
    }
    Ok(status)
}

// Returns the worse of two statuses.
fn worse(worst: u8, status: u8) -> u8
    ensures { result ≡ max worst status }
{
    worst.max(status)
}

impl Files {
    /// Shows files in order, then those named in other ways, and returns the worst status. The status of a failed write is an
    /// error, since nothing is shown after it.
    pub fn show<S: FileView<BufWriter<Titled<W>, B>>, W: Write + Drop, B: Allocator>(
        &self,
        rt: &HostRuntime,
        shows: &S,
        files: &[&str],
        others: &Others<'_, Global>,
        out: &mut BufWriter<Titled<W>, B>,
    ) -> Result<u8, u8>
        ensures shown { IfOk result (λ worst. ShowsFiles self.now (S.shows shows.now) files.now others.now out.old out.new worst) }
        ensures unwritten { IfErr result (λ status. IsUnwritten status) }
    {
        self.show_by(rt, false, shows, files, others, out)
    }

    /// Shows files as `show` does, with the titles of `llvm-nm`: those of the entries of a fat file have the file's name and the cpu,
    /// and a fat file of 32 bits has none, since the headings of its entries name it.
    pub fn show_as_nm<S: FileView<BufWriter<Titled<W>, B>>, W: Write + Drop, B: Allocator>(
        &self,
        rt: &HostRuntime,
        shows: &S,
        files: &[&str],
        others: &Others<'_, Global>,
        out: &mut BufWriter<Titled<W>, B>,
    ) -> Result<u8, u8>
        ensures shown { IfOk result (λ worst. ShowsFilesBy true self.now (S.shows shows.now) files.now others.now out.old out.new worst) }
        ensures unwritten { IfErr result (λ status. IsUnwritten status) }
    {
        self.show_by(rt, true, shows, files, others, out)
    }

    // Shows files in order, then those named in other ways, and returns the worst status.
    fn show_by<S: FileView<BufWriter<Titled<W>, B>>, W: Write + Drop, B: Allocator>(
        &self,
        rt: &HostRuntime,
        is_nm: bool,
        shows: &S,
        files: &[&str],
        others: &Others<'_, Global>,
        out: &mut BufWriter<Titled<W>, B>,
    ) -> Result<u8, u8>
        ensures shown { IfOk result (λ worst. ShowsFilesBy is_nm self.now (S.shows shows.now) files.now others.now out.old out.new worst) }
        ensures unwritten { IfErr result (λ status. IsUnwritten status) }
    {
        let run = Run {
            rt,
            files: *self,
            are_several: others.are_several(files.len()),
            is_nm,
            shows,
            out: PhantomData,
        };
        let mut progress = Progress::new(rt, rt.stderr().is_terminal());
        let of_words = run.refuse_words(others.no_texts.as_slice());
        let of_files = run.show_files(&mut progress, files, out)?;
        let (lists, end) = (others.lists.as_slice(), others.name_end());
        let of_lists = run.show_lists(&mut progress, lists, end, out)?;
        Ok(worse(worse(of_words, of_files), of_lists))
    }
}

impl<S: FileView<BufWriter<Titled<W>, B>>, W: Write + Drop, B: Allocator> Run<'_, S, W, B> {
    // Shows files in order, and returns the worst status.
    fn show_files(
        &self,
        progress: &mut Progress,
        files: &[&str],
        out: &mut Out<W, B>,
    ) -> Result<u8, u8>
        ensures shown { IfOk result (λ worst. InOrder (λ file. ShowsNamed (manner_in S.shows self.now) file.now) files.now out.old out.new worst) }
        ensures unwritten { IfErr result IsUnwritten }
    {
        let mut worst = 0u8;
        'files: for file in files {
            let status = self.show_file(progress, file, out)?;
            worst = worse(worst, status);
        }
        Ok(worst)
    }

    // Shows the files of some lists, each of whose names ends with a byte, and returns the worst status.
    fn show_lists(
        &self,
        progress: &mut Progress,
        lists: &[&str],
        end: u8,
        out: &mut Out<W, B>,
    ) -> Result<u8, u8>
        ensures shown { IfOk result (λ worst. InOrder (λ list. ShowsList (manner_in S.shows self.now) end) lists.now out.old out.new worst) }
        ensures unwritten { IfErr result IsUnwritten }
    {
        let mut worst = 0u8;
        'lists: for list in lists {
            let status = self.show_list(progress, list, end, out)?;
            worst = worse(worst, status);
        }
        Ok(worst)
    }

    // Shows the files of a list, and returns the worst status.
    fn show_list(
        &self,
        progress: &mut Progress,
        list: &str,
        end: u8,
        out: &mut Out<W, B>,
    ) -> Result<u8, u8>
        ensures shown { IfOk result (ShowsList (manner_in S.shows self.now) end out.old out.new) }
        ensures unwritten { IfErr result IsUnwritten }
    {
        let (rt, program) = (self.rt, self.files.program);
        let bytes = match program.read(rt, list) {
            Ok(bytes) => bytes,
            Err(status) => return Ok(status),
        };
        match names_of(rt.alloc(), end, &bytes) {
            Ok(names) => self.show_names(progress, list, names.as_slice(), out),
            Err(AllocError) => Ok(program.no_memory_for(rt, list)),
        }
    }

    // Shows the files of these names, which are in a list, and returns the worst status.
    fn show_names(
        &self,
        progress: &mut Progress,
        list: &str,
        names: &[&[u8]],
        out: &mut Out<W, B>,
    ) -> Result<u8, u8>
        ensures shown { IfOk result (λ worst. InOrder (λ name. ShowsListed (manner_in S.shows self.now) name.now) names.now out.old out.new worst) }
        ensures unwritten { IfErr result IsUnwritten }
    {
        let mut worst = 0u8;
        'names: for (index, name) in names.iter().enumerate() {
            let status = self.show_name(progress, list, index, name, out)?;
            worst = worse(worst, status);
        }
        Ok(worst)
    }

    // Shows the file of this name, which has this index in a list, and returns the status. An empty name is skipped.
    fn show_name(
        &self,
        progress: &mut Progress,
        list: &str,
        index: usize,
        name: &[u8],
        out: &mut Out<W, B>,
    ) -> Result<u8, u8>
        ensures shown { IfOk result (ShowsListed (manner_in S.shows self.now) name.now out.old out.new) }
        ensures unwritten { IfErr result IsUnwritten }
    {
        if name.is_empty() {
            return Ok(0);
        }
        match str::from_utf8(name) {
            Ok(file) => self.show_file(progress, file, out),
            Err(_) => Ok(self.refuse_name(list, index, name)),
        }
    }

    // Shows a file, and returns the status. If a call of many files takes long, a terminal shows which file begins.
    fn show_file(&self, progress: &mut Progress, file: &str, out: &mut Out<W, B>) -> Result<u8, u8>
        ensures shown { IfOk result (ShowsNamed (manner_in S.shows self.now) file.now out.old out.new) }
        ensures unwritten { IfErr result IsUnwritten }
    {
        let program = self.files.program;
        progress.begin(self.rt, program.name, file, &mut self.rt.stderr());
        match program.read(self.rt, file) {
            Ok(bytes) => self.show_bytes(file, &bytes, out),
            Err(status) => Ok(status),
        }
    }

    // Shows the bytes of a file, and returns the status.
    fn show_bytes(&self, file: &str, bytes: &[u8], out: &mut Out<W, B>) -> Result<u8, u8>
        ensures shown { IfOk result (ShowsBytes (manner_in S.shows self.now) file.now bytes.now out.old out.new) }
        ensures unwritten { IfErr result IsUnwritten }
    {
        if !self.files.has_parts {
            return self.show_itself(file, bytes, out);
        }
        let rt = self.rt;
        let Files { cpu, limit, .. } = self.files;
        let parts = parts_of(rt.alloc(), bytes);
        if is_missed(cpu, begins_archive(bytes), parts) {
            return Ok(self.refuse(file, Label::None, Refusal::NoEntry(cpu)));
        }
        let omitted = Omitted::of(limit, cpu, parts, parts_left_out(rt.alloc(), bytes));
        let worst = self.show_parts(file, bytes, SelectedParts::of(limit, cpu, parts), out)?;
        let _ = omitted.report(self.names(file), &mut rt.stderr());
        Ok(worse(worst, status(omitted.is_nothing())))
    }

    // Shows these parts of a file, and returns the worst status.
    fn show_parts(
        &self,
        file: &str,
        bytes: &[u8],
        parts: SelectedParts<'_>,
        out: &mut Out<W, B>,
    ) -> Result<u8, u8>
        ensures shown { IfOk result (InOrder (ShowsPart (manner_in S.shows self.now) file.now bytes.now) (within_left parts.entry) out.old out.new) }
        ensures unwritten { IfErr result IsUnwritten }
    {
        let mut worst = 0u8;
        'parts: for part in parts {
            let status = self.show_part(file, bytes, part, out)?;
            worst = worse(worst, status);
        }
        Ok(worst)
    }

    // Shows a part of a file that is selected, if it is not out of the file, and returns the status.
    fn show_part(
        &self,
        file: &str,
        bytes: &[u8],
        part: InputItem<'_>,
        out: &mut Out<W, B>,
    ) -> Result<u8, u8>
        ensures shown { IfOk result (ShowsPart (manner_in S.shows self.now) file.now bytes.now (input_item_read part.entry) out.old out.new) }
        ensures unwritten { IfErr result IsUnwritten }
    {
        let (rt, label) = (self.rt, Label::of(&part));
        match outside_at::<FatArch64>(bytes, part.place.entry) {
            Some(outside) => Ok(self.refuse(file, label, Refusal::OutOfFile(outside))),
            None => match shown_part(rt.alloc(), file, part) {
                Ok(ShownPart::Nothing) => Ok(0),
                Ok(ShownPart::Itself(bytes)) => self.show_itself(file, bytes, out),
                Ok(ShownPart::Within(name, bytes)) => {
                    self.show_named(file, name.as_str(), label, bytes, true, out)
                }
                Err(error) => Ok(self.refuse(file, label, Refusal::Fault(describe(&error)))),
            },
        }
    }

    // Shows a file itself, with a title if it may have one, and returns the status.
    fn show_itself(&self, file: &str, bytes: &[u8], out: &mut Out<W, B>) -> Result<u8, u8>
        ensures shown { IfOk result (
            ShowsTitled (manner_in S.shows self.now) self.now.are_several (file_itself file.now) bytes.now out.old out.new) }
        ensures unwritten { IfErr result IsUnwritten }
    {
        self.show_named(file, file, Label::None, bytes, self.are_several, out)
    }

    // Shows bytes under a name, those of what has a label in a file, with a title if they may have one, and returns the status.
    fn show_named(
        &self,
        file: &str,
        name: &str,
        label: Label<'_>,
        bytes: &[u8],
        is_titled: bool,
        out: &mut Out<W, B>,
    ) -> Result<u8, u8>
        ensures shown { IfOk result (ShowsTitled (manner_in S.shows self.now) is_titled
            (record { file = file.now; name = name.now; label = label_view label.entry }) bytes.now out.old out.new) }
        ensures unwritten { IfErr result IsUnwritten }
    {
        let rt = self.rt;
        let title = Title {
            file,
            name,
            label,
            is_nm: self.is_nm,
        };
        match title_of(rt.alloc(), self.has_title(is_titled, bytes), title) {
            Ok(text) => {
                put_title(out, text);
                unless_unwritten(self.shows.show(rt, name, bytes, out))
            }
            Err(AllocError) => Ok(self.files.program.no_memory_for(rt, name)),
        }
    }

    // Whether bytes that may have a title have one.
    fn has_title(&self, is_titled: bool, bytes: &[u8]) -> bool
        ensures { result ≡ have_title self.now.files self.now.is_nm is_titled bytes.now }
    {
        is_titled & self.files.has_titles & !(self.is_nm & begins_fat(bytes))
    }

    // Returns the names of the program and of a file.
    fn names<'f>(&self, file: &'f str) -> Names<'f> {
        Names {
            program: self.files.program.name,
            file,
        }
    }

    // Reports that a file, or a part with this label, is refused, and returns the status.
    fn refuse(&self, file: &str, label: Label<'_>, refusal: Refusal<'_>) -> u8
        ensures { result ≡ 1 }
    {
        let _ = complain(self.names(file), label, refusal, &mut self.rt.stderr());
        1
    }

    // Reports that a name in a list isn't text, and returns the status.
    fn refuse_name(&self, list: &str, index: usize, bytes: &[u8]) -> u8
        ensures { result ≡ 2 }
    {
        let names = self.names(list);
        let no_text = NoText {
            what: "name",
            number: index.saturating_add(1),
            bytes,
        };
        let _ = self.rt.eprintln(format_args!("{names}: {no_text}"));
        2
    }

    // Reports each argument that isn't text, and returns the status.
    fn refuse_words(&self, words: &[NoText<'_>]) -> u8
        ensures { result ≡ no_text_status words.now }
    {
        let program = self.files.program.name;
        for word in words {
            let _ = self.rt.eprintln(format_args!("{program}: {word}"));
        }
        if words.is_empty() { 0 } else { 2 }
    }
}
