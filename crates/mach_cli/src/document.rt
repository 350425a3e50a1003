//! Shows a file: its one image, or the items of a fat file in order.

ghost use Rattle.std.specs.Prelude.{◌≡◌, ◌≤◌, ℕ, List, [], Ok, None, true, option_map, IfOk, IfErr, IfNone, IfSome, OnOk};
ghost use Rattle.std.specs.Io.Buffered.{writer_buffer, writer_contents};
ghost use Rattle.std.specs.Io.KnownBytes.{Appends};
ghost use Rattle.mach_base.specs.Answer.{ErrorMeets};
ghost use Rattle.mach_base.specs.Fault.{Fault};
ghost use Rattle.goblin_mach.specs.FatFile.{FatFile};
ghost use Rattle.goblin_mach.specs.Image.{LossyFault};
ghost use Rattle.goblin_mach.specs.Items.{content_view, items_in};
ghost use Rattle.goblin_mach.specs.ItemsLeft.{input_item_read, input_items_left};
ghost use Rattle.goblin_mach.specs.OpenImage.{IsLossyImage};
ghost use Rattle.goblin_mach.specs.View.{IsReported, ViewFault};
ghost use Rattle.mach_cli.specs.Foreigners.{refused_words};
ghost use Rattle.mach_cli.specs.Held.{IsSubject};
ghost use Rattle.mach_cli.specs.Labels.{label_view};
ghost use Rattle.mach_cli.specs.Refusals.{refusal_reason};
ghost use Rattle.mach_cli.specs.Selected.{within_left};
ghost use Rattle.mach_cli.specs.Shown.{IsFatTable, IsMemberOrFile, OpensAfter, Prints, Shown, ShowsAfter, ShowsFile, ShowsImage, ShowsItem};
ghost use Rattle.mach_cli.specs.Shown.{ShowsItems, item_front, not_shown, refused_for, way_in};
ghost use Rattle.mach_cli.specs.Statuses.{IsStatus, status_by};
ghost use Rattle.mach_cli.specs.TableEntries.{outside_at};
ghost use Rattle.mach_parts.specs.ArchForms.{arch_form_32};

use crate::cpu::Cpu;
use crate::entries::{archs_left_out, archs_shown, outside_at};
use crate::failure::ShowFailure;
use crate::image_view::{ImageView, Outcome};
use crate::label::Label;
use crate::names::Names;
use crate::omitted::Omitted;
use crate::output::failed;
use crate::parts::Parts;
use crate::parts::selection::SelectedParts;
use crate::refusal::{Refusal, complain, refusal_of, refusal_of_content};
use crate::sink::Sink;
use goblin_mach::fat::FatArch;
use goblin_mach::{Content, Error, Images, Input, InputItem, Mach, MachO, Result, describe};
use std::alloc::{AllocError, Allocator, Global};
use std::io;
use std::io::{BufWriter, Write};

/// How a file is shown: what of its images a view prints, and how a sink puts this together.
#[derive(Clone, Copy)]
pub(crate) struct Document<'a, V, K> {
    pub rt: &'a HostRuntime,
    /// The names of the program and of the file.
    pub names: Names<'a>,
    /// The cpu whose images are selected.
    pub cpu: Cpu,
    /// Whether an image that strict mode refuses is shown as lossy mode opens it.
    pub is_lossy: bool,
    /// The number of lines for all images together, and of images (`most_images`).
    pub limit: usize,
    /// What is printed of an image.
    pub view: &'a V,
    /// What the images are put into.
    pub sink: K,
}

// What a file opened as.
#[derive(Drop)]
enum Subject<'a> {
    // One image.
    Image(MachO<'a>),
    // The items of a fat file, and the records of its table.
    Fat(Images<'a>, Vec<FatArch>),
}

// Opens a file; a fat one with its table.
fn open<'a>(alloc: Global, bytes: &'a [u8]) -> Result<Subject<'a>>
    ensures held { IfOk result (IsSubject bytes.now) }
    ensures refused { IfErr result (ErrorMeets (ViewFault bytes.now)) }
{
    let file = Mach::parse(alloc, bytes)?;
    match file {
        Mach::Binary(image) => Ok(Subject::Image(image)),
        Mach::Fat(container) => {
            let records = container.arches()?;
            let images = Input::Fat(container).images();
            Ok(Subject::Fat(images, records))
        }
    }
}

// Returns nothing, or a refused allocation if the error is one.
fn unless_memory(error: &Error) -> std::result::Result<(), AllocError>
    ensures { OnOk result (IsReported error.now) }
{
    match error {
        Error::Memory(_) => Err(AllocError),
        _ => Ok(()),
    }
}

impl<V: ImageView, K: Sink> Document<'_, V, K> {
    /// Shows the selected images of the file, and returns the exit status:
    /// - 0 if nothing was refused and each image is whole;
    /// - 1 if the file, an item of a fat file or memory was refused, which `err` explains in a line, or if an image is not whole;
    /// - 2 or 141 if a write fails (`failed`).
    ///
    /// Except after a failed write the buffer is flushed.
    pub fn run<W: Write + Drop, B: Allocator, E: Write>(
        &self,
        bytes: &[u8],
        out: &mut BufWriter<W, B>,
        err: &mut E,
    ) -> u8
        ensures status { IsStatus result }
        ensures shown { let d = self.now in result ≤ 1 → (shown : Shown) × ShowsFile (way_in K.texts V.lines d) d.cpu d.limit bytes.now shown
            × (result ≡ status_by shown.whole)
            × Appends (writer_contents W.contents out.old) (writer_contents W.contents out.new) shown.text
            × Appends (E.contents err.old) (E.contents err.new) shown.message }
        ensures flushed { result ≤ 1 → writer_buffer out.new ≡ [] }
    {
        match self.show_all(bytes, out, err) {
            Ok(outcome) => status(outcome.whole),
            Err(error) => failed(self.names.program, "", error, err),
        }
    }

    // Shows the file, and flushes the buffer.
    fn show_all<W: Write + Drop, B: Allocator, E: Write>(
        &self,
        bytes: &[u8],
        out: &mut BufWriter<W, B>,
        err: &mut E,
    ) -> io::Result<Outcome>
        ensures shown { let d = self.now in IfOk result (λ outcome. Prints (ShowsFile (way_in K.texts V.lines d) d.cpu d.limit bytes.now) outcome
            (writer_contents W.contents out.old) (writer_contents W.contents out.new) (E.contents err.old) (E.contents err.new)) }
        ensures flushed { OnOk result (writer_buffer out.new ≡ []) }
    {
        let outcome = self.show(bytes, out, err)?;
        out.flush()?;
        Ok(outcome)
    }

    // Shows the file.
    fn show<O: Write, E: Write>(
        &self,
        bytes: &[u8],
        out: &mut O,
        err: &mut E,
    ) -> io::Result<Outcome>
        ensures { let d = self.now in IfOk result (λ outcome. Prints (ShowsFile (way_in K.texts V.lines d) d.cpu d.limit bytes.now) outcome
            (O.contents out.old) (O.contents out.new) (E.contents err.old) (E.contents err.new)) }
    {
        let rt = self.rt;
        match open(rt.alloc(), bytes) {
            Ok(Subject::Image(image)) => self.show_one(&image, None, out, err),
            Ok(Subject::Fat(images, records)) => {
                self.show_fat(bytes, images, records.as_slice(), out, err)
            }
            Err(error) => {
                let refusal = refusal_of(bytes, &error);
                match self.open_lossy(bytes, &error) {
                    Ok(Some(image)) => self.show_one(&image, Some(refusal), out, err),
                    Ok(None) => self.refuse(refusal, out, err),
                    Err(AllocError) => self.refuse(Refusal::Memory, out, err),
                }
            }
        }
    }

    // Opens in lossy mode, if that is selected, an image that strict mode refused for this error. The error is a refused allocation.
    fn open_lossy<'b>(
        &self,
        bytes: &'b [u8],
        error: &Error,
    ) -> std::result::Result<Option<MachO<'b>>, AllocError>
        ensures opened { IfOk result (λ found. IfSome found (λ image. (self.now.is_lossy ≡ true) × IsLossyImage bytes.now 0 image)) }
        ensures reported { OnOk result (IsReported error.now) }
        ensures refused { IfOk result (λ found. IfNone found (self.now.is_lossy ≡ true → (f : Fault) × LossyFault bytes.now 0 f)) }
    {
        unless_memory(error)?;
        if !self.is_lossy {
            return Ok(None);
        }
        let rt = self.rt;
        match MachO::parse_lossy(rt.alloc(), bytes, 0) {
            Ok(image) => Ok(Some(image)),
            Err(again) => {
                unless_memory(&again)?;
                Ok(None)
            }
        }
    }

    // Shows a file that is one image, if it is selected, after the refusal of strict mode, if there is one.
    fn show_one<O: Write, E: Write>(
        &self,
        image: &MachO<'_>,
        refused: Option<Refusal<'_>>,
        out: &mut O,
        err: &mut E,
    ) -> io::Result<Outcome>
        ensures { let d = self.now in (bytes : List ℕ) → IsLossyImage bytes 0 image.now
            → OpensAfter d.is_lossy bytes (ViewFault bytes) (refused_words bytes) (option_map refusal_reason refused.entry)
            → IfOk result (λ outcome. Prints (ShowsFile (way_in K.texts V.lines d) d.cpu d.limit bytes) outcome
            (O.contents out.old) (O.contents out.new) (E.contents err.old) (E.contents err.new)) }
    {
        let header = image.header;
        if !self.cpu.takes(header.cputype, header.cpusubtype) {
            return self.refuse(Refusal::OtherImage(self.cpu), out, err);
        }
        self.sink.begin_file(0, out)?;
        self.begin(true, Label::None, out)?;
        let outcome = self.show_opened(Label::None, image, refused, self.limit, out, err)?;
        self.sink.end_file(false, "image", self.names.file, out)?;
        Ok(outcome)
    }

    // Shows a fat file with these items and records, if one of its entries is selected.
    fn show_fat<O: Write, E: Write>(
        &self,
        bytes: &[u8],
        images: Images<'_>,
        records: &[FatArch],
        out: &mut O,
        err: &mut E,
    ) -> io::Result<Outcome>
        ensures { let d = self.now in (table : FatFile) → IsFatTable bytes.now table records.now → input_items_left images.entry ≡ items_in bytes.now
            → IfOk result (λ outcome. Prints (ShowsFile (way_in K.texts V.lines d) d.cpu d.limit bytes.now) outcome
            (O.contents out.old) (O.contents out.new) (E.contents err.old) (E.contents err.new)) }
    {
        if self.cpu.misses(records) {
            return self.refuse(Refusal::NoEntry(self.cpu), out, err);
        }
        let parts = Parts::within(images, archs_shown(bytes, records));
        let left_out = archs_left_out(bytes, records);
        let omitted = Omitted::of(self.limit, self.cpu, parts, left_out);
        let items = SelectedParts::of(self.limit, self.cpu, parts);
        self.sink.begin_file(left_out, out)?;
        let outcome = self.show_items(bytes, items, out, err)?;
        self.sink
            .end_file(omitted.is_cut, "fat file", self.names.file, out)?;
        omitted.report(self.names, err)?;
        Ok(Outcome {
            whole: outcome.whole & omitted.is_nothing(),
            left: outcome.left,
        })
    }

    // Shows these items of a file.
    fn show_items<O: Write, E: Write>(
        &self,
        bytes: &[u8],
        items: SelectedParts<'_>,
        out: &mut O,
        err: &mut E,
    ) -> io::Result<Outcome>
        ensures { let d = self.now in IfOk result (λ outcome. Prints (ShowsItems (way_in K.texts V.lines d) bytes.now true d.limit (within_left items.entry))
            outcome (O.contents out.old) (O.contents out.new) (E.contents err.old) (E.contents err.new)) }
    {
        let mut whole = true;
        let mut left = self.limit;
        let mut is_first = true;
        'items: for item in items {
            let label = Label::of(&item);
            self.begin(is_first, label, out)?;
            let outcome = self.show_placed(bytes, label, item, left, out, err)?;
            is_first = false;
            whole &= outcome.whole;
            left = outcome.left;
        }
        Ok(Outcome { whole, left })
    }

    // Begins an image with this label, apart from those before it.
    fn begin<O: Write>(&self, is_first: bool, label: Label<'_>, out: &mut O) -> io::Result<()>
        ensures { OnOk result (Appends (O.contents out.old) (O.contents out.new)
            (item_front K.texts self.now.names.file.now is_first (label_view label.entry))) }
    {
        if is_first {
            return self.sink.begin_image(self.names.file, label, out);
        }
        self.sink.separate(out)?;
        self.sink.begin_image(self.names.file, label, out)
    }

    // Shows an item of a file, which is begun under this label, or reports that it is out of the file.
    fn show_placed<O: Write, E: Write>(
        &self,
        bytes: &[u8],
        label: Label<'_>,
        item: InputItem<'_>,
        left: usize,
        out: &mut O,
        err: &mut E,
    ) -> io::Result<Outcome>
        ensures { let x = input_item_read item.entry in IfOk result (λ outcome. Prints (ShowsItem (way_in K.texts V.lines self.now) left
            (label_view label.entry) (outside_at arch_form_32 bytes.now x.place.entry) x.content) outcome
            (O.contents out.old) (O.contents out.new) (E.contents err.old) (E.contents err.new)) }
    {
        match outside_at::<FatArch>(bytes, item.place.entry) {
            None => self.show_item(label, item, left, out, err),
            Some(outside) => {
                self.refuse_image(label, Refusal::OutOfFile(outside), left, out, err)
            }
        }
    }

    // Shows an item that is begun under this label.
    fn show_item<O: Write, E: Write>(
        &self,
        label: Label<'_>,
        item: InputItem<'_>,
        left: usize,
        out: &mut O,
        err: &mut E,
    ) -> io::Result<Outcome>
        ensures { let x = input_item_read item.entry in IfOk result (λ outcome. Prints (ShowsItem (way_in K.texts V.lines self.now) left
            (label_view label.entry) None x.content) outcome (O.contents out.old) (O.contents out.new) (E.contents err.old) (E.contents err.new)) }
    {
        match item.content {
            Ok(Content::NoMember) => {
                self.sink.end_archive(out)?;
                Ok(Outcome { whole: true, left })
            }
            Ok(Content::File(bytes)) => {
                self.show_content(label, Content::File(bytes), left, out, err)
            }
            Ok(Content::Member(member)) => {
                self.show_content(label, Content::Member(member), left, out, err)
            }
            Err(error) => {
                let refusal = Refusal::Fault(describe(&error));
                self.refuse_image(label, refusal, left, out, err)
            }
        }
    }

    // Shows the image in the content of an item that is begun under this label.
    fn show_content<O: Write, E: Write>(
        &self,
        label: Label<'_>,
        content: Content<'_>,
        left: usize,
        out: &mut O,
        err: &mut E,
    ) -> io::Result<Outcome>
        ensures { let view = content_view content.entry in IsMemberOrFile view
            → IfOk result (λ outcome. Prints (ShowsItem (way_in K.texts V.lines self.now) left (label_view label.entry) None (Ok view)) outcome
            (O.contents out.old) (O.contents out.new) (E.contents err.old) (E.contents err.new)) }
    {
        let rt = self.rt;
        match content.open(rt.alloc()) {
            Ok(image) => self.show_opened(label, &image, None, left, out, err),
            Err(error) => {
                let refusal = refusal_of_content(content, &error);
                match self.open_lossy(content.bytes(), &error) {
                    Ok(Some(image)) => {
                        self.show_opened(label, &image, Some(refusal), left, out, err)
                    }
                    Ok(None) => self.refuse_image(label, refusal, left, out, err),
                    Err(AllocError) => { self.refuse_image(label, Refusal::Memory, left, out, err) }
                }
            }
        }
    }

    // Reports the refusal of strict mode, if there is one, and shows an image that is begun under this label.
    fn show_opened<O: Write, E: Write>(
        &self,
        label: Label<'_>,
        image: &MachO<'_>,
        refused: Option<Refusal<'_>>,
        left: usize,
        out: &mut O,
        err: &mut E,
    ) -> io::Result<Outcome>
        ensures { (bytes : List ℕ) → IsLossyImage bytes 0 image.now → IfOk result (λ outcome.
            Prints (ShowsAfter (way_in K.texts V.lines self.now) left (label_view label.entry) bytes (option_map refusal_reason refused.entry))
            outcome (O.contents out.old) (O.contents out.new) (E.contents err.old) (E.contents err.new)) }
    {
        let Some(refusal) = refused else {
            return self.show_image(label, image, left, out, err);
        };
        complain(self.names, label, refusal, err)?;
        let mut outcome = self.show_image(label, image, left, out, err)?;
        outcome.whole = false;
        Ok(outcome)
    }

    // Shows an image that is begun under this label.
    fn show_image<O: Write, E: Write>(
        &self,
        label: Label<'_>,
        image: &MachO<'_>,
        left: usize,
        out: &mut O,
        err: &mut E,
    ) -> io::Result<Outcome>
        ensures { (bytes : List ℕ) → IsLossyImage bytes 0 image.now
            → IfOk result (λ outcome. Prints (ShowsImage (way_in K.texts V.lines self.now) left (label_view label.entry) bytes) outcome
            (O.contents out.old) (O.contents out.new) (E.contents err.old) (E.contents err.new)) }
    {
        let Document {
            rt,
            names,
            limit,
            ..
        } = *self;
        match self
            .view
            .show(&rt.alloc(), names.file, image, limit, left, out)
        {
            Ok(outcome) => {
                self.sink.end_image(out)?;
                Ok(outcome)
            }
            Err(ShowFailure::Memory) => self.refuse_image(label, Refusal::Memory, left, out, err),
            Err(ShowFailure::Unwritten(error)) => Err(error),
        }
    }

    // Writes, in place of an image's output, why it isn't shown, and reports it.
    fn refuse_image<O: Write, E: Write>(
        &self,
        label: Label<'_>,
        refusal: Refusal<'_>,
        left: usize,
        out: &mut O,
        err: &mut E,
    ) -> io::Result<Outcome>
        ensures { let w = way_in K.texts V.lines self.now in IfOk result (λ outcome.
            Prints (λ shown. shown ≡ not_shown w (label_view label.entry) (refusal_reason refusal.entry) left) outcome
            (O.contents out.old) (O.contents out.new) (E.contents err.old) (E.contents err.new)) }
    {
        self.sink.refuse_image(label, refusal, out)?;
        complain(self.names, label, refusal, err)?;
        Ok(Outcome { whole: false, left })
    }

    // Writes why nothing is shown of the file, and reports it.
    fn refuse<O: Write, E: Write>(
        &self,
        refusal: Refusal<'_>,
        out: &mut O,
        err: &mut E,
    ) -> io::Result<Outcome>
        ensures { let d = self.now in IfOk result (λ outcome.
            Prints (λ shown. shown ≡ refused_for (way_in K.texts V.lines d) (refusal_reason refusal.entry) d.limit) outcome
            (O.contents out.old) (O.contents out.new) (E.contents err.old) (E.contents err.new)) }
    {
        self.sink.refuse_file(self.names.file, refusal, out)?;
        complain(self.names, Label::None, refusal, err)?;
        Ok(Outcome {
            whole: false,
            left: self.limit,
        })
    }
}

/// Returns the status of a complete output, by whether it is whole.
pub(crate) fn status(whole: bool) -> u8
    ensures { result ≡ status_by whole }
{
    if whole { 0 } else { 1 }
}
