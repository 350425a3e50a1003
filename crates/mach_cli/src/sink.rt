//! How a file and its images are written: as text, or as JSON (RFC 8259).

ghost use Rattle.std.specs.Prelude.{◌≡◌, OnOk};
ghost use Rattle.std.specs.Io.KnownBytes.{Appends};
ghost use Rattle.mach_cli.specs.Labels.{label_view};
ghost use Rattle.mach_cli.specs.Refusals.{refusal_reason};
ghost use Rattle.mach_cli.specs.Sinks.{json_texts, nm_texts, text_texts};

use crate::json::text::JsonString;
use crate::label::{Label, LabelLine, ObjectFront};
use crate::nm_heading::NmHeading;
use crate::refusal::Refusal;
use std::io;
use std::io::Write;

/// Writes what the images of a file are put into. The output of an image itself is a program's.
pub trait Sink: Copy {
    ghost use Rattle.std.specs.Prelude.{OnOk};
    ghost use Rattle.std.specs.Io.KnownBytes.{Appends};
    ghost use Rattle.mach_cli.specs.Labels.{label_view};
    ghost use Rattle.mach_cli.specs.Refusals.{refusal_reason};
    ghost use Rattle.mach_cli.specs.Sinks.{SinkTexts};

    ghost texts: { SinkTexts };

    /// Begins a file that has images, of whose entries so many are left out.
    fn begin_file<O: Write>(&self, left_out: usize, out: &mut O) -> io::Result<()>
        ensures { OnOk result (Appends (O.contents out.old) (O.contents out.new) (texts.file_front left_out)) };

    /// Ends a file of this kind and name. It says whether the limit leaves out more of its images.
    fn end_file<O: Write>(
        &self,
        is_cut: bool,
        kind: &str,
        name: &str,
        out: &mut O,
    ) -> io::Result<()>
        ensures { OnOk result (Appends (O.contents out.old) (O.contents out.new) (texts.file_end is_cut kind.now name.now)) };

    /// Writes, in place of its images, why nothing is shown of a file of this name.
    fn refuse_file<O: Write>(&self, name: &str, refusal: Refusal<'_>, out: &mut O) -> io::Result<()>
        ensures { OnOk result (Appends (O.contents out.old) (O.contents out.new) (texts.refused_file name.now (refusal_reason refusal.entry))) };

    /// Writes what is between two images.
    fn separate<O: Write>(&self, out: &mut O) -> io::Result<()>
        ensures { OnOk result (Appends (O.contents out.old) (O.contents out.new) texts.separator) };

    /// Begins an image with this label, of a file of this name.
    fn begin_image<O: Write>(&self, name: &str, label: Label<'_>, out: &mut O) -> io::Result<()>
        ensures { OnOk result (Appends (O.contents out.old) (O.contents out.new) (texts.image_front name.now (label_view label.entry))) };

    /// Ends an image whose output is written.
    fn end_image<O: Write>(&self, out: &mut O) -> io::Result<()>
        ensures { OnOk result (Appends (O.contents out.old) (O.contents out.new) texts.image_end) };

    /// Writes, in place of an image's output, that it is an archive without members, and ends it.
    fn end_archive<O: Write>(&self, out: &mut O) -> io::Result<()>
        ensures { OnOk result (Appends (O.contents out.old) (O.contents out.new) texts.archive) };

    /// Writes, in place of its output, why an image with this label isn't shown, and ends it.
    fn refuse_image<O: Write>(
        &self,
        label: Label<'_>,
        refusal: Refusal<'_>,
        out: &mut O,
    ) -> io::Result<()>
        ensures { OnOk result (Appends (O.contents out.old) (O.contents out.new)
            (texts.refused_image (label_view label.entry) (refusal_reason refusal.entry))) };
}

/// Text: each image of a fat file has a line with its label above it.
#[derive(Clone, Copy)]
pub struct Text;

impl Sink for Text {
    ghost texts = { text_texts };

    fn begin_file<O: Write>(&self, _left_out: usize, _out: &mut O) -> io::Result<()> {
        Ok(())
    }

    fn end_file<O: Write>(
        &self,
        _is_cut: bool,
        _kind: &str,
        _name: &str,
        _out: &mut O,
    ) -> io::Result<()> {
        Ok(())
    }

    fn refuse_file<O: Write>(
        &self,
        _name: &str,
        _refusal: Refusal<'_>,
        _out: &mut O,
    ) -> io::Result<()> {
        Ok(())
    }

    fn separate<O: Write>(&self, _out: &mut O) -> io::Result<()> {
        Ok(())
    }

    fn begin_image<O: Write>(&self, _name: &str, label: Label<'_>, out: &mut O) -> io::Result<()> {
        let line = LabelLine(label);
        write!(out, "{line}")
    }

    fn end_image<O: Write>(&self, _out: &mut O) -> io::Result<()> {
        Ok(())
    }

    fn end_archive<O: Write>(&self, out: &mut O) -> io::Result<()> {
        writeln!(out, "archive")
    }

    fn refuse_image<O: Write>(
        &self,
        label: Label<'_>,
        refusal: Refusal<'_>,
        out: &mut O,
    ) -> io::Result<()> {
        match label {
            Label::None => Ok(()),
            Label::Entry(_, _) | Label::Member(_, _, _) => writeln!(out, "refused: {refusal}"),
        }
    }
}

/// Text as `llvm-nm` has it: each image of a fat file has a heading with the file's name and the cpu. All else is as in `Text`.
#[derive(Clone, Copy)]
pub struct NmText;

impl Sink for NmText {
    ghost texts = { nm_texts };

    fn begin_file<O: Write>(&self, left_out: usize, out: &mut O) -> io::Result<()> {
        Text.begin_file(left_out, out)
    }

    fn end_file<O: Write>(
        &self,
        is_cut: bool,
        kind: &str,
        name: &str,
        out: &mut O,
    ) -> io::Result<()> {
        Text.end_file(is_cut, kind, name, out)
    }

    fn refuse_file<O: Write>(
        &self,
        name: &str,
        refusal: Refusal<'_>,
        out: &mut O,
    ) -> io::Result<()> {
        Text.refuse_file(name, refusal, out)
    }

    fn separate<O: Write>(&self, out: &mut O) -> io::Result<()> {
        Text.separate(out)
    }

    fn begin_image<O: Write>(&self, name: &str, label: Label<'_>, out: &mut O) -> io::Result<()> {
        let heading = NmHeading { file: name, label };
        write!(out, "{heading}")
    }

    fn end_image<O: Write>(&self, out: &mut O) -> io::Result<()> {
        Text.end_image(out)
    }

    fn end_archive<O: Write>(&self, out: &mut O) -> io::Result<()> {
        Text.end_archive(out)
    }

    fn refuse_image<O: Write>(
        &self,
        label: Label<'_>,
        refusal: Refusal<'_>,
        out: &mut O,
    ) -> io::Result<()> {
        Text.refuse_image(label, refusal, out)
    }
}

/// JSON: one object on a line for each file, with an array of the objects of its images.
#[derive(Clone, Copy)]
pub struct Json;

impl Sink for Json {
    ghost texts = { json_texts };

    fn begin_file<O: Write>(&self, left_out: usize, out: &mut O) -> io::Result<()> {
        if left_out == 0 {
            return write!(out, "{{\"images\":[");
        }
        write!(out, "{{\"entries_left_out\":{left_out},\"images\":[")
    }

    fn end_file<O: Write>(
        &self,
        is_cut: bool,
        kind: &str,
        name: &str,
        out: &mut O,
    ) -> io::Result<()> {
        let name = JsonString(name);
        let cut = if is_cut { ",\"limit_met\":true" } else { "" };
        writeln!(out, "],\"kind\":\"{kind}\"{cut},\"name\":{name}}}")
    }

    fn refuse_file<O: Write>(
        &self,
        name: &str,
        refusal: Refusal<'_>,
        out: &mut O,
    ) -> io::Result<()> {
        let name = JsonString(name);
        writeln!(
            out,
            "{{\"error\":\"{refusal}\",\"images\":[],\"name\":{name}}}"
        )
    }

    fn separate<O: Write>(&self, out: &mut O) -> io::Result<()> {
        write!(out, ",")
    }

    fn begin_image<O: Write>(&self, _name: &str, label: Label<'_>, out: &mut O) -> io::Result<()> {
        let front = ObjectFront(label);
        write!(out, "{front}")
    }

    fn end_image<O: Write>(&self, out: &mut O) -> io::Result<()> {
        write!(out, "}}")
    }

    fn end_archive<O: Write>(&self, out: &mut O) -> io::Result<()> {
        write!(out, "\"kind\":\"archive\"}}")
    }

    fn refuse_image<O: Write>(
        &self,
        _label: Label<'_>,
        refusal: Refusal<'_>,
        out: &mut O,
    ) -> io::Result<()> {
        write!(out, "\"error\":\"{refusal}\"}}")
    }
}
