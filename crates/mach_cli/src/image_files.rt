//! How a call shows the images of its files, as text or as JSON.

ghost use Rattle.std.specs.Prelude.{◌≡◌, true};
ghost use Rattle.mach_cli.specs.Bounds.{limit_of};
ghost use Rattle.mach_cli.specs.Calls.{is_json};
ghost use Rattle.mach_cli.specs.ShownCalls.{files_of};

use crate::call::Call;
use crate::cpu::Cpu;
use crate::files::Files;
use crate::images_view::ImagesView;
use crate::program::Program;
use crate::sink::{Json, NmText, Text};
use std::alloc::Global;

/// How a call shows the images of its files: the lines of one view as text, or the objects of another as JSON.
#[derive(Clone, Copy)]
pub struct ImageFiles<T, J> {
    /// The program that is called.
    pub program: Program,
    /// The cpu whose images are selected.
    pub cpu: Cpu,
    /// Whether an image that strict mode refuses is shown as lossy mode opens it.
    pub is_lossy: bool,
    /// The number of lines or rows of a file.
    pub limit: usize,
    /// Whether objects are shown.
    pub is_json: bool,
    /// Whether text may have titles.
    pub has_titles: bool,
    /// The lines of an image.
    pub lines: T,
    /// The members of an image's object.
    pub objects: J,
}

impl<T: Copy, J: Copy> ImageFiles<T, J> {
    /// Returns how a call shows its files, with titles: the lines of one view, or with `--json` the objects of another; at most
    /// `most` of a file if no limit is given.
    pub fn of<O>(
        program: Program,
        call: &Call<'_, Global, O>,
        most: usize,
        lines: T,
        objects: J,
    ) -> Self
        ensures { let c = call.now in result ≡ record {
          program = program;
          cpu = c.cpu;
          is_lossy = c.is_lossy;
          limit = limit_of c.limit most;
          is_json = is_json c.format;
          has_titles = true;
          lines = lines;
          objects = objects;
        } }
    {
        ImageFiles {
            program,
            cpu: call.cpu,
            is_lossy: call.is_lossy,
            limit: call.limit.unwrap_or(most),
            is_json: call.format.is_json(),
            has_titles: true,
            lines,
            objects,
        }
    }

    /// Returns how the files are shown: part by part, without titles if objects are shown.
    pub fn files(&self) -> Files
        ensures { result ≡ files_of self.now }
    {
        Files {
            program: self.program,
            cpu: self.cpu,
            has_titles: self.has_titles & !self.is_json,
            has_parts: true,
            limit: self.limit,
        }
    }

    /// Returns what is shown of each file as text.
    pub fn as_text(&self) -> ImagesView<T, Text>
        ensures { let s = self.now in result ≡
            record { program = s.program; cpu = s.cpu; is_lossy = s.is_lossy; limit = s.limit; view = s.lines; sink = record {} } }
    {
        ImagesView {
            program: self.program,
            cpu: self.cpu,
            is_lossy: self.is_lossy,
            limit: self.limit,
            view: self.lines,
            sink: Text,
        }
    }

    /// Returns what is shown of each file as text, under the headings of `llvm-nm`.
    pub fn as_nm(&self) -> ImagesView<T, NmText>
        ensures { let s = self.now in result ≡
            record { program = s.program; cpu = s.cpu; is_lossy = s.is_lossy; limit = s.limit; view = s.lines; sink = record {} } }
    {
        ImagesView {
            program: self.program,
            cpu: self.cpu,
            is_lossy: self.is_lossy,
            limit: self.limit,
            view: self.lines,
            sink: NmText,
        }
    }

    /// Returns what is shown of each file as JSON.
    pub fn as_json(&self) -> ImagesView<J, Json>
        ensures { let s = self.now in result ≡
            record { program = s.program; cpu = s.cpu; is_lossy = s.is_lossy; limit = s.limit; view = s.objects; sink = record {} } }
    {
        ImagesView {
            program: self.program,
            cpu: self.cpu,
            is_lossy: self.is_lossy,
            limit: self.limit,
            view: self.objects,
            sink: Json,
        }
    }
}
