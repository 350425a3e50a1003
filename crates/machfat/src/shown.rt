//! What is shown of a file.

ghost use Rattle.std.specs.Prelude.{◌≡◌, ◌≤◌, []};
ghost use Rattle.std.specs.Io.Buffered.{writer_buffer, writer_contents};
ghost use Rattle.mach_cli.specs.Bounds.{most_items};
ghost use Rattle.mach_cli.specs.Statuses.{IsStatus};
ghost use Rattle.machfat.specs.ShownFiles.{SaysOf};

use crate::commands::run_list;
use crate::json::run_list_json;
use crate::members::run_members;
use crate::verify::run_verify;
use mach_cli::FileView;
use std::alloc::{Allocator, Global};
use std::io::{BufWriter, Write};

/// What is shown of a file: its records as lines or as an object, the faults of its layout, or its members.
#[derive(Clone, Copy)]
pub enum Shown {
    Records,
    Object,
    Faults,
    Members,
}

/// What is shown of each file, and how many lines at most.
#[derive(Clone, Copy)]
pub struct Selected {
    pub shown: Shown,
    pub limit: usize,
}

impl Selected {
    // Shows what is selected of a file of a name, and returns the exit status.
    fn run<W: Write + Drop, B: Allocator, E: Write>(
        &self,
        alloc: Global,
        name: &str,
        bytes: &[u8],
        out: &mut BufWriter<W, B>,
        err: &mut E,
    ) -> u8
        ensures status { IsStatus result }
        ensures said { SaysOf self.now.shown (most_items self.now.limit bytes.now) name.now bytes.now (writer_contents W.contents out.old)
            (writer_contents W.contents out.new) (E.contents err.old) (E.contents err.new) result }
        ensures flushed { result ≤ 1 → writer_buffer out.new ≡ [] }
    {
        match self.shown {
            Shown::Records => run_list(alloc, self.limit, name, bytes, out, err),
            Shown::Object => run_list_json(alloc, self.limit, name, bytes, out, err),
            Shown::Faults => run_verify(alloc, self.limit, name, bytes, out, err),
            Shown::Members => run_members(alloc, self.limit, name, bytes, out, err),
        }
    }
}

impl<W: Write + Drop, B: Allocator> FileView<BufWriter<W, B>> for Selected {
    ghost use Rattle.machfat.specs.ShownFiles.{ShowsSelected};

    ghost shows = { λ s. ShowsSelected s W.contents };

    fn show(&self, rt: &HostRuntime, name: &str, bytes: &[u8], out: &mut BufWriter<W, B>) -> u8 {
        self.run(rt.alloc(), name, bytes, out, &mut rt.stderr())
    }
}
