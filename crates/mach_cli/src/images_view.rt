//! What a call shows of the images of each file.

use crate::bounds::most_items;
use crate::cpu::Cpu;
use crate::document::Document;
use crate::files::FileView;
use crate::image_view::ImageView;
use crate::names::Names;
use crate::program::Program;
use crate::sink::Sink;
use std::alloc::Allocator;
use std::io::{BufWriter, Write};

/// What a call shows of each file: of its selected images what a view prints, put together by a sink. Of a file it shows at most
/// `limit` lines, and no more than the file has bytes.
#[derive(Clone, Copy)]
pub struct ImagesView<V, K> {
    /// The program that is called.
    pub program: Program,
    /// The cpu whose images are selected.
    pub cpu: Cpu,
    /// Whether an image that strict mode refuses is shown as lossy mode opens it.
    pub is_lossy: bool,
    /// The number of lines for all images of a file together.
    pub limit: usize,
    /// What is printed of an image.
    pub view: V,
    /// What the images are put into.
    pub sink: K,
}

impl<V: ImageView, K: Sink, W: Write + Drop, B: Allocator> FileView<BufWriter<W, B>>
    for ImagesView<V, K> {
    ghost use Rattle.mach_cli.specs.ShownCalls.{ShowsImages};

    ghost shows = { λ s. ShowsImages K.texts s.program.name.now s.cpu s.is_lossy s.limit (V.lines s.view) W.contents };

    fn show(&self, rt: &HostRuntime, name: &str, bytes: &[u8], out: &mut BufWriter<W, B>) -> u8 {
        let document = Document {
            rt,
            names: Names {
                program: self.program.name,
                file: name,
            },
            cpu: self.cpu,
            is_lossy: self.is_lossy,
            limit: most_items(self.limit, bytes),
            view: &self.view,
            sink: self.sink,
        };
        document.run(bytes, out, &mut rt.stderr())
    }
}
