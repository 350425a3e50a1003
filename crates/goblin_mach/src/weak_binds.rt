//! The stream of weak binds of an image.

ghost use Rattle.goblin_mach.specs.ImageStreams.{weak_stream_by};

use crate::readings::Subject;
use mach_base::Result;
use mach_dyld::WeakBindStream;
use mach_load::{CommandVariant, LoadCommand};

/// The stream of weak binds of the image.
#[derive(Clone, Copy)]
pub struct WeakBindStreams<'a> {
    pub bytes: &'a [u8],
}

impl<'a> Subject for WeakBindStreams<'a> {
    type Value = WeakBindStream<'a>;

    ghost use Rattle.mach_dyld.specs.Cut.{CutStream};

    ghost Seen = { CutStream };

    ghost seen = { λ stream. stream };

    ghost reading = { λ s. weak_stream_by s.bytes.now };

    /// Reads the command. It never fails.
    fn read(&self, command: &LoadCommand) -> Option<Result<WeakBindStream<'a>>> {
        match &command.command {
            CommandVariant::DyldInfo(c) | CommandVariant::DyldInfoOnly(c) => {
                Some(Ok(WeakBindStream::new(self.bytes, c)))
            }
            _ => None,
        }
    }
}
