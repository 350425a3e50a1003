//! The `Debug` format of an image.

use crate::macho::MachO;
use mach_base::ByteCount;
use std::alloc::Allocator;
use std::fmt;
use std::fmt::{Debug, DebugStruct, Formatter, Write};

impl<'a, A: Allocator> MachO<'a, A> {
    // Formats the header and the commands.
    fn show_commands<W: Write>(&self, shown: &mut DebugStruct<W>) {
        shown
            .field("header", &self.header)
            .field("load_commands", &self.load_commands);
    }

    // Formats the lists.
    fn show_lists<W: Write>(&self, shown: &mut DebugStruct<W>) {
        shown
            .field("segments", &self.segments)
            .field("symbols", &self.symbols)
            .field("libs", &self.libs)
            .field("rpaths", &self.rpaths);
    }

    // Formats the entry, the name and the kind of the image.
    fn show_words<W: Write>(&self, shown: &mut DebugStruct<W>) {
        shown
            .field("entry", &self.entry)
            .field("old_style_entry", &self.old_style_entry)
            .field("name", &self.name)
            .field("little_endian", &self.little_endian)
            .field("is_64", &self.is_64);
    }

    // Formats what the image's methods read.
    fn show_source<W: Write>(&self, shown: &mut DebugStruct<W>) {
        shown
            .field("has_export_trie", &self.export_trie.is_some())
            .field("has_binds", &self.bind_interpreter.is_some())
            .field("bytes", &ByteCount(self.bytes))
            .field("ctx", &self.ctx);
    }
}

impl<'a, A: Allocator> Debug for MachO<'a, A> {
    /// Formats what was read of the image, and whether it has a trie and binds; of its bytes only their number.
    fn fmt<W: Write>(&self, f: &mut Formatter<W>) -> fmt::Result {
        let mut shown = f.debug_struct("MachO");
        self.show_commands(&mut shown);
        self.show_lists(&mut shown);
        self.show_words(&mut shown);
        self.show_source(&mut shown);
        shown.finish()
    }
}
