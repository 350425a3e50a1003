//! How `Debug` prints a segment.

use crate::segment::Segment;
use mach_base::ByteCount;
use std::fmt;

impl fmt::Debug for Segment<'_> {
    /// Prints the fields, with the number of bytes instead of the data and of the file.
    fn fmt<W: fmt::Write>(&self, f: &mut fmt::Formatter<W>) -> fmt::Result {
        f.debug_struct("Segment")
            .field("cmd", &self.cmd)
            .field("cmdsize", &self.cmdsize)
            .field("segname", &self.segname)
            .field("vmaddr", &self.vmaddr)
            .field("vmsize", &self.vmsize)
            .field("fileoff", &self.fileoff)
            .field("filesize", &self.filesize)
            .field("maxprot", &self.maxprot)
            .field("initprot", &self.initprot)
            .field("nsects", &self.nsects)
            .field("flags", &self.flags)
            .field("bytes", &ByteCount(self.bytes))
            .field("file", &ByteCount(self.file))
            .field("offset", &self.offset)
            .field("ctx", &self.ctx)
            .finish()
    }
}
