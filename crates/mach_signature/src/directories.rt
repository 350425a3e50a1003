//! The code directories of a signature, and the one that counts.

ghost use Rattle.std.specs.Prelude.{◌≡◌, ◌<◌, [], Option, None, option_to_list, IfErr};
ghost use Rattle.mach_base.specs.Items.{read_as};
ghost use Rattle.mach_signature.specs.DirectoryViews.{directory_view};
ghost use Rattle.std.specs.Option.{option_map};
ghost use Rattle.mach_base.specs.Answer.{Reads};
ghost use Rattle.mach_signature.specs.Chosen as defined;
ghost use Rattle.mach_signature.specs.ChosenViews.{directories_left};

use crate::directory::CodeDirectory;
use crate::numbered::{Numbered, NumberedFaults};
use crate::signature::CodeSignature;
use crate::slots::is_directory_slot;
use mach_base::{Error, Result};

// The blobs of a signature; those of directory slots are reported.
#[derive(Clone, Copy, Drop)]
pub struct DirectoryBlobs<'a> {
    pub signature: CodeSignature<'a>,
}

impl<'a> Numbered for DirectoryBlobs<'a> {
    type Item = (u32, Result<CodeDirectory<'a>>);

    ghost use Rattle.mach_signature.specs.Chosen.{SlotDirectory};
    ghost use Rattle.mach_signature.specs.ChosenViews.{slot_directory_read, blob_count, directory_reported};

    ghost View = { SlotDirectory };

    ghost view = { slot_directory_read };

    ghost count = { blob_count };

    ghost reports = { directory_reported };

    fn count(&self) -> u32 {
        self.signature.count
    }

    fn report(&self, number: u32) -> Option<(u32, Result<CodeDirectory<'a>>)> {
        let slot = self.signature.slot(number);
        if !is_directory_slot(slot) {
            return None;
        }
        Some((slot, self.signature.directory_in(number)))
    }
}

/// An iterator over the code directories of a signature with their slots, in the order of its index.
#[derive(Clone, Drop)]
pub struct Directories<'a> {
    pub(crate) reported: NumberedFaults<DirectoryBlobs<'a>>,
}

impl<'a> Directories<'a> {
    // An iterator over none of a signature's directories.
    #[tactic(auto, using(crate::proofs::NumberedLists::reported_none))]
    pub(crate) fn none(signature: CodeSignature<'a>) -> Directories<'a>
        ensures { directories_left result ≡ [] }
    {
        Directories {
            reported: NumberedFaults {
                things: DirectoryBlobs { signature },
                next: signature.count,
            },
        }
    }
}

impl<'a> Iterator for Directories<'a> {
    type Item = (u32, Result<CodeDirectory<'a>>);

    ghost use Rattle.std.specs.Iterator.{YieldsFirstBy, item_count};
    ghost use Rattle.mach_signature.specs.ChosenViews.{slot_directory_read};

    ghost next_gives = { YieldsFirstBy slot_directory_read directories_left };

    ghost remaining = { item_count directories_left };

    fn next(&mut self) -> Option<(u32, Result<CodeDirectory<'a>>)> {
        self.reported.take_next()
    }
}

// Returns the directory if it can be read and its hash has the given rank.
fn if_of_rank(directory: Result<CodeDirectory<'_>>, rank: u8) -> Option<CodeDirectory<'_>>
    ensures { option_to_list (option_map directory_view result) ≡ defined.filter_rank rank (defined.readable_one (read_as directory_view directory.entry)) }
{
    match directory {
        Ok(directory) if directory.hash.rank() == rank => Some(directory),
        _ => None,
    }
}

impl<'a> CodeSignature<'a> {
    ghost use Rattle.mach_signature.specs.SignViews.{signature_view};
    ghost use Rattle.mach_signature.specs.Chosen.{directories_of, directory_in, first_refused, of_rank, highest_of, directory_of};
    ghost use Rattle.mach_signature.specs.Chosen.{two_of_one_hash, words_of_none, SaysWords, SaysNoneCounts};

    // Reads a blob as a code directory.
    #[tactic(auto, unfolding(crate::specs::Chosen::directory_in))]
    fn directory_in(&self, index: u32) -> Result<CodeDirectory<'a>>
        requires { index < self.now.count }
        ensures { Reads directory_view result (directory_in (signature_view self.now) index) }
    {
        CodeDirectory::parse(self.blob_at(index)?.bytes)
    }

    /// Returns the code directories with their slots, in the order of the index. Their slots are 0 and the alternate ones, 0x1000 to 0x1004.
    pub fn directories(&self) -> Directories<'a>
        ensures { directories_left result ≡ directories_of (signature_view self.now) }
    {
        Directories {
            reported: NumberedFaults::of(DirectoryBlobs { signature: *self }),
        }
    }

    // Returns the error of the first directory that can't be read.
    fn refused(&self) -> Option<Error>
        ensures { option_map fault_of result ≡ first_refused (directories_of (signature_view self.now)) }
    {
        let mut left = self.directories();
        'directories: while let Some((_, directory)) = left.next() {
            if let Err(e) = directory {
                return Some(e);
            }
        }
        None
    }

    // Returns the directory whose hash has the given rank.
    fn of_rank(&self, rank: u8) -> Result<Option<CodeDirectory<'a>>>
        ensures value { Reads (option_map directory_view) result (of_rank rank (directories_of (signature_view self.now))) }
        ensures words { IfErr result (λ e. SaysWords e (words_of_none two_of_one_hash)) }
    {
        let mut found = None;
        let mut left = self.directories();
        'directories: while let Some((_, directory)) = left.next() {
            let Some(directory) = if_of_rank(directory, rank) else {
                continue;
            };
            if found.is_some() {
                return Err(Error::Malformed("two code directories of one hash"));
            }
            found = Some(directory);
        }
        Ok(found)
    }

    // Returns the directory whose hash has the highest rank.
    fn highest(&self) -> Result<Option<CodeDirectory<'a>>>
        ensures value { Reads (option_map directory_view) result (highest_of (directories_of (signature_view self.now))) }
        ensures words { IfErr result (λ e. SaysWords e (words_of_none two_of_one_hash)) }
    {
        let sha384 = self.of_rank(4)?;
        let sha256 = self.of_rank(3)?;
        let truncated = self.of_rank(2)?;
        let sha1 = self.of_rank(1)?;
        Ok(sha384.or(sha256.or(truncated.or(sha1))))
    }

    /// Returns the code directory that counts: the one whose hash has the highest rank. If a directory can't be read, the error
    /// is that of the first such directory. If there is no directory, or two have the same hash, it is `Malformed` and says
    /// which. So a signature has at most four.
    #[tactic(auto, unfolding(crate::specs::Chosen::directory_of))]
    pub fn directory(&self) -> Result<CodeDirectory<'a>>
        ensures value { Reads directory_view result (directory_of (signature_view self.now)) }
        ensures words { IfErr result (λ e. first_refused (directories_of (signature_view self.now)) ≡ None → SaysNoneCounts e (signature_view self.now)) }
    {
        if let Some(e) = self.refused() {
            return Err(e);
        }
        let Some(directory) = self.highest()? else {
            return Err(Error::Malformed("no code directory"));
        };
        Ok(directory)
    }
}

ghost use Rattle.mach_base.specs.Fault.{fault_of};
