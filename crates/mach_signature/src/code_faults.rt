//! The faults of the code that a directory covers.

ghost use Rattle.std.specs.Prelude.{◌≡◌};
ghost use Rattle.mach_signature.specs.Directories as defined;
ghost use Rattle.mach_signature.specs.CodeFaults.{code_faults_of, form_fault};
ghost use Rattle.mach_signature.specs.CodeFaultViews.{code_faults_left};
ghost use Rattle.mach_signature.specs.DirectoryViews.{directory_view};

use crate::directory::CodeDirectory;
use crate::fault::CodeFault;
use crate::numbered::{Numbered, NumberedFaults};

// Returns the bytes of an image between two places, as far as they are there.
fn bytes_between(image: &[u8], start: u64, end: u64) -> &[u8]
    ensures { result.now ≡ defined.bytes_between image.now start end }
{
    let len = image.len() as u64;
    if start >= end || start >= len {
        return &[];
    }
    &image[start as usize..end.min(len) as usize]
}

// The pages that a directory covers; the first `count` of them are judged.
#[derive(Clone, Copy, Drop)]
pub struct Pages<'a> {
    pub directory: CodeDirectory<'a>,
    pub image: &'a [u8],
    pub count: u32,
}

impl<'a> Numbered for Pages<'a> {
    type Item = CodeFault;

    ghost use Rattle.mach_signature.specs.declared.fault.CodeFault.{CodeFault};
    ghost use Rattle.mach_signature.specs.CodeFaultViews.{pages_reported, page_reported};

    ghost View = { CodeFault };

    ghost view = { λ fault. fault };

    ghost count = { pages_reported };

    ghost reports = { page_reported };

    fn count(&self) -> u32 {
        self.count
    }

    #[tactic(auto, unfolding(crate::specs::CodeFaults::page_fault))]
    fn report(&self, number: u32) -> Option<CodeFault> {
        let slot = self.directory.code_slot(number)?;
        let page = self.directory.page(number);
        if self
            .directory
            .hash
            .seals(bytes_between(self.image, page.start, page.end), slot)
        {
            return None;
        }
        Some(CodeFault::Page {
            index: number,
            start: page.start,
            end: page.end,
        })
    }
}

/// An iterator over the faults of the code: the reason why the pages can't be judged, or each page that differs from what was signed.
#[derive(Clone, Drop)]
pub struct CodeFaults<'a> {
    pub(crate) first: Option<CodeFault>,
    pub(crate) pages: NumberedFaults<Pages<'a>>,
}

impl<'a> Iterator for CodeFaults<'a> {
    type Item = CodeFault;

    ghost use Rattle.std.specs.Iterator.{YieldsFirst, item_count};

    ghost next_gives = { YieldsFirst code_faults_left };

    ghost remaining = { item_count code_faults_left };

    fn next(&mut self) -> Option<CodeFault> {
        if let Some(fault) = self.first.take() {
            return Some(fault);
        }
        self.pages.take_next()
    }
}

impl<'a> CodeDirectory<'a> {
    // Returns the reason why the pages of an image can't be judged, if there is one.
    fn form_fault(&self, image: &[u8]) -> Option<CodeFault>
        ensures { result ≡ form_fault (directory_view self.now) image.now }
    {
        let place = self.scatter_offset.unwrap_or(0);
        if place != 0 {
            return Some(CodeFault::Scattered { place });
        }
        let limit = self.code_limit();
        let len = image.len() as u64;
        if limit > len {
            return Some(CodeFault::Limit { limit, len });
        }
        let slots = self.head.n_code_slots;
        let pages = self.page_count();
        if u64::from(slots) != pages {
            return Some(CodeFault::Slots { slots, pages });
        }
        None
    }

    /// Returns the faults of the image's code that this directory covers, in order. There are none exactly when the image has all
    /// covered bytes and the hash of each page is its code slot.
    pub fn code_faults(&self, image: &'a [u8]) -> CodeFaults<'a>
        ensures { code_faults_left result ≡ code_faults_of (directory_view self.now) image.now }
    {
        let first = self.form_fault(image);
        let count = if first.is_none() {
            self.head.n_code_slots
        } else {
            0
        };
        CodeFaults {
            first,
            pages: NumberedFaults::of(Pages {
                directory: *self,
                image,
                count,
            }),
        }
    }
}
