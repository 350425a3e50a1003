//! The files that a call names other than by an argument that is text.

ghost use Rattle.std.specs.Prelude.{◌≡◌, ◌<◌, ◌&&◌, ◌==◌, ◌∷◌, [], length, IfOk, IfSome, IfNone};
ghost use Rattle.mach_base.specs.Text.{texts};
ghost use Rattle.mach_cli.specs.Listed.{are_several, listed_names, name_end};

use crate::word::NoText;
use memchr::memchr;
use std::alloc::{AllocError, Allocator};

/// The files that a call names other than by an argument that is text.
#[derive(Drop)]
pub struct Others<'a, A: Allocator> {
    /// The files after `--names`, in order: lists of names.
    pub lists: Vec<&'a str, A>,
    /// Whether a name in such a list ends with NUL, instead of a line end.
    pub ends_with_nul: bool,
    /// The arguments that aren't text, in order.
    pub no_texts: Vec<NoText<'a>, A>,
}

impl<A: Allocator> Others<'_, A> {
    /// Whether there are none.
    pub fn is_empty(&self) -> bool
        ensures { result ≡ ((length self.now.lists.items == 0) && (length self.now.no_texts.items == 0)) }
    {
        self.lists.is_empty() && self.no_texts.is_empty()
    }

    /// Whether these files and `words` others may be several.
    pub fn are_several(&self, words: usize) -> bool
        ensures { result ≡ are_several words self.now.lists.items self.now.no_texts.items }
    {
        !self.lists.is_empty() || words.saturating_add(self.no_texts.len()) > 1
    }

    /// Returns the byte that ends a name in a list.
    pub fn name_end(&self) -> u8
        ensures { result ≡ name_end self.now.ends_with_nul }
    {
        if self.ends_with_nul { 0 } else { b'\n' }
    }
}

// Returns the first name of a list, which ends at this byte, and what follows it.
fn first_name(end: u8, list: &[u8]) -> Option<(&[u8], &[u8])>
    ensures first { IfSome result (λ x. listed_names end list.now ≡ x.0.now ∷ listed_names end x.1.now) }
    ensures less { IfSome result (λ x. length x.1.now < length list.now) }
    ensures last { IfNone result (listed_names end list.now ≡ list.now ∷ []) }
{
    match memchr(end, list) {
        Some(at) => Some((&list[..at], &list[at + 1..])),
        None => None,
    }
}

/// Returns the names of a list, in order, without the byte that ends each. What follows the last such byte is one too.
pub fn names_of<A: Allocator>(alloc: A, end: u8, list: &[u8]) -> Result<Vec<&[u8], A>, AllocError>
    ensures { IfOk result (λ names. texts names.items ≡ listed_names end list.now) }
{
    let mut names = Vec::new(alloc);
    let mut rest = list;
    'ends: while let Some((name, following)) = first_name(end, rest) {
        names.push(name)?;
        rest = following;
    }
    names.push(rest)?;
    Ok(names)
}
