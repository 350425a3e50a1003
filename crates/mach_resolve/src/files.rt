//! What the tries of the files have for a name.

ghost use Rattle.std.specs.Prelude.{◌≡◌, ◌<◌, length, slice_get, IfOk, IfErr, IfSome, IfNone, Some, None};
ghost use Rattle.mach_dyld.specs.Exports.{info_of};
ghost use Rattle.mach_resolve.specs.Files.{place_of_file, Says, Lacks, TrieFaultAt};
ghost use Rattle.mach_resolve.specs.Follow.{HasFirst, NoneHas};
ghost use Rattle.mach_resolve.specs.Failures.{IsFailure};
ghost use Rattle.mach_resolve.specs.ResolveViews.{input_view, input_views};

use crate::failure::ResolveFailure;
use crate::file::{File, Files};
use goblin_mach::exports::ExportInfo;
use std::alloc::Allocator;

impl<'a, A: Allocator + Copy> Files<'a, A> {
    /// Returns the place of the file with a name.
    pub fn place_of(&self, name: &str) -> Option<usize>
        ensures place { result ≡ place_of_file (input_views self.now) name.now }
        ensures inside { IfSome result (λ i. i < length self.now.items.items) }
    {
        self.names.get_index_of(name)
    }

    /// Looks up a name in the own trie of the file at a place, if there is a file: returns the file and its export.
    pub fn find(
        &self,
        alloc: A,
        place: usize,
        name: &str,
    ) -> Result<Option<(&File<'a, A>, ExportInfo<'a>)>, ResolveFailure>
        ensures found { IfOk result (λ o. IfSome o (λ x. (slice_get (input_views self.now) place ≡ Some (input_view x.0.now))
            × Says (input_view x.0.now) name.now (Some (info_of x.1)))) }
        ensures none { IfOk result (λ o. IfNone o (Lacks (input_views self.now) name.now place)) }
        ensures refused { IfErr result (IsFailure (TrieFaultAt (input_views self.now))) }
    {
        let Some(file) = self.items.get(place) else {
            return Ok(None);
        };
        match file.image.find_export(alloc, name) {
            Ok(Some(info)) => Ok(Some((file, info))),
            Ok(None) => Ok(None),
            Err(error) => Err(ResolveFailure::refused(file.number, error)),
        }
    }

    /// Returns the first of the files at some places whose own trie has a name, and its export.
    pub fn first_having(
        &self,
        alloc: A,
        places: &[usize],
        name: &str,
    ) -> Result<Option<(&File<'a, A>, ExportInfo<'a>)>, ResolveFailure>
        ensures found { IfOk result (λ o. IfSome o (λ x. HasFirst (input_views self.now) name.now places.now (input_view x.0.now) (info_of x.1))) }
        ensures none { IfOk result (λ o. IfNone o (NoneHas (input_views self.now) name.now places.now)) }
        ensures refused { IfErr result (IsFailure (TrieFaultAt (input_views self.now))) }
    {
        for place in places {
            match self.find(alloc, *place, name) {
                Ok(Some(found)) => return Ok(Some(found)),
                Ok(None) => {}
                Err(failure) => return Err(failure),
            }
        }
        Ok(None)
    }
}
