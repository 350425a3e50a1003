//! The bindings of an image whose binds are in chains.

ghost use Rattle.std.specs.Prelude.{◌≡◌, ◌+◌, ◌≤◌, ◌+ℤ◌, [], List, length, map, Option, Some, None, IfOk, IfErr, IfNone, IfSome, OnOk, OnErr, MatchOption};
ghost use Rattle.std.specs.Iterator.{YieldsFirstBy};
ghost use Rattle.mach_base.specs.Answer.{Reads, ErrorMeets, IsOkUnlessMemory};
ghost use Rattle.mach_base.specs.Fault.{Fault};
ghost use Rattle.mach_base.specs.KeptText.{kept_bytes};
ghost use Rattle.mach_chained.specs.Bindings.{place_in_file, signed_or_malformed, chained_binding_of, binding_in, bindings_of, AreBindingItems, ListsBindings};
ghost use Rattle.mach_chained.specs.Bindings.{BindingFault};
ghost use Rattle.mach_chained.specs.Chained.{PlacedFixup, AreFixups, fixup_items};
ghost use Rattle.mach_chained.specs.WalkViews.{fixup_input_of, fixup_input_in, fixup_view};
ghost use Rattle.mach_parts.specs.Segment.{segment_view};
ghost use Rattle.mach_parts.specs.Bindings as declared;
ghost use Rattle.mach_parts.specs.Bindings.{binding_view, binding_read};
ghost use Rattle.mach_base.specs.Text.{texts};

use crate::fixups::FixupIterator;
use crate::header::ChainedFixups;
use crate::imports::Names;
use crate::pointer::FixupKind;
use crate::source::{Fixup, Source, nth_segment};
use mach_base::{Error, Result, Steps};
use mach_parts::binding::{Binding, Provider};
use mach_parts::segment::Segment;
use std::alloc::Allocator;

// Returns the file offset of an offset in a segment.
#[inline(always)]
fn place_in_file(segments: &[Segment<'_>], number: u32, offset: u64) -> Result<u64>
    ensures { Reads (λ n. n) result (place_in_file (map segment_view segments.now) number offset) }
{
    let segment = nth_segment(segments, number)?;
    match segment.fileoff.checked_add(offset) {
        Some(place) => Ok(place),
        None => Err(Error::Malformed("a bind's place does not fit in 64 bits")),
    }
}

// Returns the sum of an import's addend and a pointer's addend.
#[inline(always)]
fn whole_addend(addend: i64, inline: i32) -> Result<i64>
    ensures { Reads (λ n. n) result (signed_or_malformed (addend +ℤ inline)) }
{
    match addend.checked_add(i64::from(inline)) {
        Some(sum) => Ok(sum),
        None => Err(Error::Malformed("a bind's addend does not fit in 64 bits")),
    }
}

/// An iterator over the bindings, one for each bind of the chains, in order.
/// It ends at the first fault, after that error. It allocates no memory.
#[derive(Drop)]
pub struct ChainedBindIterator<'a, 'b> {
    pub(crate) fixups: FixupIterator<'a, 'b>,
    pub(crate) libs: &'b [&'a str],
    // Reads the names of imports. A long name that many binds have is searched for its end only once.
    pub(crate) names: Names<'a>,
    pub(crate) ended: bool,
    ghost of_the_data: { kept_bytes names.texts ≡ fixups.source.fixups.payload.now },
}

impl<'a> ChainedFixups<'a> {
    ghost use Rattle.mach_chained.specs.BindingViews.{chained_bindings_left, pointers_left};

    /// Returns an iterator over the bindings, one for each bind of the chains, in order. It ends at
    /// the first fault, after that error. `libs` are the image's libraries, by ordinal, `segments`
    /// its segments, and `base` is the address of its first byte in memory. It allocates no memory.
    pub fn bindings<'b>(
        &self,
        libs: &'b [&'a str],
        segments: &'b [Segment<'a>],
        base: u64,
    ) -> ChainedBindIterator<'a, 'b>
        ensures { AreBindingItems (fixup_input_in self.now segments.now base) (texts libs.now) (chained_bindings_left result) }
    {
        self.start_bindings(libs, segments, base)
    }

    // Does the same, and also says how many pointers are left to be read.
    fn start_bindings<'b>(
        &self,
        libs: &'b [&'a str],
        segments: &'b [Segment<'a>],
        base: u64,
    ) -> ChainedBindIterator<'a, 'b>
        ensures { (ps : List PlacedFixup) × (stop : Option Fault)
            × AreFixups (fixup_input_in self.now segments.now base) ps stop
            × (chained_bindings_left result ≡ bindings_of (fixup_input_in self.now segments.now base)
            (texts libs.now) (fixup_items ps stop)) × (pointers_left result ≡ length ps) }
    {
        let fixups = self.start(segments, base);
        ChainedBindIterator {
            libs,
            names: Names::of(fixups.source.fixups.payload),
            fixups,
            ended: false,
        }
    }
}

impl<'a> ChainedFixups<'a> {
    ghost use Rattle.mach_chained.specs.BindingViews.{bindings_view};

    /// Returns the bindings of all binds of the chains, in order. `libs` are the image's libraries, by ordinal, `segments` its segments,
    /// and `base` is the address of its first byte in memory. Each error except `Error::Memory` is a fault among the fixups or the binds.
    pub fn binds<A: Allocator>(
        &self,
        alloc: A,
        libs: &[&'a str],
        segments: &[Segment<'a>],
        base: u64,
    ) -> Result<Vec<Binding<'a>, A>>
        ensures listed { IfOk result (λ v. ListsBindings (fixup_input_in self.now segments.now base)
            (texts libs.now) (bindings_view v.items)) }
        ensures only { (list : List (declared.Binding)) → ListsBindings (fixup_input_in self.now segments.now base)
            (texts libs.now) list → IsOkUnlessMemory result }
        ensures refused { IfErr result (ErrorMeets (BindingFault (fixup_input_in self.now segments.now base)
            (texts libs.now))) }
    {
        self.binds_counted(alloc, libs, segments, base, &mut Steps::new())
    }

    /// Does the same, and adds the number of pointers that are read to a count. It is the
    /// number of fixups, and at most one more on an error. The count never decreases.
    pub fn binds_counted<A: Allocator>(
        &self,
        alloc: A,
        libs: &[&'a str],
        segments: &[Segment<'a>],
        base: u64,
        steps: &mut Steps,
    ) -> Result<Vec<Binding<'a>, A>>
        ensures listed { IfOk result (λ v. ListsBindings (fixup_input_in self.now segments.now base)
            (texts libs.now) (bindings_view v.items)) }
        ensures only { (list : List (declared.Binding)) → ListsBindings (fixup_input_in self.now segments.now base)
            (texts libs.now) list → IsOkUnlessMemory result }
        ensures refused { IfErr result (ErrorMeets (BindingFault (fixup_input_in self.now segments.now base)
            (texts libs.now))) }
        ensures reads { IfOk result (λ _. (ps : List PlacedFixup)
            × AreFixups (fixup_input_in self.now segments.now base) ps None × (steps.new ≡ steps.old + length ps)) }
        ensures bounded { IfErr result (λ _. (ps : List PlacedFixup) × (stop : Option Fault)
            × AreFixups (fixup_input_in self.now segments.now base) ps stop
            × (steps.new ≤ steps.old + length ps + 1)) }
        ensures kept { steps.old ≤ steps.new }
    {
        let mut left = self.start_bindings(libs, segments, base);
        let mut found = Vec::new(alloc);
        'binds: loop {
            match left.step(steps) {
                None => break,
                Some(Ok(binding)) => found.push(binding)?,
                Some(Err(e)) => return Err(e),
            }
        }
        Ok(found)
    }
}

impl<'a> Source<'a, '_> {
    // Returns the binding of a bind.
    #[tactic(auto, unfolding(crate::specs::Bindings::chained_binding_of))]
    #[inline(always)]
    fn bound(
        &self,
        libs: &[&'a str],
        names: &mut Names<'a>,
        fixup: &Fixup,
        import: u32,
        addend: i32,
    ) -> Result<Binding<'a>>
        requires { kept_bytes names.old.texts ≡ self.now.fixups.payload.now }
        ensures binding { Reads binding_view result (chained_binding_of (fixup_input_of self.now) (texts libs.now) (fixup_view fixup.now) import addend) }
        ensures bytes { kept_bytes names.new.texts ≡ kept_bytes names.old.texts }
    {
        let found = self.fixups.import_kept(import, names)?;
        let provider = Provider::of_ordinal(libs, i64::from(found.library))?;
        let offset = place_in_file(self.segments, fixup.segment, fixup.offset)?;
        let addend = whole_addend(found.addend, addend)?;
        Ok(Binding {
            name: found.name,
            provider,
            offset,
            address: fixup.address,
            addend,
            is_weak: found.is_weak,
            is_lazy: false,
        })
    }

    // Returns the binding of a fixup, if it is a bind.
    #[inline(always)]
    fn binding(
        &self,
        libs: &[&'a str],
        names: &mut Names<'a>,
        fixup: &Fixup,
    ) -> Option<Result<Binding<'a>>>
        requires { kept_bytes names.old.texts ≡ self.now.fixups.payload.now }
        ensures binding { MatchOption result
            (binding_in (fixup_input_of self.now) (texts libs.now) (fixup_view fixup.now) ≡ None)
            (λ answer. binding_in (fixup_input_of self.now) (texts libs.now) (fixup_view fixup.now) ≡ Some (binding_read answer)) }
        ensures bytes { kept_bytes names.new.texts ≡ kept_bytes names.old.texts }
    {
        match fixup.kind {
            FixupKind::Bind { import, addend } => {
                match self.bound(libs, names, fixup, import, addend) {
                    Ok(binding) => Some(Ok(binding)),
                    Err(e) => Some(Err(e)),
                }
            }
            FixupKind::Rebase { target: _ } => None,
            FixupKind::Value { value: _ } => None,
        }
    }
}

impl<'a> ChainedFixups<'a> {
    /// Returns the binding of a fixup of the chains, if it is a bind. Fails with the reason if a bind has no binding. `libs`
    /// are the image's libraries, by ordinal, `segments` its segments, and `base` is the address of its first byte in memory.
    #[inline(always)]
    pub fn binding(
        &self,
        libs: &[&'a str],
        segments: &[Segment<'a>],
        base: u64,
        fixup: &Fixup,
    ) -> Option<Result<Binding<'a>>>
        ensures { MatchOption result
            (binding_in (fixup_input_in self.now segments.now base) (texts libs.now) (fixup_view fixup.now) ≡ None)
            (λ answer. binding_in (fixup_input_in self.now segments.now base) (texts libs.now) (fixup_view fixup.now) ≡ Some (binding_read answer)) }
    {
        let source = Source {
            fixups: *self,
            segments,
            base,
        };
        source.binding(libs, &mut Names::of(self.payload), fixup)
    }
}

impl<'a> ChainedBindIterator<'a, '_> {
    ghost use Rattle.mach_chained.specs.BindingViews.{chained_bindings_left, pointers_left, HasEndedChainedBindings};

    // Ends the iterator.
    fn end(&mut self)
        ensures items { chained_bindings_left self.new ≡ [] }
        ensures ended { HasEndedChainedBindings self.new }
    {
        self.ended = true;
    }

    // Returns the next binding, or the fault that ends them, and counts the pointers that are read.
    #[inline(always)]
    fn step(&mut self, steps: &mut Steps) -> Option<Result<Binding<'a>>>
        ensures items { YieldsFirstBy binding_read chained_bindings_left self.old result self.new }
        ensures end { IfNone result (HasEndedChainedBindings self.new) }
        ensures fault { IfSome result (λ item. OnErr item (HasEndedChainedBindings self.new)) }
        ensures none { IfNone result (steps.new ≡ steps.old + pointers_left self.old) }
        ensures reads { IfSome result (λ item. OnOk item
            (steps.new + pointers_left self.new ≡ steps.old + pointers_left self.old)) }
        ensures bounded { steps.new ≤ steps.old + pointers_left self.old + 1 }
        ensures kept { steps.old ≤ steps.new }
    {
        if self.ended {
            return None;
        }
        'fixups: loop {
            let fixup = match self.fixups.step(steps) {
                None => {
                    self.end();
                    return None;
                }
                Some(Ok(fixup)) => fixup,
                Some(Err(e)) => {
                    self.end();
                    return Some(Err(e));
                }
            };
            match self
                .fixups
                .source
                .binding(self.libs, &mut self.names, &fixup)
            {
                None => {}
                Some(Ok(binding)) => return Some(Ok(binding)),
                Some(Err(e)) => {
                    self.end();
                    return Some(Err(e));
                }
            }
        }
    }
}

impl<'a, 'b> Iterator for ChainedBindIterator<'a, 'b> {
    type Item = Result<Binding<'a>>;

    ghost use Rattle.std.specs.Iterator.{item_count};
    ghost use Rattle.mach_chained.specs.BindingViews.{chained_bindings_left};

    ghost next_gives = { YieldsFirstBy binding_read chained_bindings_left };

    ghost remaining = { item_count chained_bindings_left };

    #[inline(always)]
    fn next(&mut self) -> Option<Result<Binding<'a>>> {
        self.step(&mut Steps::new())
    }
}

impl<'a, 'b> Default for ChainedBindIterator<'a, 'b> {
    ghost use Rattle.mach_chained.specs.BindingViews.{chained_bindings_left};

    ghost is_default = { λ it. chained_bindings_left it ≡ [] };

    /// Returns an iterator without bindings.
    #[tactic(auto, unfolding(crate::specs::BindingViews::chained_bindings_left))]
    fn default() -> Self {
        let fixups = FixupIterator::default();
        ChainedBindIterator {
            libs: &[],
            names: Names::of(fixups.source.fixups.payload),
            fixups,
            ended: true,
        }
    }
}
