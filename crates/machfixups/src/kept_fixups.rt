//! The fixups of the chains that are shown.

ghost use Rattle.std.specs.Prelude.{◌≡◌, ◌||◌, []};
ghost use Rattle.std.specs.Iterator.{YieldsFirstBy};
ghost use Rattle.mach_chained.specs.WalkViews.{fixup_read};
ghost use Rattle.goblin_mach.specs.FixupsLeft.{image_fixups_left};
ghost use Rattle.machfixups.specs.KeptFixups.{keeps_fixup, kept_fixups};
ghost use Rattle.machfixups.specs.KeptLeft.{kept_left};

use goblin_mach::chained_fixups::{Fixup, FixupKind};
use goblin_mach::{FixupIterator, Result};

/// Which fixups of the chains are shown, by their kinds.
#[derive(Clone, Copy, Drop)]
pub struct ShownKinds {
    pub rebases: bool,
    pub binds: bool,
    pub numbers: bool,
}

impl ShownKinds {
    /// None.
    pub const NONE: ShownKinds = ShownKinds {
        rebases: false,
        binds: false,
        numbers: false,
    };

    // Whether any is shown.
    fn has_some(self) -> bool
        ensures { result ≡ (self.rebases || (self.binds || self.numbers)) }
    {
        self.rebases || self.binds || self.numbers
    }

    // Whether a fixup is shown, by its kind; one that can't be read is shown if any is.
    fn keeps(self, item: &Result<Fixup>) -> bool
        ensures { result ≡ keeps_fixup self (fixup_read item.now) }
    {
        match item {
            Ok(fixup) => match fixup.kind {
                FixupKind::Rebase { .. } => self.rebases,
                FixupKind::Bind { .. } => self.binds,
                FixupKind::Value { .. } => self.numbers,
            },
            Err(_) => self.has_some(),
        }
    }
}

/// Which fixups of the chains are in the list of the rebases, in that of the binds, and in that of the chains.
#[derive(Clone, Copy, Drop)]
pub struct KindsOfLists {
    pub rebases: ShownKinds,
    pub binds: ShownKinds,
    pub chains: ShownKinds,
}

/// The fixups of an image's chains that are shown, one at a time, in the order of the chains. If no kind is shown, the chains are
/// not read.
#[derive(Drop)]
pub struct KeptFixups<'a, 'b> {
    fixups: FixupIterator<'a, 'b>,
    kinds: ShownKinds,
}

impl<'a, 'b> KeptFixups<'a, 'b> {
    /// Returns the fixups of these kinds.
    pub fn of(fixups: FixupIterator<'a, 'b>, kinds: ShownKinds) -> Self
        ensures { kept_left result ≡ kept_fixups kinds (image_fixups_left fixups.entry) }
    {
        KeptFixups { fixups, kinds }
    }

    /// Returns no fixup.
    pub fn none() -> Self
        ensures { kept_left result ≡ [] }
    {
        KeptFixups {
            fixups: FixupIterator::default(),
            kinds: ShownKinds::NONE,
        }
    }
}

impl<'a, 'b> Iterator for KeptFixups<'a, 'b> {
    type Item = Result<Fixup>;

    ghost use Rattle.std.specs.Iterator.{item_count};

    ghost next_gives = { YieldsFirstBy fixup_read kept_left };

    ghost remaining = { item_count kept_left };

    fn next(&mut self) -> Option<Result<Fixup>> {
        if !self.kinds.has_some() {
            return None;
        }
        'fixups: loop {
            let item = match self.fixups.next() {
                None => return None,
                Some(item) => item,
            };
            if self.kinds.keeps(&item) {
                return Some(item);
            }
        }
    }
}
