//! Rules of an image as a whole. Their faults belong to its header.

ghost use Rattle.std.specs.Prelude.{◌≡◌, ◌++◌, OnOk};
ghost use Rattle.mach_base.specs.Answer.{IsOkUnlessMemory};
ghost use Rattle.mach_layout.specs.Header as defined;
ghost use Rattle.mach_layout.specs.Laid.{laid_of};

use crate::fault::{LayoutFault, Owner, Part, Rule};
use crate::layout::Layout;
use crate::libraries::{has_id, is_library_file};
use crate::rules::{Judges, RuleOutcome, measured, owner_at, report_each, sound};
use crate::segments::has_segment_of_header;
use mach_base::Result;
use mach_parts::header::Header;
use std::alloc::Allocator;

/// Returns the header as the owner of a fault.
pub fn header_owner() -> Owner
    ensures { result ≡ defined.header_owner }
{
    owner_at(Part::Header, 0, 0)
}

impl Judges<Header> for Layout<'_, '_> {
    ghost use Rattle.mach_layout.specs.Header.{header_owner, header_sees};

    ghost owner = { λ layout rule h. header_owner };

    ghost sees = { λ layout. header_sees (laid_of layout) };

    fn owner(&self, _rule: Rule, _header: &Header) -> Owner {
        header_owner()
    }

    fn see(&self, rule: Rule, _header: &Header) -> RuleOutcome {
        let kind = u64::from(self.header.filetype);
        let declared = self.declared_end();
        match rule {
            Rule::FileKind => measured(self.is_judged(), kind, 0),
            Rule::CommandsOutOfFile => measured(declared <= self.size(), declared, self.size()),
            Rule::CommandsEndEarly => {
                let end = self.chain_end();
                measured(declared <= end, end, declared)
            }
            Rule::NoSegmentOfHeader => {
                let holds = !self.is_final() || has_segment_of_header(self);
                measured(holds, 0, self.used_end())
            }
            Rule::IdMissing => {
                measured(!is_library_file(self) || has_id(self.commands), kind, 0)
            }
            _ => sound(),
        }
    }
}

/// Adds the faults that some of these rules find.
pub fn report_header<A: Allocator>(
    faults: &mut Vec<LayoutFault, A>,
    layout: &Layout<'_, '_>,
    rules: &[Rule],
) -> Result<()>
    ensures reported { OnOk result (faults.new.items ≡ faults.old.items ++ defined.header_reported (laid_of layout.now) rules.now) }
    ensures only { IsOkUnlessMemory result }
{
    report_each(faults, layout, rules, &[layout.header])?;
    Ok(())
}
