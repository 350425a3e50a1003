//! Theorems about the definitions alone: functions without a body, whose contracts are laws.

mod slots;

pub use crate::laws::slots::{
    indirect_symbols_by_number, slots_are_found_at_their_addresses, slots_are_no_more_than_entries,
    slots_lie_in_their_section,
};
pub use crate::relocation::laws::{bits_together, relocations_by_number};
pub use crate::segment::laws::{section_written_and_read, sections_by_number};
pub use crate::symbols::laws::{symbols_by_number, symbols_counted, symbols_past_the_end};
