//! What all readers build on: errors, byte orders, numbers, texts, LEB128, records, a count of reads.
#![tactic(auto)]

mod byte_count;
mod context;
mod error;
mod hint;
mod kept_text;
pub mod laws;
mod leb128;
mod narrow;
mod numbers;
mod offsets;
mod record;
mod steps;
mod tally;
mod texts;
mod traits;

pub use crate::byte_count::ByteCount;
pub use crate::context::{BE, Container, Ctx, Endian, LE};
pub use crate::error::{Description, Error, Result, ScrollError, describe};
pub use crate::hint::{Hint, HintData, take_hint_bytes};
pub use crate::kept_text::KeptText;
pub use crate::leb128::{Sleb128, Uleb128, quick_uleb, sleb, uleb};
pub use crate::narrow::low_bits;
pub use crate::numbers::{array_at, bytes_at, read_u32, rest_at, try_rest_at};
pub use crate::offsets::{gread_with, pread_with, pwrite_with};
pub use crate::record::{Record, RecordBytes, records_in_bounds, written_and_read};
pub use crate::steps::Steps;
pub use crate::texts::{quick_text, read_text};
pub use crate::traits::{IntoCtx, SizeWith, TryFromCtx, TryIntoCtx};
