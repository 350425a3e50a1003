//! What the programs share: the arguments of a call, help and version, exit statuses, and the complaint about a refused file; the
//! driver that goes over the files of a call and the images in each, and the sinks that put these together, as text or as JSON
//! (RFC 8259); and output for terminals.
#![tactic(auto)]

// The arguments of a call, and what a program says about itself.
mod bounds;
mod call;
mod color;
mod complaint;
mod cpu;
mod digits;
mod failure;
mod first_bytes;
mod flag;
mod hexadecimal;
mod misuse;
mod named;
mod options;
pub mod output;
mod program;
mod word;

// The output for a file, for an image, and for each entry.
mod document;
mod fields;
mod image_files;
mod image_kinds;
mod image_view;
mod images_view;
mod items;
mod label;
mod listing;
mod names;
mod nm_heading;
mod omitted;
mod origins;
mod record_fields;
mod refusal;
mod signing;
mod sink;
mod spaces;
mod title;
mod titled;

// Archives and fat files of 64 bits: each member and each entry is shown as a file of its own.
mod files;
mod parts;

// The same as JSON.
pub mod json;

// Output for a signature: names on one line, bytes as digits, flags by their names.
mod directory_name;
pub mod entries;
mod escaped;
mod flags;
pub mod laws;

// The names of the segment and of the section that hold an address.
mod section_names;

// What an image has at an address, as a line and as an object.
mod address;
mod name_text;

// Terminals.
mod painted;
mod progress;
mod terminal;

pub use crate::bounds::most_items;
pub use crate::call::Call;
pub use crate::color::Color;
pub use crate::complaint::{Complaint, Trouble};
pub use crate::cpu::Cpu;
pub use crate::digits::{print_hexadecimal, print_signed, print_wide_hexadecimal};
pub use crate::directory_name::print_name;
pub use crate::escaped::{Escaped, EscapedBytes, print_bytes, print_escaped, print_wide_escaped};
pub use crate::failure::ShowFailure;
pub use crate::fields::{Field, FieldsForm, Line, Object, Pairs, Value, word_if};
pub use crate::files::{FileView, Files};
pub use crate::first_bytes::{begins_whole_archive, entry_counts, entry_kind, refused_kind};
pub use crate::flags::{print_code_flags, print_segment_flags};
pub use crate::hexadecimal::{address_in, cputype_in};
pub use crate::image_files::ImageFiles;
pub use crate::image_kinds::image_kind;
pub use crate::image_view::{ImageView, Outcome};
pub use crate::images_view::ImagesView;
pub use crate::items::{InForm, ItemList};
pub use crate::json::array::{
    comma_before, print_array, print_empty, print_end, print_end_past, print_member, then,
};
pub use crate::json::text::{JsonString, StringOrNull, if_not_empty, name_in_field};
pub use crate::label::Label;
pub use crate::listing::{ListProgress, Listing, count_rows, print_cut, print_listing, print_rows};
pub use crate::misuse::Misuse;
pub use crate::named::{Others, names_of};
pub use crate::names::Names;
pub use crate::options::{Format, Options, OwnOptions, SharedOnly};
pub use crate::origins::{library_short_name, ordinal_of, origin_of, provider_name};
pub use crate::painted::Painted;
pub use crate::parts::name::PartName;
pub use crate::parts::selection::only_selected;
pub use crate::parts::shown::ShownPart;
pub use crate::parts::{Parts, items_shown};
pub use crate::program::{Output, Program};
pub use crate::progress::Progress;
pub use crate::record_fields::{RecordFields, rights};
pub use crate::refusal::{Refusal, complain, refusal_of};
pub use crate::section_names::{section_name_with, stretch_name};
pub use crate::signing::{diverse_by, diversity_by, has_auth, key_by, rebase_type};
pub use crate::sink::{Json, NmText, Sink, Text};
pub use crate::terminal::ForTerminal;
pub use crate::titled::Titled;
pub use crate::word::{NoText, Word};

// What an image has at an address, and names as they are printed.
pub use crate::address::view::{AddressLinesOf, AddressObjectsOf};
pub use crate::name_text::{FileText, NameText};
