//! Apple's code signatures: the blobs of a signature, its code directories, and its faults, which say what isn't as it was
//! signed. A signature is read from bytes (`code_signature`) or from an image (`image::code_signature`).
#![tactic(auto)]

// Signatures, read from bytes.
mod code_faults;
mod directories;
mod directory;
mod fault;
mod faults;
mod hash;
mod kind;
mod numbered;
mod records;
mod signature;
mod slots;
mod special;
mod special_faults;

// The signature of an image: where its command places it, and its faults.
pub mod image;
pub mod page;
mod plist;
mod signature_place;

// Entitlements.
pub mod entitlements;

// Requirements.
pub mod requirements;

// Laws.
pub mod laws;

pub use crate::code_faults::CodeFaults;
pub use crate::directories::Directories;
pub use crate::directory::CodeDirectory;
pub use crate::fault::{CodeFault, DirectoryFault, SignatureFault, SlotName, SpecialFault};
pub use crate::faults::{SignatureFaults, SignedBytes, code_signature, signature_faults};
pub use crate::hash::{HashBytes, HashType};
pub use crate::kind::{Cms, Kind, cms_of};
pub use crate::records::{DirectoryHead, ExecutableSegment, RuntimeFields};
pub use crate::signature::{Blob, Blobs, CodeSignature};
pub use crate::slots::{SlotMagic, is_directory_slot, slot_magic};
pub use crate::special::{SlotState, SpecialSlot, shown_slot};
pub use crate::special_faults::{SpecialFaults, component, is_unsealing};
