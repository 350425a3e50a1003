//! Theorems about the definitions alone: functions with an empty body, whose contracts are laws.

mod images;
mod requirements;
mod signatures;

pub use crate::laws::images::{
    as_signed_of_image, directory_of_image, image_as_signed, signature_faults_of_image,
    signature_of_image,
};
pub use crate::laws::requirements::expressions_are_read;
pub use crate::laws::signatures::{
    all_as_signed, at_most_four_directories, code_as_signed, special_slots_as_signed,
};
