//! Laws of signatures: there is no fault exactly when everything is as signed, and at most four directories are hashed.

ghost use Rattle.std.specs.Prelude.{◌≡◌, ◌≤◌, ◌↔◌, ℕ, List, [], Option, Ok, length};
ghost use Rattle.mach_signature.specs.AsSigned.{SignedImage, signature_faults_of, IsAsSigned};
ghost use Rattle.mach_signature.specs.Chosen.{directory_of, directories_of};
ghost use Rattle.mach_signature.specs.CodeFaults.{code_faults_of, IsCodeAsSigned};
ghost use Rattle.mach_signature.specs.Directories.{Directory};
ghost use Rattle.mach_signature.specs.SpecialFaults.{special_faults_of, IsSpecialAsSigned};
ghost use Rattle.mach_signature.specs.SuperBlob.{SuperBlob};

/// The code has no fault exactly when the image has all covered bytes and the hash of each page is its slot.
pub fn code_as_signed()
    ensures { (d : Directory) (image : List ℕ) → (code_faults_of d image ≡ []) ↔ IsCodeAsSigned d image }
{}

/// The special slots have no fault exactly when each seals what is there, and what is there is sealed.
pub fn special_slots_as_signed()
    ensures { (d : Directory) (s : SuperBlob) (plist : Option (List ℕ)) → (special_faults_of d s plist ≡ []) ↔ IsSpecialAsSigned d s plist }
{}

/// There is no fault exactly when everything is as signed.
pub fn all_as_signed()
    ensures { (x : SignedImage) → (signature_faults_of x ≡ []) ↔ IsAsSigned x }
{}

/// If a directory counts there are at most four, so the image is hashed four times at most.
pub fn at_most_four_directories()
    ensures { (s : SuperBlob) (d : Directory) → directory_of s ≡ Ok d → length (directories_of s) ≤ 4 }
{}
