//! The short name of a library.

ghost use Rattle.std.specs.Prelude.{◌≡◌, codes, option_map};
ghost use Rattle.machsyms.specs.ShortNames as defined;

// Returns the parts of a path before and after its last slash.
fn around_slash(path: &str) -> (&str, &str)
    ensures { (result.0.now ≡ defined.folder_part path.now) × (result.1.now ≡ defined.last_part path.now) }
{
    match path.rsplit_once('/') {
        Some(parts) => parts,
        None => ("", path),
    }
}

// Returns the last component of a path.
fn file_of(path: &str) -> &str
    ensures { result.now ≡ defined.last_part path.now }
{
    around_slash(path).1
}

// Returns the path before the last component.
fn folder_of(path: &str) -> &str
    ensures { result.now ≡ defined.folder_part path.now }
{
    around_slash(path).0
}

// Returns the parts of a name before and after its last dot.
fn around_dot(name: &str) -> (&str, &str)
    ensures { (result.0.now ≡ defined.part_before 0x2e name.now) × (result.1.now ≡ defined.part_after 0x2e name.now) }
{
    match name.rsplit_once('.') {
        Some(parts) => parts,
        None => ("", name),
    }
}

// Returns a text without this suffix, if it has it.
fn without_end<'a>(end: &str, text: &'a str) -> Option<&'a str>
    ensures { option_map (λ front. front.now) result ≡ defined.cut_end end.now text.now }
{
    text.strip_suffix(end)
}

// Returns a name without the suffix of its build variant.
fn unsuffixed(name: &str) -> &str
    ensures { result.now ≡ defined.unsuffixed name.now }
{
    match without_end("_debug", name) {
        Some(front) => front,
        None => match without_end("_profile", name) {
            Some(front) => front,
            None => name,
        },
    }
}

// Whether a folder is the framework of this name.
fn is_framework(base: &str, folder: &str) -> bool
    ensures { result ≡ defined.is_framework base.now folder.now }
{
    match without_end(".framework", folder) {
        Some(name) => name == base,
        None => false,
    }
}

// Whether a file of this name lies in its framework.
fn in_framework(base: &str, folder: &str) -> bool
    ensures { result ≡ defined.in_framework base.now folder.now }
{
    let version = folder_of(folder);
    is_framework(base, file_of(folder))
        || file_of(version) == "Versions" && is_framework(base, file_of(folder_of(version)))
}

// Returns a name without the version letter after its last dot.
fn unversioned(name: &str) -> &str
    ensures { result.now ≡ defined.unversioned name.now }
{
    let (front, letter) = around_dot(name);
    if letter.len() == 1 && !front.is_empty() {
        front
    } else {
        name
    }
}

// Returns a text, or another if it is empty.
fn or_if_empty<'a>(text: &'a str, other: &'a str) -> &'a str
    ensures { result.now ≡ defined.or_if_empty text.now other.now }
{
    if text.is_empty() { other } else { text }
}

// Returns the short name of a dylib, given its path without `.dylib`.
fn dylib_name(stem: &str) -> &str
    ensures { result.now ≡ defined.dylib_name stem.now }
{
    let file = file_of(unversioned(stem));
    unversioned(or_if_empty(unsuffixed(file), file))
}

// Returns the short name of a file by its suffix, empty if nothing is guessed.
fn guessed_file(path: &str) -> &str
    ensures { result.now ≡ defined.guessed_file (defined.cut_end (codes ".dylib") path.now) (defined.cut_end (codes ".qtx") path.now) }
{
    match without_end(".dylib", path) {
        Some(stem) => dylib_name(stem),
        None => match without_end(".qtx", path) {
            Some(stem) => unversioned(file_of(stem)),
            None => "",
        },
    }
}

// Returns the short name of a framework or of a file, empty if nothing is guessed.
fn guessed_name(path: &str) -> &str
    ensures { result.now ≡ defined.guessed_name path.now }
{
    let base = unsuffixed(file_of(path));
    if in_framework(base, folder_of(path)) {
        base
    } else {
        guessed_file(path)
    }
}

/// Returns the short name of a library by its path: `libSystem` for `/usr/lib/libSystem.B.dylib`, `Foo` for
/// `/F/Foo.framework/Versions/A/Foo`. It is the whole path if nothing is guessed.
pub fn short_name(path: &str) -> &str
    ensures { result.now ≡ defined.short_library_name path.now }
{
    or_if_empty(guessed_name(path), path)
}
