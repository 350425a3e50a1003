//! The state of a stream as numbers.

ghost use Rattle.std.specs.Prelude.{◌≡◌, ℕ, List};
ghost use Rattle.mach_base.specs.Number.{says_yes};
ghost use Rattle.mach_base.specs.Text.{text_at};
ghost use Rattle.mach_dyld.specs.BindCursors.{state_in};
ghost use Rattle.mach_dyld.specs.Machine.{state_of};
ghost use Rattle.mach_dyld.specs.NamePlaces.{IsNamed, NameIsSet, text_or_none};
ghost use Rattle.mach_dyld.specs.SiteCursors.{place_named, site_view};
ghost use Rattle.mach_dyld.specs.Sites.{site_in};

use mach_base::read_text;
use mach_dyld::imports::BindCursor;
use mach_dyld::machine::{Settings, State};

/// The settings that a stream has in addition to those of a bind: the type, whether a name and a segment were set, and one other.
#[derive(Clone, Copy)]
pub struct More {
    pub kind: u8,
    pub has_name: bool,
    pub has_segment: bool,
    pub other: bool,
}

// Returns 1 for yes and 0 for no.
fn flag(yes: bool) -> u8
    ensures { says_yes result ≡ yes }
{
    if yes { 1 } else { 0 }
}

// Returns the text at a place, and the place. If no text is there, it returns an empty one and the largest number.
fn name_at(bytes: &[u8], place: usize) -> (&str, usize)
    ensures text { result.0.now ≡ text_or_none (text_at bytes.now place) }
    ensures occurs { IsNamed bytes.now result.0.now result.1 }
    ensures place { result.1 ≡ place_named (text_at bytes.now place) place }
{
    match read_text(bytes, place) {
        Ok(name) => (name, place),
        Err(_) => ("", usize::MAX),
    }
}

// Returns the place of a name, or the end of the bytes if none was set.
fn place_in(bytes: &[u8], place: usize) -> usize
    ensures text { (name : List ℕ) → IsNamed bytes.now name place → text_or_none (text_at bytes.now result) ≡ name }
    ensures place { (name : List ℕ) → IsNamed bytes.now name place → place_named (text_at bytes.now result) result ≡ place }
{
    if place < bytes.len() {
        place
    } else {
        bytes.len()
    }
}

/// Returns the numbers of a state, with its additional settings. `more.other` takes the field `ordinal`, in which bindings keep
/// how an ordinal was set.
pub fn numbers_of(bytes: &[u8], state: &State<'_>, more: More) -> BindCursor
    ensures state { NameIsSet bytes.now state.now.settings → state_in bytes.now result ≡ state_of state.now }
    ensures site { NameIsSet bytes.now state.now.settings → site_view bytes.now result ≡ site_in state.now.settings }
    ensures kind { result.kind ≡ more.kind }
    ensures has_name { says_yes result.has_name ≡ more.has_name }
    ensures has_segment { says_yes result.has_segment ≡ more.has_segment }
    ensures other { says_yes result.ordinal ≡ more.other }
{
    let settings = &state.settings;
    BindCursor {
        from: state.from,
        upto: state.upto,
        place: state.place,
        count: state.count,
        stride: state.stride,
        name_place: place_in(bytes, settings.name_place),
        library: settings.library,
        special: 0,
        offset: settings.offset,
        addend: settings.addend,
        sequence: settings.sequence,
        segment: settings.segment,
        flags: settings.flags,
        ordinal: flag(more.other),
        is_lazy: flag(settings.is_lazy),
        ended: flag(state.ended),
        kind: more.kind,
        has_name: flag(more.has_name),
        has_segment: flag(more.has_segment),
    }
}

/// Returns the state of some numbers.
pub fn state_at<'a>(bytes: &'a [u8], cursor: &BindCursor) -> State<'a>
    ensures state { state_of result ≡ state_in bytes.now cursor.now }
    ensures named { NameIsSet bytes.now result.settings }
    ensures site { site_in result.settings ≡ site_view bytes.now cursor.now }
{
    let (name, name_place) = name_at(bytes, cursor.name_place);
    State {
        from: cursor.from,
        upto: cursor.upto,
        place: cursor.place,
        count: cursor.count,
        stride: cursor.stride,
        settings: Settings {
            name,
            name_place,
            library: cursor.library,
            offset: cursor.offset,
            addend: cursor.addend,
            sequence: cursor.sequence,
            segment: cursor.segment,
            flags: cursor.flags,
            is_lazy: cursor.is_lazy != 0,
        },
        ended: cursor.ended != 0,
    }
}
