//! Entries of a fat file that overlap.

ghost use Rattle.std.specs.Prelude.{◌≡◌};
ghost use Rattle.mach_audit.specs.Overlaid.{AreGoneOver, every, selected_len};

use goblin_mach::ArchRecord;

/// Which entries of a fat file with records of type `R` are audited.
pub trait Selection<R> {
    ghost use Rattle.std.specs.Prelude.{◌≡◌, Bool};

    // Whether the entry of a record is selected.
    ghost selects: { Self → R → Bool };

    /// Whether the entry of a record is selected.
    fn takes_entry(&self, arch: &R) -> bool
        ensures { result ≡ selects self.now arch.now };
}

/// Selects every entry.
#[derive(Clone, Copy)]
pub struct Every;

impl<R> Selection<R> for Every {
    ghost selects = { λ _. every };

    fn takes_entry(&self, _arch: &R) -> bool {
        true
    }
}

/// Returns how many of the first entries of a fat file are audited: at most `limit`, as long as they have no more bytes together
/// than the file. The bytes of entries that aren't selected don't count.
pub fn entries_within<R: ArchRecord, S: Selection<R>>(
    selection: &S,
    limit: usize,
    bytes: &[u8],
    archs: &[R],
) -> usize
    ensures { AreGoneOver R.arch_form (S.selects selection.now) limit bytes.now archs.now result }
{
    let mut left = bytes.len();
    let end = limit.min(archs.len());
    for index in 0..end {
        let Some(rest) = left.checked_sub(selected_len(selection, bytes, &archs[index])) else {
            return index;
        };
        left = rest;
    }
    end
}

// Returns how many bytes of the file a record names, if it is selected.
fn selected_len<R: ArchRecord, S: Selection<R>>(selection: &S, bytes: &[u8], arch: &R) -> usize
    ensures { result ≡ selected_len R.arch_form (S.selects selection.now) bytes.now arch.now }
{
    if selection.takes_entry(arch) {
        arch.entry_slice(bytes).len()
    } else {
        0
    }
}
