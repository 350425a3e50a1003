//! Writing fat files.

ghost use Rattle.std.specs.Prelude.{◌≡◌, ◌≢◌, ◌<◌, length};
ghost use Rattle.mach_fat_writer.specs.Parts.{IsPartsFault, form_by};
ghost use Rattle.goblin_mach_c.specs.Codes.{IsRefusalCode};
ghost use Rattle.goblin_mach_c.specs.FatWrites.{LacksRoom, WritesFat};
ghost use Rattle.goblin_mach_c.specs.Opened.{lossy_mode};

use crate::errors::{GM_OK, gm_error, refuse, refuse_no_space};
use mach_fat_writer::{FatPart, write_parts};
use std::alloc::Global;

/// Writes the fat file of some parts of these bytes, in their order, to the start of `out`, and its size to `needed`. It has 64
/// bits, or 32 if `is_64` is 0.
/// It is refused if a part isn't in the bytes; as malformed if an alignment is above 2^15, if two entries are for one cpu, or if
/// a record can't hold an offset or a length; and if `out` is too small, and then `needed` is the size. A refused call leaves
/// `out` unchanged, and `needed` except in the last case. It allocates memory for the entries, not for their bytes.
#[tactic(auto, using(crate::proofs::PartsWritten::fits, crate::proofs::PartsWritten::lacks, crate::proofs::PartsWritten::stays))]
#[unsafe(no_mangle)]
pub extern "C" fn gmr_write_fat(
    alloc: Global,
    bytes: &[u8],
    parts: &[FatPart],
    is_64: u32,
    out: &mut [u8],
    needed: &mut usize,
    error: &mut gm_error,
) -> u32
    ensures written { result ≡ 0 → WritesFat bytes.now parts.now (form_by (lossy_mode is_64)) out.old out.new needed.new }
    ensures no_room { result ≡ 7 → LacksRoom bytes.now parts.now (form_by (lossy_mode is_64)) (length out.old) needed.new }
    ensures refused { result ≢ 0 → result ≢ 7 → IsRefusalCode (IsPartsFault bytes.now parts.now (form_by (lossy_mode is_64))) result }
    ensures kept { result ≢ 0 → out.new ≡ out.old }
    ensures needed { result ≢ 0 → result ≢ 7 → needed.new ≡ needed.old }
    ensures reported { result ≢ 0 → error.new.code ≡ result }
    ensures quiet { result ≡ 0 → error.new ≡ error.old }
{
    let room = out.len();
    match write_parts(alloc, bytes, parts, is_64 != 0, out) {
        Ok(len) => {
            *needed = len;
            if len <= room {
                GM_OK
            } else {
                refuse_no_space(error)
            }
        }
        Err(why) => refuse(&why, error),
    }
}
