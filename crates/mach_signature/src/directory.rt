//! A code directory: the hashes of the pages of an image, and of the other things that its signature seals (`cs_blobs.h`).

ghost use Rattle.std.specs.Prelude.{◌≡◌, ◌≤◌, ◌<◌, ◌+◌, ◌-◌, ◌*◌, ◌/◌, ◌^◌, length, take, drop, IfOk, OnOk, Option};
ghost use Rattle.std.specs.Option.{option_map};
ghost use Rattle.mach_base.specs.declared.context.Endian.TheVariants.{Big};
ghost use Rattle.mach_base.specs.Answer.{Reads};
ghost use Rattle.mach_base.specs.Number.{number, room_at};
ghost use Rattle.mach_signature.specs.Directories as defined;

use crate::hash::{HashBytes, HashType};
use crate::records::{DirectoryHead, ExecutableSegment, RuntimeFields};
use crate::slots::MAGIC_DIRECTORY;
use mach_base::{
    BE, Error, Record, Result, ScrollError, bytes_at, read_text, read_u32, try_rest_at,
};
use std::ops::Range;

/// A code directory. Offsets count from its first byte.
#[derive(Clone, Copy)]
pub struct CodeDirectory<'a> {
    /// The bytes of its blob.
    pub bytes: &'a [u8],
    /// The fields that every version has.
    pub head: DirectoryHead,
    /// The hash that it uses.
    pub hash: HashType,
    /// The offset of its scatter vector, since version 0x20100; 0 if it has none.
    pub scatter_offset: Option<u32>,
    /// The offset of the team's name, since version 0x20200; 0 if it has none.
    pub team_offset: Option<u32>,
    /// Not used; since version 0x20300.
    pub spare3: Option<u32>,
    /// How many bytes of the image are covered, since version 0x20300; 0 if `head.code_limit` says it.
    pub code_limit64: Option<u64>,
    /// The executable segment, since version 0x20400.
    pub executable: Option<ExecutableSegment>,
    /// The fields for the hardened runtime, since version 0x20500.
    pub runtime: Option<RuntimeFields>,
    ghost special_inside: { head.n_special_slots * head.hash_size ≤ head.hash_offset },
    ghost code_inside: { head.hash_offset + head.n_code_slots * head.hash_size ≤ length bytes.now },
    ghost power: { head.page_size ≤ 31 },
}

// Returns `n` if the bytes have this length at least.
fn room(bytes: &[u8], n: usize) -> Result<usize>
    ensures room { Reads (λ n. n) result (room_at n bytes.now 0) }
    ensures within { OnOk result (n ≤ length bytes.now) }
{
    bytes_at(bytes, 0, n)?;
    Ok(n)
}

// Returns how many bytes the fields of a version take.
fn fields_len(version: u32) -> usize
    ensures { result ≡ defined.fields_len version }
{
    match version {
        0..0x20100 => 44,
        0x20100..0x20200 => 48,
        0x20200..0x20300 => 52,
        0x20300..0x20400 => 64,
        0x20400..0x20500 => 88,
        _ => 96,
    }
}

// Returns the version if it is one that is read.
fn readable_version(version: u32) -> Result<u32>
    ensures { Reads (λ v. v) result (defined.readable_version version) }
{
    if version < 0x20001 || version > 0x2f000 {
        return Err(Error::Malformed("a code directory is of an unknown version"));
    }
    Ok(version)
}

// Returns the hash if its size is the one that the directory gives, and the page size is one that is read.
fn sized_hash(head: &DirectoryHead, hash: HashType) -> Result<HashType>
    ensures hash { Reads (λ h. h) result (defined.sized_hash head.now hash) }
    ensures power { OnOk result (head.now.page_size ≤ 31) }
{
    if head.hash_size != hash.size() {
        return Err(Error::Malformed("a code directory has a hash size that is not its hash's"));
    }
    if head.page_size > 31 {
        return Err(Error::Malformed("a code directory has pages of more than 2^31 bytes"));
    }
    Ok(hash)
}

// Returns the hash if the slots lie in the directory.
fn with_slots(bytes: &[u8], head: &DirectoryHead, hash: HashType) -> Result<HashType>
    ensures hash { Reads (λ h. h) result (defined.with_slots bytes.now head.now hash) }
    ensures special { OnOk result (head.now.n_special_slots * head.now.hash_size ≤ head.now.hash_offset) }
    ensures code { OnOk result (head.now.hash_offset + head.now.n_code_slots * head.now.hash_size ≤ length bytes.now) }
{
    let size = usize::from(head.hash_size);
    let offset = head.hash_offset as usize;
    let special = head.n_special_slots as usize;
    let code = head.n_code_slots as usize;
    if offset > bytes.len() {
        return Err(Error::Scroll(ScrollError::BadOffset(offset)));
    }
    if special * size > offset {
        return Err(Error::BufferTooShort(special, "special slots"));
    }
    if code * size > bytes.len() - offset {
        return Err(Error::BufferTooShort(code, "code slots"));
    }
    Ok(hash)
}

// Reads a field of four bytes that directories have since version `first`.
fn short_from(version: u32, first: u32, bytes: &[u8], place: usize) -> Option<u32>
    requires { first ≤ version → place + 4 ≤ length bytes.now }
    ensures { result ≡ defined.field_from version first (number Big 4 (drop place bytes.now)) }
{
    if version < first {
        return None;
    }
    Some(BE.u32_at(bytes, place))
}

// Reads a field of eight bytes that directories have since version `first`.
fn long_from(version: u32, first: u32, bytes: &[u8], place: usize) -> Option<u64>
    requires { first ≤ version → place + 8 ≤ length bytes.now }
    ensures { result ≡ defined.field_from version first (number Big 8 (drop place bytes.now)) }
{
    if version < first {
        return None;
    }
    Some(BE.u64_at(bytes, place))
}

// Reads the executable segment, which directories have since version 0x20400.
fn executable_of(version: u32, bytes: &[u8]) -> Option<ExecutableSegment>
    requires { defined.fields_len version ≤ length bytes.now }
    ensures { result ≡ defined.executable_of version bytes.now }
{
    if version < 0x20400 {
        return None;
    }
    Some(ExecutableSegment {
        base: BE.u64_at(bytes, 64),
        limit: BE.u64_at(bytes, 72),
        flags: BE.u64_at(bytes, 80),
    })
}

// Reads the fields for the hardened runtime, which directories have since version 0x20500.
fn runtime_of(version: u32, bytes: &[u8]) -> Option<RuntimeFields>
    requires { defined.fields_len version ≤ length bytes.now }
    ensures { result ≡ defined.runtime_of version bytes.now }
{
    if version < 0x20500 {
        return None;
    }
    Some(RuntimeFields {
        version: BE.u32_at(bytes, 88),
        pre_encrypt_offset: BE.u32_at(bytes, 92),
    })
}

// Returns how many pages of `size` bytes cover `limit` bytes.
fn pages_of(limit: u64, size: u64) -> u64
    requires { 1 ≤ size }
    ensures { result ≡ (limit + (size - 1)) / size }
{
    limit.div_ceil(size)
}

// Returns the name at a place; 0 means none. It is `Malformed` if no zero byte ends it.
fn name_at(bytes: &[u8], place: Option<u32>) -> Result<Option<&str>>
    ensures { Reads (option_map (λ name. name.now)) result (defined.name_at bytes.now place) }
{
    let Some(place) = place else {
        return Ok(None);
    };
    if place == 0 {
        return Ok(None);
    }
    let rest = try_rest_at(bytes, place as usize)?;
    if !rest.contains(&0) {
        return Err(Error::Malformed("a name of a code directory has no end"));
    }
    let name = read_text(bytes, place as usize)?;
    Ok(Some(name))
}

impl<'a> CodeDirectory<'a> {
    ghost use Rattle.mach_signature.specs.DirectoryViews.{directory_view, slot_read};
    ghost use Rattle.mach_signature.specs.Directories.{directory_at, identifier_of, team_of, code_limit_of, page_count_of, page_start, page_end};
    ghost use Rattle.mach_signature.specs.Directories.{code_slot_of, special_slot_of, cdhash_of, full_cdhash_of};
    ghost use Rattle.mach_signature.specs.Hashes.{hash_bytes};

    /// Reads a blob as a code directory.
    ///
    /// It is `BadMagic` if the blob begins with another magic. It is `Malformed` if the version, the hash or the page size isn't
    /// one that is read, and `BadOffset` or `BufferTooShort` if the slots don't lie in the blob.
    #[tactic(auto, unfolding(crate::specs::Directories::directory_at))]
    pub fn parse(bytes: &'a [u8]) -> Result<CodeDirectory<'a>>
        ensures { Reads directory_view result (directory_at bytes.now) }
    {
        let magic = read_u32(bytes, 0, BE)?;
        if magic != MAGIC_DIRECTORY {
            return Err(Error::BadMagic(u64::from(magic)));
        }
        let head = DirectoryHead::read(bytes, 0, BE)?;
        let version = readable_version(head.version)?;
        room(bytes, fields_len(version))?;
        let Some(found) = HashType::of(head.hash_type) else {
            return Err(Error::Malformed("a code directory is of an unknown hash type"));
        };
        let sized = sized_hash(&head, found)?;
        let hash = with_slots(bytes, &head, sized)?;
        Ok(Self::with(bytes, head, hash))
    }

    // Builds the directory from its head; its fields and slots lie in the bytes.
    fn with(bytes: &'a [u8], head: DirectoryHead, hash: HashType) -> CodeDirectory<'a>
        requires room { defined.fields_len head.version ≤ length bytes.now }
        requires special { head.n_special_slots * head.hash_size ≤ head.hash_offset }
        requires code { head.hash_offset + head.n_code_slots * head.hash_size ≤ length bytes.now }
        requires power { head.page_size ≤ 31 }
        ensures { directory_view result ≡ defined.directory_with bytes.now head hash }
    {
        let version = head.version;
        let scatter_offset = short_from(version, 0x20100, bytes, 44);
        let team_offset = short_from(version, 0x20200, bytes, 48);
        let spare3 = short_from(version, 0x20300, bytes, 52);
        let code_limit64 = long_from(version, 0x20300, bytes, 56);
        let executable = executable_of(version, bytes);
        let runtime = runtime_of(version, bytes);
        CodeDirectory {
            bytes,
            head,
            hash,
            scatter_offset,
            team_offset,
            spare3,
            code_limit64,
            executable,
            runtime,
        }
    }

    /// Returns the identifier of the code, if it has one. It is `BadOffset` if it doesn't lie in the directory, `Malformed` if no
    /// zero byte ends it, and `BadInput` if it isn't UTF-8.
    #[tactic(auto, unfolding(crate::specs::Directories::identifier_of))]
    pub fn identifier(&self) -> Result<Option<&'a str>>
        ensures { Reads (option_map (λ name. name.now)) result (identifier_of (directory_view self.now)) }
    {
        name_at(self.bytes, Some(self.head.ident_offset))
    }

    /// Returns the name of the team, if it has one. Errors are those of `identifier`.
    #[tactic(auto, unfolding(crate::specs::Directories::team_of))]
    pub fn team(&self) -> Result<Option<&'a str>>
        ensures { Reads (option_map (λ name. name.now)) result (team_of (directory_view self.now)) }
    {
        name_at(self.bytes, self.team_offset)
    }

    /// Returns how many bytes of the image are covered.
    pub fn code_limit(&self) -> u64
        ensures { result ≡ code_limit_of (directory_view self.now) }
    {
        match self.code_limit64 {
            Some(long) if long != 0 => long,
            _ => u64::from(self.head.code_limit),
        }
    }

    // Returns how many bytes each page has except the last.
    fn page_len(&self) -> u64
        ensures value { result ≡ 2 ^ self.now.head.page_size }
        ensures some { 1 ≤ result }
        ensures within { result ≤ 2 ^ 31 }
    {
        1 << self.head.page_size
    }

    /// Returns how many pages the covered bytes have.
    pub fn page_count(&self) -> u64
        ensures { result ≡ page_count_of (directory_view self.now) }
    {
        let limit = self.code_limit();
        if self.head.page_size == 0 {
            return if limit == 0 { 0 } else { 1 };
        }
        pages_of(limit, self.page_len())
    }

    /// Returns the range of a page's bytes in the image.
    pub fn page(&self, index: u32) -> Range<u64>
        ensures { result ≡ record { start = page_start (directory_view self.now) index; end = page_end (directory_view self.now) index } }
    {
        let limit = self.code_limit();
        if self.head.page_size == 0 {
            return 0..limit;
        }
        let start = u64::from(index) * self.page_len();
        start..(start + self.page_len()).min(limit)
    }

    // Returns the hash at a place.
    fn slot_at(&self, place: usize) -> &'a [u8]
        requires { place + self.now.head.hash_size ≤ length self.now.bytes.now }
        ensures { result.now ≡ defined.slot_bytes (directory_view self.now) place }
    {
        &self.bytes[place..place + usize::from(self.head.hash_size)]
    }

    /// Returns the hash of a page, if there is a page of this number.
    pub fn code_slot(&self, index: u32) -> Option<&'a [u8]>
        ensures { slot_read result ≡ code_slot_of (directory_view self.now) index }
    {
        if index >= self.head.n_code_slots {
            return None;
        }
        let before = index as usize * usize::from(self.head.hash_size);
        Some(self.slot_at(self.head.hash_offset as usize + before))
    }

    /// Returns the hash of a special slot, if there is one of this number. Special slots count from 1.
    pub fn special_slot(&self, number: u32) -> Option<&'a [u8]>
        ensures { slot_read result ≡ special_slot_of (directory_view self.now) number }
    {
        if number == 0 || number > self.head.n_special_slots {
            return None;
        }
        let following = number as usize * usize::from(self.head.hash_size);
        Some(self.slot_at(self.head.hash_offset as usize - following))
    }

    /// Returns the first 20 bytes of the directory's own hash. Callers compare them to identify the directory.
    pub fn cdhash(&self) -> [u8; 20]
        ensures { result ≡ cdhash_of (directory_view self.now) }
    {
        self.hash.first_bytes(self.bytes)
    }

    /// Returns the directory's whole hash. It begins with `cdhash`.
    pub fn full_cdhash(&self) -> HashBytes
        ensures { hash_bytes result ≡ full_cdhash_of (directory_view self.now) }
    {
        self.hash.digest(self.bytes)
    }
}
