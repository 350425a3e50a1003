//! Records: fields one after another, in one byte order.

ghost use Rattle.std.specs.Prelude.{◌≡◌, ◌<◌, ◌≤◌, ◌+◌, ℕ, List, length, drop, take, ◌++◌, ◌∷◌, [], IfOk, IfErr, OnOk, IsOk, ◌↔◌, Ok, Err};
ghost use Rattle.mach_base.specs.Number.{number_bytes};
ghost use Rattle.mach_base.specs.Answer.{Reads};
ghost use Rattle.mach_base.specs.Fault.{fault_of};
ghost use Rattle.mach_base.specs.Items.{records_in_bounds};
ghost use Rattle.mach_base.specs.Record.{Field, Value, values_in, spelling, spelled_after, IsRecord, AllFit, record_at, IsWritten};

use crate::context::Endian;
use crate::error::{Error, Result, ScrollError};
use byteorder::{BigEndian, ByteOrder, LittleEndian};
use std::marker::Model;

/// The bytes of a record, at most 80.
#[derive(Drop)]
pub struct RecordBytes {
    buffer: [u8; 80],
    len: usize,
}

impl Model for RecordBytes {
    ghost Value = { List ℕ };

    ghost view = { λ r. take r.len r.buffer };

    ghost invariant = { λ r. r.len ≤ 80 };
}

impl RecordBytes {
    pub fn new() -> Self
        ensures { result ≡ [] }
    {
        RecordBytes {
            buffer: [0; 80],
            len: 0,
        }
    }

    fn push(&mut self, bytes: &[u8])
        requires { length self.old + length bytes.now ≤ 80 }
        ensures { self.new ≡ self.old ++ bytes.now }
    {
        let end = self.len + bytes.len();
        self.buffer[self.len..end].copy_from_slice(bytes);
        self.len = end;
    }

    /// Appends one byte.
    pub fn u8(mut self, le: Endian, x: u8) -> Self
        requires { length self + 1 ≤ 80 }
        ensures { result ≡ self ++ number_bytes le 1 x }
    {
        self.push(&[x]);
        self
    }

    /// Appends a two-byte number.
    pub fn u16(mut self, le: Endian, x: u16) -> Self
        requires { length self + 2 ≤ 80 }
        ensures { result ≡ self ++ number_bytes le 2 x }
    {
        let mut field = [0; 2];
        match le {
            Endian::Little => LittleEndian::write_u16(&mut field, x),
            Endian::Big => BigEndian::write_u16(&mut field, x),
        }
        self.push(&field);
        self
    }

    /// Appends a four-byte number.
    pub fn u32(mut self, le: Endian, x: u32) -> Self
        requires { length self + 4 ≤ 80 }
        ensures { result ≡ self ++ number_bytes le 4 x }
    {
        let mut field = [0; 4];
        match le {
            Endian::Little => LittleEndian::write_u32(&mut field, x),
            Endian::Big => BigEndian::write_u32(&mut field, x),
        }
        self.push(&field);
        self
    }

    /// Appends an eight-byte number.
    pub fn u64(mut self, le: Endian, x: u64) -> Self
        requires { length self + 8 ≤ 80 }
        ensures { result ≡ self ++ number_bytes le 8 x }
    {
        let mut field = [0; 8];
        match le {
            Endian::Little => LittleEndian::write_u64(&mut field, x),
            Endian::Big => BigEndian::write_u64(&mut field, x),
        }
        self.push(&field);
        self
    }

    /// Appends `bytes`.
    pub fn bytes(mut self, bytes: &[u8]) -> Self
        requires { length self + length bytes.now ≤ 80 }
        ensures { result ≡ self ++ bytes.now }
    {
        self.push(bytes);
        self
    }

    fn as_slice(&self) -> &[u8]
        ensures { result.now ≡ self.now }
    {
        &self.buffer[..self.len]
    }
}

/// Counts the records of `size` bytes that begin within the bytes, one after another from `start` on. No byte of any later record exists.
#[inline(always)]
pub fn records_in_bounds(bytes: &[u8], start: usize, size: usize) -> usize
    requires { 0 < size }
    ensures { result ≡ records_in_bounds (length bytes.now) start size }
{
    bytes.len().saturating_sub(start).div_ceil(size)
}

/// Fields one after another, all in one byte order.
pub trait Record: Copy {
    /// The size of the record in bytes.
    const SIZE: usize;

    ghost SIZE: { ℕ };

    // The fields, in order.
    ghost fields: { List Field };

    // The value of each field.
    ghost values: { Self → List Value };

    /// Loads the record with which the bytes begin.
    fn load(bytes: &[u8], le: Endian) -> Self
        requires { SIZE ≤ length bytes.now }
        ensures { values result ≡ values_in le fields 0 bytes.now };

    /// Returns the bytes of the record.
    fn store(self, le: Endian) -> RecordBytes
        ensures spelled { result ≡ spelled_after le [] fields (values self) }
        ensures fits { AllFit fields (values self) };

    // `SIZE` is the size of the fields together, no record is empty, and two records with the same values are equal.
    ghost lawful: { IsRecord SIZE fields values };

    /// Reads the record at `offset`.
    #[inline(always)]
    final fn read(bytes: &[u8], offset: usize, le: Endian) -> Result<Self>
        ensures { Reads values result (record_at le fields bytes.now offset) }
    {
        if offset >= bytes.len() {
            return Err(Error::Scroll(ScrollError::BadOffset(offset)));
        }
        let rest = &bytes[offset..];
        if rest.len() < Self::SIZE {
            return Err(Error::Scroll(ScrollError::TooBig {
                size: Self::SIZE,
                len: rest.len(),
            }));
        }
        Ok(Self::load(rest, le))
    }

    /// Writes the record at `offset` and returns its size. On an error the bytes are unchanged.
    final fn write(&self, bytes: &mut [u8], offset: usize, le: Endian) -> Result<usize>
        ensures written { IfOk result (λ n. (n ≡ SIZE) × IsWritten bytes.old bytes.new offset (spelling le fields (values self.now))) }
        ensures room { IsOk result ↔ (offset + SIZE ≤ length bytes.old) }
        ensures refused { IfErr result (λ e. (bytes.new ≡ bytes.old) × (record_at le fields bytes.old offset ≡ Err (fault_of e))) }
        ensures read_back { OnOk result (record_at le fields bytes.new offset ≡ Ok (values self.now)) }
        ensures sized { OnOk result (length (spelling le fields (values self.now)) ≡ SIZE) }
    {
        if offset >= bytes.len() {
            return Err(Error::Scroll(ScrollError::BadOffset(offset)));
        }
        let len = bytes.len() - offset;
        if len < Self::SIZE {
            return Err(Error::Scroll(ScrollError::TooBig {
                size: Self::SIZE,
                len,
            }));
        }
        let spelled = bytes_of(*self, le);
        let end = offset + Self::SIZE;
        bytes[offset..end].copy_from_slice(spelled.as_slice());
        Ok(Self::SIZE)
    }
}

/// Writes a record and reads it back: it is the same. On an error the bytes are unchanged.
pub fn written_and_read<R: Record>(
    held: R,
    bytes: &mut [u8],
    offset: usize,
    le: Endian,
) -> Result<R>
    ensures again { IfOk result (λ again. again ≡ held) }
    ensures room { IsOk result ↔ (offset + R.SIZE ≤ length bytes.old) }
    ensures written { OnOk result (IsWritten bytes.old bytes.new offset (spelling le R.fields (R.values held))) }
    ensures refused { IfErr result (λ e. (bytes.new ≡ bytes.old) × (record_at le R.fields bytes.old offset ≡ Err (fault_of e))) }
{
    held.write(bytes, offset, le)?;
    R::read(bytes, offset, le)
}

// Returns the bytes of a record as one list.
fn bytes_of<R: Record>(held: R, le: Endian) -> RecordBytes
    ensures spelled { result ≡ spelling le R.fields (R.values held) }
    ensures fits { AllFit R.fields (R.values held) }
{
    held.store(le)
}
