//! The record of a symbol (`mach-o/nlist.h`).

ghost use Rattle.std.specs.Prelude.{◌≡◌, ◌<◌, ◌↔◌, IsTrue};
ghost use Rattle.mach_base.specs.Answer.{Reads};
ghost use Rattle.mach_parts.specs.Symbols.{nlist_at, type_of, type_name, IsGlobal, IsWeakSymbol, IsUndefined, IsStab};

use crate::symbols::names::{N_EXT, N_STAB, N_TYPE, N_UNDF, N_WEAK_DEF, N_WEAK_REF, n_type_to_str};
use mach_base::{
    Container, Ctx, Endian, Error, IntoCtx, Record, RecordBytes, Result, SizeWith, TryFromCtx,
    TryIntoCtx, low_bits,
};

/// The size of a `Nlist32` in bytes.
pub const SIZEOF_NLIST_32: usize = 12;

/// The size of a `Nlist64` in bytes.
pub const SIZEOF_NLIST_64: usize = 16;

/// The record of a symbol in a 32-bit image (struct nlist).
#[derive(Clone, Copy, Debug)]
pub struct Nlist32 {
    /// The offset of its name in the string table.
    pub n_strx: u32,
    /// Its type and visibility.
    pub n_type: u8,
    /// The number of its section, counted from 1, or `NO_SECT`.
    pub n_sect: u8,
    /// Flags.
    pub n_desc: u16,
    /// Its value, usually an address.
    pub n_value: u32,
}

impl Record for Nlist32 {
    const SIZE: usize = SIZEOF_NLIST_32;

    ghost SIZE = { 12 };

    ghost use Rattle.mach_parts.specs.Symbols.{nlist32_fields, nlist32_values};
    ghost use Rattle.std.proofs.Common.{rules};

    ghost fields = { nlist32_fields };

    ghost values = { nlist32_values };

    ghost lawful = { Prim.search rules };

    fn load(bytes: &[u8], le: Endian) -> Self {
        Nlist32 {
            n_strx: le.u32_at(bytes, 0),
            n_type: le.u8_at(bytes, 4),
            n_sect: le.u8_at(bytes, 5),
            n_desc: le.u16_at(bytes, 6),
            n_value: le.u32_at(bytes, 8),
        }
    }

    fn store(self, le: Endian) -> RecordBytes {
        RecordBytes::new()
            .u32(le, self.n_strx)
            .u8(le, self.n_type)
            .u8(le, self.n_sect)
            .u16(le, self.n_desc)
            .u32(le, self.n_value)
    }
}

/// The record of a symbol in a 64-bit image (struct nlist_64).
#[derive(Clone, Copy, Debug)]
pub struct Nlist64 {
    /// The offset of its name in the string table.
    pub n_strx: u32,
    /// Its type and visibility.
    pub n_type: u8,
    /// The number of its section, counted from 1, or `NO_SECT`.
    pub n_sect: u8,
    /// Flags.
    pub n_desc: u16,
    /// Its value, usually an address.
    pub n_value: u64,
}

impl Record for Nlist64 {
    const SIZE: usize = SIZEOF_NLIST_64;

    ghost SIZE = { 16 };

    ghost use Rattle.mach_parts.specs.Symbols.{nlist64_fields, nlist64_values};
    ghost use Rattle.std.proofs.Common.{rules};

    ghost fields = { nlist64_fields };

    ghost values = { nlist64_values };

    ghost lawful = { Prim.search rules };

    fn load(bytes: &[u8], le: Endian) -> Self {
        Nlist64 {
            n_strx: le.u32_at(bytes, 0),
            n_type: le.u8_at(bytes, 4),
            n_sect: le.u8_at(bytes, 5),
            n_desc: le.u16_at(bytes, 6),
            n_value: le.u64_at(bytes, 8),
        }
    }

    fn store(self, le: Endian) -> RecordBytes {
        RecordBytes::new()
            .u32(le, self.n_strx)
            .u8(le, self.n_type)
            .u8(le, self.n_sect)
            .u16(le, self.n_desc)
            .u64(le, self.n_value)
    }
}

/// The record of a symbol, for images of either width.
#[derive(Clone, Debug, Drop)]
pub struct Nlist {
    /// The offset of its name in the string table.
    pub n_strx: usize,
    /// Its type and visibility.
    pub n_type: u8,
    /// The number of its section, counted from 1, or `NO_SECT`.
    pub n_sect: usize,
    /// Flags.
    pub n_desc: u16,
    /// Its value, usually an address.
    pub n_value: u64,
}

impl Nlist {
    /// Returns its type: the bits of `N_TYPE`.
    pub fn get_type(&self) -> u8
        ensures { result ≡ type_of self.now.n_type }
    {
        self.n_type & N_TYPE
    }

    /// Returns the name of its type, or `UNKNOWN_N_TYPE`.
    pub fn type_str(&self) -> &'static str
        ensures { result.now ≡ type_name (type_of self.now.n_type) }
    {
        n_type_to_str(self.get_type())
    }

    /// Whether it is visible outside the image.
    pub fn is_global(&self) -> bool
        ensures { IsTrue result ↔ IsGlobal self.now }
    {
        self.n_type & N_EXT != 0
    }

    /// Whether it is a weak reference or a weak definition.
    pub fn is_weak(&self) -> bool
        ensures { IsTrue result ↔ IsWeakSymbol self.now }
    {
        self.n_desc & (N_WEAK_REF | N_WEAK_DEF) != 0
    }

    /// Whether it is undefined: it is in no section and of type `N_UNDF`. Another image defines it.
    pub fn is_undefined(&self) -> bool
        ensures { IsTrue result ↔ IsUndefined self.now }
    {
        self.n_sect == 0 && self.get_type() == N_UNDF
    }

    /// Whether it is a debugging entry.
    pub fn is_stab(&self) -> bool
        ensures { IsTrue result ↔ IsStab self.now }
    {
        self.n_type & N_STAB != 0
    }

    /// Reads the symbol's record at `offset`.
    pub(crate) fn read(bytes: &[u8], offset: usize, ctx: Ctx) -> Result<Nlist>
        ensures { Reads (λ symbol. symbol) result (nlist_at ctx bytes.now offset) }
    {
        match ctx.container {
            Container::Little => Ok(Nlist::from(Nlist32::read(bytes, offset, ctx.le)?)),
            Container::Big => Ok(Nlist::from(Nlist64::read(bytes, offset, ctx.le)?)),
        }
    }
}

impl From<Nlist32> for Nlist {
    ghost use Rattle.mach_parts.specs.Symbols.{of_nlist32};

    ghost from_gives = { λ narrow symbol. symbol ≡ of_nlist32 narrow };

    fn from(symbol: Nlist32) -> Nlist {
        Nlist {
            n_strx: symbol.n_strx as usize,
            n_type: symbol.n_type,
            n_sect: usize::from(symbol.n_sect),
            n_desc: symbol.n_desc,
            n_value: u64::from(symbol.n_value),
        }
    }
}

impl From<Nlist64> for Nlist {
    ghost use Rattle.mach_parts.specs.Symbols.{of_nlist64};

    ghost from_gives = { λ wide symbol. symbol ≡ of_nlist64 wide };

    fn from(symbol: Nlist64) -> Nlist {
        Nlist {
            n_strx: symbol.n_strx as usize,
            n_type: symbol.n_type,
            n_sect: usize::from(symbol.n_sect),
            n_desc: symbol.n_desc,
            n_value: symbol.n_value,
        }
    }
}

impl From<Nlist> for Nlist32 {
    ghost use Rattle.mach_parts.specs.Symbols.{to_nlist32};

    ghost from_gives = { λ symbol narrow. narrow ≡ to_nlist32 symbol };

    /// Keeps the low 32 bits of the name's offset and of the value, and the low 8 bits of the section number.
    fn from(symbol: Nlist) -> Nlist32 {
        Nlist32 {
            n_strx: low_bits(symbol.n_strx as u64),
            n_type: symbol.n_type,
            n_sect: (symbol.n_sect & 0xff) as u8,
            n_desc: symbol.n_desc,
            n_value: low_bits(symbol.n_value),
        }
    }
}

impl From<Nlist> for Nlist64 {
    ghost use Rattle.mach_parts.specs.Symbols.{to_nlist64};

    ghost from_gives = { λ symbol wide. wide ≡ to_nlist64 symbol };

    /// Keeps the low 32 bits of the name's offset, and the low 8 bits of the section number.
    fn from(symbol: Nlist) -> Nlist64 {
        Nlist64 {
            n_strx: low_bits(symbol.n_strx as u64),
            n_type: symbol.n_type,
            n_sect: (symbol.n_sect & 0xff) as u8,
            n_desc: symbol.n_desc,
            n_value: symbol.n_value,
        }
    }
}

impl<'a> TryFromCtx<'a, Ctx> for Nlist {
    type Error = Error;

    ghost use Rattle.mach_base.specs.Fault.{fault_of};
    ghost use Rattle.mach_base.specs.Front.{same_fault, with_width};
    ghost use Rattle.mach_parts.specs.declared.symbols.nlist.Nlist as declared;
    ghost use Rattle.mach_parts.specs.Symbols.{nlist_size};

    ghost fault = { fault_of };

    ghost keeps_fault = { same_fault };

    ghost View = { declared.Nlist };

    ghost view = { λ symbol. symbol };

    ghost front = { λ ctx bytes. with_width (nlist_size ctx.container) (nlist_at ctx bytes 0) };

    fn try_from_ctx(bytes: &'a [u8], ctx: Ctx) -> Result<(Nlist, usize)> {
        let symbol = Nlist::read(bytes, 0, ctx)?;
        Ok((symbol, Nlist::size_with(&ctx)))
    }
}

impl TryIntoCtx<Ctx> for Nlist {
    ghost use Rattle.std.proofs.Common.{zero-lt-suc};
    ghost use Rattle.mach_base.specs.declared.context.Container.TheVariants.{Little, Big};
    ghost use Rattle.mach_parts.specs.Symbols.{nlist_size, nlist_spelling};

    ghost spelled = { λ ctx symbol. nlist_spelling ctx.container ctx.le symbol };

    ghost width = { λ ctx _. nlist_size ctx.container };

    ghost not_empty = { λ ctx _. elim ctx.container as (λ w. 0 < nlist_size w) [ Little ↦ zero-lt-suc _ | Big ↦ zero-lt-suc _ ] };

    /// Writes the record in the context's width.
    fn try_into_ctx(self, bytes: &mut [u8], ctx: Ctx) -> Result<usize> {
        match ctx.container {
            Container::Little => Nlist32::from(self).try_into_ctx(bytes, ctx.le),
            Container::Big => Nlist64::from(self).try_into_ctx(bytes, ctx.le),
        }
    }
}

impl IntoCtx<Ctx> for Nlist {}

impl SizeWith<Ctx> for Nlist {
    ghost use Rattle.mach_parts.specs.Symbols.{nlist_size};

    ghost size = { λ ctx. nlist_size ctx.container };

    fn size_with(ctx: &Ctx) -> usize {
        match ctx.container {
            Container::Little => SIZEOF_NLIST_32,
            Container::Big => SIZEOF_NLIST_64,
        }
    }
}
