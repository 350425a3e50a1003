//! The types and flags of symbols, with the names of the types (`mach-o/nlist.h`, `mach-o/stab.h`).

ghost use Rattle.std.specs.Prelude.{◌≡◌};
ghost use Rattle.mach_parts.specs.Symbols.{type_name};

/// The bits of a type that only debugging entries have.
pub const N_STAB: u8 = 0xe0;

/// Visible outside its object file but not outside the image (private external).
pub const N_PEXT: u8 = 0x10;

/// The bits of a symbol's type.
pub const N_TYPE: u8 = 0xe;

/// Visible outside the image (external).
pub const N_EXT: u8 = 0x1;

/// Undefined: defined in another image.
pub const N_UNDF: u8 = 0x0;

/// An absolute value.
pub const N_ABS: u8 = 0x2;

/// Defined in a section.
pub const N_SECT: u8 = 0xe;

/// Undefined, and prebound.
pub const N_PBUD: u8 = 0xc;

/// An alias of another symbol (indirect).
pub const N_INDR: u8 = 0xa;

/// A global variable.
pub const N_GSYM: u8 = 0x20;

/// The name of a procedure.
pub const N_FNAME: u8 = 0x22;

/// A procedure.
pub const N_FUN: u8 = 0x24;

/// A static variable.
pub const N_STSYM: u8 = 0x26;

/// A static variable of zeros.
pub const N_LCSYM: u8 = 0x28;

/// The beginning of a section's symbol.
pub const N_BNSYM: u8 = 0x2e;

/// A global Pascal symbol.
pub const N_PC: u8 = 0x30;

/// The path of a syntax tree.
pub const N_AST: u8 = 0x32;

/// Options of the compiler.
pub const N_OPT: u8 = 0x3c;

/// A variable in a register.
pub const N_RSYM: u8 = 0x40;

/// A line of the source.
pub const N_SLINE: u8 = 0x44;

/// The end of a section's symbol.
pub const N_ENSYM: u8 = 0x4e;

/// An element of a structure.
pub const N_SSYM: u8 = 0x60;

/// A source file.
pub const N_SO: u8 = 0x64;

/// An object file.
pub const N_OSO: u8 = 0x66;

/// A local variable.
pub const N_LSYM: u8 = 0x80;

/// The beginning of an included file.
pub const N_BINCL: u8 = 0x82;

/// An included file.
pub const N_SOL: u8 = 0x84;

/// The compiler's parameters.
pub const N_PARAMS: u8 = 0x86;

/// The compiler's version.
pub const N_VERSION: u8 = 0x88;

/// The compiler's level of optimization.
pub const N_OLEVEL: u8 = 0x8a;

/// A parameter.
pub const N_PSYM: u8 = 0xa0;

/// The end of an included file.
pub const N_EINCL: u8 = 0xa2;

/// An alternate entry of a procedure.
pub const N_ENTRY: u8 = 0xa4;

/// A left bracket.
pub const N_LBRAC: u8 = 0xc0;

/// An included file that is omitted.
pub const N_EXCL: u8 = 0xc2;

/// A right bracket.
pub const N_RBRAC: u8 = 0xe0;

/// The beginning of a common block.
pub const N_BCOMM: u8 = 0xe2;

/// The end of a common block.
pub const N_ECOMM: u8 = 0xe4;

/// The end of a local common block.
pub const N_ECOML: u8 = 0xe8;

/// The length of the preceding entry.
pub const N_LENG: u8 = 0xfe;

/// No section.
pub const NO_SECT: u8 = 0x0;

/// The highest section number.
pub const MAX_SECT: u8 = 0xff;

/// The bits of a symbol's type.
pub const NLIST_TYPE_MASK: u8 = 0xe;

/// Visible outside the image.
pub const NLIST_TYPE_GLOBAL: u8 = 0x1;

/// Visible inside the image.
pub const NLIST_TYPE_LOCAL: u8 = 0x0;

/// The bits of `n_desc` that hold the kind of reference of an undefined symbol.
pub const REFERENCE_TYPE: u16 = 0xf;

/// An undefined symbol, bound when the image is loaded.
pub const REFERENCE_FLAG_UNDEFINED_NON_LAZY: u16 = 0x0;

/// An undefined symbol, bound at its first use.
pub const REFERENCE_FLAG_UNDEFINED_LAZY: u16 = 0x1;

/// A symbol defined in this module.
pub const REFERENCE_FLAG_DEFINED: u16 = 0x2;

/// A symbol defined in this module, and visible only in its image.
pub const REFERENCE_FLAG_PRIVATE_DEFINED: u16 = 0x3;

/// A symbol of another module of the image, bound when it is loaded.
pub const REFERENCE_FLAG_PRIVATE_UNDEFINED_NON_LAZY: u16 = 0x4;

/// A symbol of another module of the image, bound at its first use.
pub const REFERENCE_FLAG_PRIVATE_UNDEFINED_LAZY: u16 = 0x5;

/// Looked up by name at run time, so it is not stripped.
pub const REFERENCED_DYNAMICALLY: u16 = 0x10;

/// For the dynamic linker at run time.
pub const N_DESC_DISCARDED: u16 = 0x20;

/// Never stripped as unused, in an object file.
pub const N_NO_DEAD_STRIP: u16 = 0x20;

/// A weak reference: 0 if nothing defines it.
pub const N_WEAK_REF: u16 = 0x40;

/// A weak definition: another definition replaces it.
pub const N_WEAK_DEF: u16 = 0x80;

/// Returns the name of a symbol's type, or `UNKNOWN_N_TYPE`.
pub fn n_type_to_str(n_type: u8) -> &'static str
    ensures { result.now ≡ type_name n_type }
{
    match n_type {
        N_UNDF => "N_UNDF",
        N_ABS => "N_ABS",
        N_SECT => "N_SECT",
        N_PBUD => "N_PBUD",
        N_INDR => "N_INDR",
        _ => "UNKNOWN_N_TYPE",
    }
}
