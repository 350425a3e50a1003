//! The opcodes of rebases (`mach-o/loader.h`).

/// Correct a pointer.
pub const REBASE_TYPE_POINTER: u8 = 1;

/// Correct an absolute address of 32 bits in code.
pub const REBASE_TYPE_TEXT_ABSOLUTE32: u8 = 2;

/// Correct a relative address of 32 bits in code.
pub const REBASE_TYPE_TEXT_PCREL32: u8 = 3;

/// The half of a byte that is the opcode.
pub const REBASE_OPCODE_MASK: u8 = 0xf0;

/// The half of a byte that is the immediate.
pub const REBASE_IMMEDIATE_MASK: u8 = 0x0f;

/// The stream ends.
pub const REBASE_OPCODE_DONE: u8 = 0x00;

/// The type is the immediate.
pub const REBASE_OPCODE_SET_TYPE_IMM: u8 = 0x10;

/// The segment is the immediate, and the offset in it a ULEB128 number.
pub const REBASE_OPCODE_SET_SEGMENT_AND_OFFSET_ULEB: u8 = 0x20;

/// Advance by a ULEB128 number.
pub const REBASE_OPCODE_ADD_ADDR_ULEB: u8 = 0x30;

/// Advance by as many pointers as the immediate says.
pub const REBASE_OPCODE_ADD_ADDR_IMM_SCALED: u8 = 0x40;

/// As many times as the immediate says: rebase, then advance by a pointer.
pub const REBASE_OPCODE_DO_REBASE_IMM_TIMES: u8 = 0x50;

/// As many times as a ULEB128 number says: rebase, then advance by a pointer.
pub const REBASE_OPCODE_DO_REBASE_ULEB_TIMES: u8 = 0x60;

/// Rebase, then advance by a ULEB128 number and a pointer.
pub const REBASE_OPCODE_DO_REBASE_ADD_ADDR_ULEB: u8 = 0x70;

/// As many times as a ULEB128 number says: rebase, then advance by a second number and a pointer.
pub const REBASE_OPCODE_DO_REBASE_ULEB_TIMES_SKIPPING_ULEB: u8 = 0x80;
