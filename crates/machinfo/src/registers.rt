//! The registers in the state of a thread.

ghost use Rattle.std.specs.Prelude.{◌≡◌, []};
ghost use Rattle.std.specs.Iterator.{YieldsFirstBy};
ghost use Rattle.mach_base.specs.Text.{texts};
ghost use Rattle.mach_dyld.specs.Exports.{text_in};
ghost use Rattle.mach_load.specs.ThreadState.{thread_values};
ghost use Rattle.machinfo.specs.ThreadRegisters as defined;

use goblin_mach::Endian;
use goblin_mach::cputype::{
    CPU_TYPE_ARM, CPU_TYPE_ARM64, CPU_TYPE_ARM64_32, CPU_TYPE_POWERPC, CPU_TYPE_X86,
    CPU_TYPE_X86_64,
};
use goblin_mach::load_command::ThreadCommand;

/// Which registers the words of a state are.
#[derive(Clone, Copy)]
pub enum Layout {
    X86_64,
    I386,
    Arm,
    Arm64,
    PowerPc,
    Unknown,
}

// Returns the layout of a state by the cpu and the flavor.
fn layout_of(cputype: u32, flavor: u32) -> Layout
    ensures { result ≡ defined.layout_of cputype flavor }
{
    match (cputype, flavor) {
        (CPU_TYPE_X86_64, 4) => Layout::X86_64,
        (CPU_TYPE_X86, 1) => Layout::I386,
        (CPU_TYPE_ARM, 1) => Layout::Arm,
        (CPU_TYPE_ARM64, 6) => Layout::Arm64,
        (CPU_TYPE_ARM64_32, 6) => Layout::Arm64,
        (CPU_TYPE_POWERPC, 1) => Layout::PowerPc,
        _ => Layout::Unknown,
    }
}

impl Layout {
    // Returns the names of the registers of two words each, which come first.
    fn doubles(self) -> &'static [&'static str]
        ensures { texts result.now ≡ defined.double_names self }
    {
        match self {
            Layout::X86_64 => &[
                "rax", "rbx", "rcx", "rdx", "rdi", "rsi", "rbp", "rsp", "r8", "r9", "r10", "r11",
                "r12", "r13", "r14", "r15", "rip", "rflags", "cs", "fs", "gs",
            ],
            Layout::Arm64 => &[
                "x0", "x1", "x2", "x3", "x4", "x5", "x6", "x7", "x8", "x9", "x10", "x11", "x12",
                "x13", "x14", "x15", "x16", "x17", "x18", "x19", "x20", "x21", "x22", "x23", "x24",
                "x25", "x26", "x27", "x28", "fp", "lr", "sp", "pc",
            ],
            _ => &[],
        }
    }

    // Returns the names of those of one word each, which follow.
    fn singles(self) -> &'static [&'static str]
        ensures { texts result.now ≡ defined.single_names self }
    {
        match self {
            Layout::I386 => &[
                "eax", "ebx", "ecx", "edx", "edi", "esi", "ebp", "esp", "ss", "eflags", "eip",
                "cs", "ds", "es", "fs", "gs",
            ],
            Layout::Arm => &[
                "r0", "r1", "r2", "r3", "r4", "r5", "r6", "r7", "r8", "r9", "r10", "r11", "r12",
                "sp", "lr", "pc", "cpsr",
            ],
            Layout::Arm64 => &["cpsr", "pad"],
            Layout::PowerPc => &[
                "srr0", "srr1", "r0", "r1", "r2", "r3", "r4", "r5", "r6", "r7", "r8", "r9", "r10",
                "r11", "r12", "r13", "r14", "r15", "r16", "r17", "r18", "r19", "r20", "r21", "r22",
                "r23", "r24", "r25", "r26", "r27", "r28", "r29", "r30", "r31", "cr", "xer", "lr",
                "ctr", "mq", "vrsave",
            ],
            _ => &[],
        }
    }
}

/// A register.
#[derive(Clone, Copy)]
pub struct Register {
    /// The number of its command.
    pub command: usize,
    /// The number of its first word in the state.
    pub word: usize,
    /// Its name, if that is known.
    pub name: Option<&'static str>,
    /// Its value.
    pub value: u64,
}

/// The registers of a state from a word on.
#[derive(Clone, Copy)]
pub struct Registers<'b> {
    /// The number of the command.
    pub command: usize,
    /// The byte order of the image.
    pub le: Endian,
    /// How many words the state has.
    pub total: usize,
    /// The names of the registers of two words each.
    pub doubles: &'static [&'static str],
    /// The names of those of one word each, which follow.
    pub singles: &'static [&'static str],
    /// The words.
    pub words: &'b [u32],
}

// Returns a register of two words, as a number of eight bytes in the image's byte order.
fn double(le: Endian, first: u32, second: u32) -> u64
    ensures { result ≡ defined.double_value le first second }
{
    let (low, high) = match le {
        Endian::Little => (first, second),
        Endian::Big => (second, first),
    };
    u64::from(low) + u64::from(high) * 0x1_0000_0000
}

// Returns the words of a state: as many as its count says.
fn state_words(command: &ThreadCommand) -> &[u32]
    ensures { result.now ≡ defined.words_of_state (thread_values command.now) }
{
    &command.thread_state[..(command.count as usize).min(70)]
}

impl<'b> Registers<'b> {
    /// Returns the registers of a command with this number, in this byte order, of a cpu.
    pub fn of(le: Endian, cputype: u32, number: usize, command: &'b ThreadCommand) -> Self
        ensures { defined.registers_left result ≡ defined.thread_registers le cputype number (thread_values command.now) }
    {
        let layout = layout_of(cputype, command.flavor);
        let words = state_words(command);
        Registers {
            command: number,
            le,
            total: words.len(),
            doubles: layout.doubles(),
            singles: layout.singles(),
            words,
        }
    }

    // Returns a register whose first word is the next one.
    fn register(&self, name: Option<&'static str>, value: u64) -> Register
        ensures { defined.register_view result ≡ defined.register_before self.now.command self.now.total self.now.words.now (text_in name.entry) value }
    {
        Register {
            command: self.command,
            word: self.total.saturating_sub(self.words.len()),
            name,
            value,
        }
    }

    /// Returns the next register.
    pub fn take_next(&mut self) -> Option<Register>
        ensures { YieldsFirstBy defined.register_view defined.registers_left self.old result self.new }
    {
        let [name, doubles @ ..] = self.doubles else {
            return self.take_single();
        };
        match self.words {
            [] => None,
            [word] => {
                let register = self.register(None, u64::from(*word));
                self.words = &[];
                Some(register)
            }
            [first, second, words @ ..] => {
                let value = double(self.le, *first, *second);
                let register = self.register(Some(name), value);
                self.doubles = doubles;
                self.words = words;
                Some(register)
            }
        }
    }

    // Returns the next register of one word.
    fn take_single(&mut self) -> Option<Register>
        requires { self.old.doubles.now ≡ [] }
        ensures { YieldsFirstBy defined.register_view defined.registers_left self.old result self.new }
    {
        match (self.singles, self.words) {
            (_, []) => None,
            ([], [word, words @ ..]) => {
                let register = self.register(None, u64::from(*word));
                self.words = words;
                Some(register)
            }
            ([name, singles @ ..], [word, words @ ..]) => {
                let register = self.register(Some(name), u64::from(*word));
                self.singles = singles;
                self.words = words;
                Some(register)
            }
        }
    }
}
