//! Whether an image is encrypted and stripped, and how many symbols it has.

ghost use Rattle.std.specs.Prelude.{◌≡◌, map};
ghost use Rattle.std.specs.List.{list_any};
ghost use Rattle.goblin_mach.specs.ImageSlots.{symbol_table_view};
ghost use Rattle.goblin_mach.specs.OpenImage.{commands_view};
ghost use Rattle.mach_load.specs.Variants.{command_of};
ghost use Rattle.mach_parts.specs.Symbols.{table_in_bounds, symbols_of};
ghost use Rattle.mach_parts.specs.SymbolViews.{table_of};
ghost use Rattle.mach_audit.specs.States.{is_encrypting, is_local_symbol, is_local_item, state_of_commands};

use goblin_mach::MachO;
use goblin_mach::load_command::{CommandVariant, LoadCommand};
use goblin_mach::symbols::{N_EXT, N_OPT, Nlist, Symbols};
use std::alloc::Allocator;

/// Whether an image is encrypted and stripped, and how many symbols it has.
#[derive(Clone, Copy, Drop)]
pub struct State {
    /// Whether a command says that a part of the image is encrypted.
    pub is_encrypted: bool,
    /// Whether the symbols within the bytes have none that `strip` removes.
    pub is_stripped: bool,
    /// How many symbols begin within the bytes.
    pub symbols: usize,
    /// How many more the table claims.
    pub past: usize,
}

// Whether a command says that a part of the image is encrypted.
fn is_encrypting(command: &LoadCommand) -> bool
    ensures { result ≡ is_encrypting (command_of command.now) }
{
    match &command.command {
        CommandVariant::EncryptionInfo32(c) => c.cryptid != 0,
        CommandVariant::EncryptionInfo64(c) => c.cryptid != 0,
        _ => false,
    }
}

/// Whether one of these commands says so.
pub fn is_encrypted(commands: &[LoadCommand]) -> bool
    ensures { result ≡ list_any is_encrypting (map command_of commands.now) }
{
    let mut is_encrypted = false;
    'commands: for command in commands {
        is_encrypted |= is_encrypting(command);
    }
    is_encrypted
}

// Whether a symbol is one that `strip` removes.
fn is_local_symbol(symbol: &Nlist) -> bool
    ensures { result ≡ is_local_symbol symbol.now }
{
    if symbol.is_stab() {
        symbol.n_type != N_OPT
    } else {
        symbol.n_type & N_EXT == 0
    }
}

// Whether a table has such a symbol within the bytes.
fn has_local(table: &Symbols<'_>) -> bool
    ensures { result ≡ list_any is_local_item (symbols_of (table_in_bounds (table_of table.now))) }
{
    let mut symbols = table.in_bounds().iter();
    'symbols: while let Some(item) = symbols.next() {
        if let Ok((_, symbol)) = item {
            if is_local_symbol(&symbol) {
                return true;
            }
        }
    }
    false
}

/// Returns the state of an image.
pub fn state_of<A: Allocator>(image: &MachO<'_, A>) -> State
    ensures { result ≡ state_of_commands (commands_view image.now) (symbol_table_view image.now) }
{
    let is_encrypted = is_encrypted(image.load_commands.as_slice());
    match &image.symbols {
        None => State {
            is_encrypted,
            is_stripped: true,
            symbols: 0,
            past: 0,
        },
        Some(table) => {
            let symbols = table.in_bounds().len();
            State {
                is_encrypted,
                is_stripped: !has_local(table),
                symbols,
                past: table.len() - symbols,
            }
        }
    }
}
