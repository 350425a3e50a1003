//! The fields of which an image has one: the last command on each decides.

ghost use Rattle.std.specs.Prelude.{◌≡◌, ℕ, List, None, false, IfErr, OnOk};
ghost use Rattle.mach_base.specs.Answer.{ErrorMeets};
ghost use Rattle.mach_base.specs.KeptText.{kept_bytes};
ghost use Rattle.mach_load.specs.Variants.{command_of};
ghost use Rattle.goblin_mach.specs.OpenImage.{TakesOnce, IsOnceRefused};
ghost use Rattle.goblin_mach.specs.Readings.{IsRead};
ghost use Rattle.goblin_mach.specs.Subjects.{table_by, id_by, trie_by, binds_by};

use crate::readings::{put, put_readable, put_readable_text, put_text};
use crate::subjects::{Binds, Ids, SymbolTables, Tries};
use mach_base::{Ctx, KeptText, Result};
use mach_dyld::exports::ExportTrie;
use mach_dyld::imports::BindInterpreter;
use mach_load::{CommandVariant, LoadCommand};
use mach_parts::symbols::Symbols;

/// The fields of which an image has one.
#[derive(Drop)]
pub struct Once<'a> {
    pub symbols: Option<Symbols<'a>>,
    pub name: Option<&'a str>,
    pub export_trie: Option<ExportTrie<'a>>,
    pub bind_interpreter: Option<BindInterpreter<'a>>,
}

// Whether a command may concern one of them.
#[inline(always)]
fn speaks_of_one(command: &LoadCommand) -> bool
    ensures symbols { result ≡ false → (ctx : Ctx) (bytes : List ℕ) → table_by ctx bytes (command_of command.now) ≡ None }
    ensures name { result ≡ false → (bytes : List ℕ) → id_by bytes (command_of command.now) ≡ None }
    ensures trie { result ≡ false → (bytes : List ℕ) → trie_by bytes (command_of command.now) ≡ None }
    ensures binds { result ≡ false → (bytes : List ℕ) → binds_by bytes (command_of command.now) ≡ None }
{
    matches!(
        command.command,
        CommandVariant::Symtab(_)
            | CommandVariant::IdDylib(_)
            | CommandVariant::DyldInfo(_)
            | CommandVariant::DyldInfoOnly(_)
            | CommandVariant::DyldExportsTrie(_)
    )
}

impl<'a> Once<'a> {
    /// Takes what one more command says. Fails if it can't be read.
    #[inline(always)]
    pub(crate) fn take(
        &mut self,
        bytes: &'a [u8],
        names: &mut KeptText<'a>,
        ctx: Ctx,
        command: &LoadCommand,
    ) -> Result<()>
        requires { kept_bytes names.old ≡ bytes.now }
        ensures found { OnOk result (TakesOnce ctx bytes.now (command_of command.now) self.old self.new) }
        ensures tables { OnOk result (IsRead (table_by ctx bytes.now (command_of command.now))) }
        ensures ids { OnOk result (IsRead (id_by bytes.now (command_of command.now))) }
        ensures refused { IfErr result (ErrorMeets (IsOnceRefused ctx bytes.now (command_of command.now))) }
        ensures bytes { kept_bytes names.new ≡ bytes.now }
    {
        if !speaks_of_one(command) {
            return Ok(());
        }
        self.take_one(bytes, names, ctx, command)
    }

    // Like `take`, out of line: few commands concern any of them.
    #[inline(never)]
    fn take_one(
        &mut self,
        bytes: &'a [u8],
        names: &mut KeptText<'a>,
        ctx: Ctx,
        command: &LoadCommand,
    ) -> Result<()>
        requires { kept_bytes names.old ≡ bytes.now }
        ensures found { OnOk result (TakesOnce ctx bytes.now (command_of command.now) self.old self.new) }
        ensures tables { OnOk result (IsRead (table_by ctx bytes.now (command_of command.now))) }
        ensures ids { OnOk result (IsRead (id_by bytes.now (command_of command.now))) }
        ensures refused { IfErr result (ErrorMeets (IsOnceRefused ctx bytes.now (command_of command.now))) }
        ensures bytes { kept_bytes names.new ≡ bytes.now }
    {
        put(&mut self.symbols, &SymbolTables { bytes, ctx }, command)?;
        put_text(&mut self.name, &Ids { bytes }, names, command)?;
        put_readable(&mut self.export_trie, &Tries { bytes }, command);
        put_readable(&mut self.bind_interpreter, &Binds { bytes }, command);
        Ok(())
    }

    /// Takes what can be read of one more command.
    pub(crate) fn take_readable(
        &mut self,
        bytes: &'a [u8],
        names: &mut KeptText<'a>,
        ctx: Ctx,
        command: &LoadCommand,
    )
        requires { kept_bytes names.old ≡ bytes.now }
        ensures found { TakesOnce ctx bytes.now (command_of command.now) self.old self.new }
        ensures bytes { kept_bytes names.new ≡ bytes.now }
    {
        put_readable(&mut self.symbols, &SymbolTables { bytes, ctx }, command);
        put_readable_text(&mut self.name, &Ids { bytes }, names, command);
        put_readable(&mut self.export_trie, &Tries { bytes }, command);
        put_readable(&mut self.bind_interpreter, &Binds { bytes }, command);
    }
}
