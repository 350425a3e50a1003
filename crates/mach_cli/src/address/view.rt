//! What the program prints of an image for addresses.

ghost use Rattle.std.specs.Prelude.{◌≡◌, ℕ, List, true, IfErr, IfOk};
ghost use Rattle.std.specs.Io.KnownBytes.{Appends};
ghost use Rattle.goblin_mach.specs.OpenImage.{IsLossyImage};
ghost use Rattle.mach_cli.specs.AddressLines.{at_line, AreAddressLines};
ghost use Rattle.mach_cli.specs.AddressObjects.{at_element, AreAddressMembers};
ghost use Rattle.mach_cli.specs.AddressRows.{AreAddressRows};

use crate::address::line::AtText;
use crate::address::loaded::Loaded;
use crate::address::object::AtObject;
use crate::failure::ShowFailure;
use crate::image_view::{ImageView, Outcome};
use crate::json::array::comma_before;
use crate::name_text::file_if;
use goblin_mach::{FoundAt, MachO};
use std::alloc::Allocator;
use std::io;
use std::io::Write;

// How what an image has at an address is written.
trait AddressRow {
    ghost use Rattle.std.specs.Prelude.{Bool, List, ℕ, Option, OnOk};
    ghost use Rattle.std.specs.Borrow.{Bor};
    ghost use Rattle.std.specs.Io.KnownBytes.{Appends};
    ghost use Rattle.goblin_mach.specs.declared.addresses.FoundAt.{FoundAt};

    // Its text, given the name of the file if that is selected.
    ghost row_text: { Self → Option (Bor (List ℕ)) → (is_first : Bool) → (address : ℕ) → FoundAt → List ℕ };

    // Writes it.
    fn write_row<O: Write>(
        &self,
        file: Option<&str>,
        is_first: bool,
        address: u64,
        found: &FoundAt<'_>,
        out: &mut O,
    ) -> io::Result<()>
        ensures { OnOk result (Appends (O.contents out.old) (O.contents out.new) (row_text self.now file.entry is_first address found.now)) };
}

// Writes what an image has at addresses, a row for each, in order. Returns whether a section holds each.
fn write_rows<R: AddressRow, A: Allocator, B: Allocator, O: Write>(
    form: &R,
    file: Option<&str>,
    loaded: &Loaded<'_, '_, A, B>,
    addresses: &[u64],
    out: &mut O,
) -> io::Result<bool>
    ensures { (bytes : List ℕ) → IsLossyImage bytes 0 loaded.now.image.now → IfOk result (λ whole. (text : List ℕ)
        × AreAddressRows (R.row_text form.now file.entry) loaded.now.load_address bytes true addresses.now text whole
        × Appends (O.contents out.old) (O.contents out.new) text) }
{
    let (mut whole, mut is_first) = (true, true);
    'addresses: for address in addresses {
        let found = loaded.look_up(*address);
        form.write_row(file, is_first, *address, &found, out)?;
        whole &= found.section.is_some();
        is_first = false;
    }
    Ok(whole)
}

/// The lines of what an image has at addresses.
#[derive(Clone, Copy)]
pub struct AddressLinesOf<'t> {
    /// The addresses.
    pub addresses: &'t [u64],
    /// The address at which the image's first byte is loaded, if it isn't its base.
    pub load_address: Option<u64>,
    /// The name of the file is before each line.
    pub has_file: bool,
    /// Names are printed as they are.
    pub is_raw: bool,
}

impl AddressRow for AddressLinesOf<'_> {
    ghost row_text = { λ s. at_line s.is_raw };

    fn write_row<O: Write>(
        &self,
        file: Option<&str>,
        _is_first: bool,
        address: u64,
        found: &FoundAt<'_>,
        out: &mut O,
    ) -> io::Result<()> {
        let is_raw = self.is_raw;
        let line = AtText {
            file,
            is_raw,
            address,
            found,
        };
        writeln!(out, "{line}")
    }
}

impl ImageView for AddressLinesOf<'_> {
    ghost lines = { λ s. AreAddressLines s.load_address s.addresses.now s.has_file s.is_raw };

    fn show<A: Allocator + Clone, O: Write>(
        &self,
        alloc: &A,
        file: &str,
        image: &MachO<'_, A>,
        _limit: usize,
        left: usize,
        out: &mut O,
    ) -> Result<Outcome, ShowFailure> {
        let loaded = Loaded::at(self.load_address, alloc, image, self.addresses.len())?;
        let file = file_if(self.has_file, file);
        let whole = write_rows(self, file, &loaded, self.addresses, out)?;
        Ok(Outcome { whole, left })
    }
}

/// The objects of what an image has at addresses.
#[derive(Clone, Copy)]
pub struct AddressObjectsOf<'t> {
    /// The addresses.
    pub addresses: &'t [u64],
    /// The address at which the image's first byte is loaded, if it isn't its base.
    pub load_address: Option<u64>,
}

impl AddressRow for AddressObjectsOf<'_> {
    ghost row_text = { λ s file. at_element };

    fn write_row<O: Write>(
        &self,
        _file: Option<&str>,
        is_first: bool,
        address: u64,
        found: &FoundAt<'_>,
        out: &mut O,
    ) -> io::Result<()> {
        let comma = comma_before(is_first);
        let object = AtObject { address, found };
        write!(out, "{comma}{object}")
    }
}

impl ImageView for AddressObjectsOf<'_> {
    ghost lines = { λ s. AreAddressMembers s.load_address s.addresses.now };

    fn show<A: Allocator + Clone, O: Write>(
        &self,
        alloc: &A,
        _file: &str,
        image: &MachO<'_, A>,
        _limit: usize,
        left: usize,
        out: &mut O,
    ) -> Result<Outcome, ShowFailure> {
        let loaded = Loaded::at(self.load_address, alloc, image, self.addresses.len())?;
        write!(out, "\"at\":[")?;
        let whole = write_rows(self, None, &loaded, self.addresses, out)?;
        write!(out, "],\"kind\":\"image\"")?;
        Ok(Outcome { whole, left })
    }
}
