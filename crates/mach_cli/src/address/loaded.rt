//! An image where it is loaded.

ghost use Rattle.std.specs.Prelude.{◌≡◌, ℕ, List, IfOk, IfSome};
ghost use Rattle.std.proofs.Props.{props};
ghost use Rattle.goblin_mach.specs.AddressFound.{IsFoundAt};
ghost use Rattle.goblin_mach.specs.SymbolMaps.{image_of_addresses};
ghost use Rattle.goblin_mach.specs.Fixups.{base_view};
ghost use Rattle.goblin_mach.specs.OpenImage.{IsLossyImage};
ghost use Rattle.mach_cli.specs.AddressRows.{unslid_address, IsFoundLoaded};

use crate::failure::ShowFailure;
use goblin_mach::{AddressMap, FoundAt, MachO, laws};
use std::alloc::Allocator;

// So many addresses are looked up one by one. Tables for more take all symbols, with their names.
const FEW: usize = 16;

/// An image where it is loaded, for look-ups of addresses there.
#[derive(Drop)]
pub struct Loaded<'a, 'b, A: Allocator, B: Allocator> {
    // The image, the tables for many look-ups, and the address of its first byte before sliding.
    pub image: &'b MachO<'a, A>,
    pub map: Option<AddressMap<'a, 'b, A, B>>,
    pub base: u64,
    // The address at which its first byte is loaded, if it isn't that.
    pub load_address: Option<u64>,
    ghost mapped: { IfSome map (λ m. image_of_addresses m ≡ image.now) } by { Prim.hlevel props },
    ghost based: { base ≡ base_view image.now },
}

// Returns an address before sliding, in an image of this base that may be loaded at an address.
fn unslid_address(load_address: Option<u64>, base: u64, address: u64) -> Option<u64>
    ensures { result ≡ unslid_address load_address base address }
{
    match load_address {
        Some(start) => address.checked_sub(start)?.checked_add(base),
        None => Some(address),
    }
}

// Returns the tables of an image for so many look-ups, if they are many. It fails only if memory runs out.
fn map_for<'a, 'b, A: Allocator, B: Allocator + Clone>(
    alloc: &B,
    image: &'b MachO<'a, A>,
    count: usize,
) -> Result<Option<AddressMap<'a, 'b, A, B>>, ShowFailure>
    ensures { IfOk result (λ map. IfSome map (λ m. image_of_addresses m ≡ image.now)) }
{
    if count <= FEW {
        return Ok(None);
    }
    match AddressMap::new(alloc, image) {
        Ok(map) => Ok(Some(map)),
        Err(_) => Err(ShowFailure::Memory),
    }
}

impl<'a, 'b, A: Allocator, B: Allocator + Clone> Loaded<'a, 'b, A, B> {
    /// Returns an image that may be loaded at an address, for so many look-ups. It fails only if memory runs out.
    pub fn at(
        load_address: Option<u64>,
        alloc: &B,
        image: &'b MachO<'a, A>,
        count: usize,
    ) -> Result<Self, ShowFailure>
        ensures { IfOk result (λ loaded. (loaded.load_address ≡ load_address) × (loaded.image.now ≡ image.now)) }
    {
        let map = map_for(alloc, image, count)?;
        let base = image.base();
        Ok(Loaded {
            image,
            map,
            base,
            load_address,
        })
    }
}

impl<'a, A: Allocator, B: Allocator> Loaded<'a, '_, A, B> {
    // Looks up an address before sliding.
    fn found_at(&self, address: u64) -> FoundAt<'a>
        ensures { (bytes : List ℕ) → IsLossyImage bytes 0 self.now.image.now → IsFoundAt bytes address result }
    {
        match &self.map {
            Some(map) => map.look_up(address),
            None => FoundAt::look_up(self.image, address),
        }
    }

    /// Looks up an address where the image is loaded.
    pub fn look_up(&self, address: u64) -> FoundAt<'a>
        ensures { (bytes : List ℕ) → IsLossyImage bytes 0 self.now.image.now → IsFoundLoaded self.now.load_address bytes address result }
    {
        laws::base_of_image(self.image);
        match unslid_address(self.load_address, self.base, address) {
            Some(address) => self.found_at(address),
            None => FoundAt {
                section: None,
                symbol: None,
                function: None,
            },
        }
    }
}
