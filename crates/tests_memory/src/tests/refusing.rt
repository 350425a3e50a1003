//! An allocator that refuses growths by their number.

ghost use Rattle.std.specs.Prelude.{◌≡◌, IfSome};

use std::alloc::{AllocError, Allocator};
use std::cell::Cell;

/// An allocator over another one. It counts the requested growths, refuses those of some numbers, counted from 1, and grants the
/// others.
#[derive(Drop)]
pub struct Refusing<A> {
    inner: A,
    selected: Cell<u64>,
    first: u64,
    last: u64,
}

impl<A> Refusing<A> {
    // Returns the allocator that refuses the growths from one number up to another.
    fn between(inner: A, first: u64, last: u64) -> Refusing<A> {
        Refusing {
            inner,
            selected: Cell::new(0),
            first,
            last,
        }
    }

    /// Returns the allocator that refuses only the growth with this number.
    pub fn one(inner: A, number: u64) -> Refusing<A> {
        Refusing::between(inner, number, number)
    }

    /// Returns the allocator that refuses the growth with this number and each after it.
    pub fn from(inner: A, number: u64) -> Refusing<A> {
        Refusing::between(inner, number, u64::MAX)
    }

    /// Whether it has refused one.
    pub fn refused(&self) -> bool {
        self.selected.get() >= self.first
    }

    // Returns the allocator that grants the next growth, unless that growth is refused.
    fn giver(&self) -> Option<&A>
        ensures { IfSome result (λ giver. giver.now ≡ self.now.inner) }
    {
        let number = self.selected.get().saturating_add(1);
        self.selected.set(number);
        if self.first <= number && number <= self.last {
            None
        } else {
            Some(&self.inner)
        }
    }
}

unsafe impl<A: Allocator> Allocator for Refusing<A> {
    ghost dealloc_token = { λ heap ty ptr. A.dealloc_token heap.inner ty ptr };

    fn allocate(&self, size: usize, align: usize) -> Result<*mut u8, AllocError> {
        match self.giver() {
            Some(giver) => giver.allocate(size, align),
            None => Err(AllocError),
        }
    }

    unsafe fn deallocate(&self, ptr: *mut u8, size: usize, align: usize) {
        self.inner.deallocate(ptr, size, align);
    }
}
