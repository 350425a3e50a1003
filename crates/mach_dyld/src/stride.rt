//! Whether one of many places on a ring, each a step after the one before it, lies at its start.

ghost use Rattle.std.specs.Prelude.{◌≡◌, ◌<◌, ◌≤◌, ◌+◌, ◌-◌, ◌*◌, ◌/◌, ◌^◌, ◌↔◌, ℕ, IsTrue, true, false};
ghost use Rattle.mach_dyld.specs.BindingFaults.{offset_at};
ghost use Rattle.mach_dyld.specs.Turns.{AnyBelow, IsRing, last_turn_place};

/// A number of places on a ring, counted from 0: the first, and each next one a step further.
#[derive(Clone, Copy)]
pub struct Turns {
    pub count: u128,
    pub first: u128,
    pub step: u128,
    pub size: u128,
}

impl Turns {
    // Returns the place of the last one, if the steps are not reduced modulo the ring's size.
    fn last(self) -> u128
        requires ring { IsRing self }
        requires some { 0 < self.count }
        ensures { result ≡ last_turn_place self }
    {
        self.first + (self.count - 1) * self.step
    }

    // Returns the same places with the shorter step of the two directions.
    fn shorter(self) -> Turns
        requires ring { IsRing self }
        requires some { 0 < self.count }
        ensures ring { IsRing result }
        ensures some { 0 < result.count }
        ensures size { result.size ≡ self.size }
        ensures short { 2 * result.step ≤ self.size }
        ensures same { (limit : ℕ) → AnyBelow limit result ↔ AnyBelow limit self }
    {
        if self.step <= self.size / 2 {
            return self;
        }
        Turns {
            first: self.last() % self.size,
            step: self.size - self.step,
            ..self
        }
    }

    // Returns the first place of each new round, as places on a ring of a step's size.
    fn after_starts(self) -> Turns
        requires ring { IsRing self }
        requires some { 0 < self.count }
        requires step { 0 < self.step }
        ensures ring { IsRing result }
        ensures size { result.size ≡ self.step }
        ensures same { (limit : ℕ) → limit ≤ self.first → limit < self.step → AnyBelow limit result ↔ AnyBelow limit self }
    {
        let back = self.step - self.size % self.step;
        Turns {
            count: self.last() / self.size,
            first: (self.first + back) % self.step,
            step: back % self.step,
            size: self.step,
        }
    }

    /// Whether one of the places is below a limit. Each turn of the loop at least halves the ring.
    pub fn any_below(self, limit: u128) -> bool
        requires { IsRing self }
        ensures { IsTrue result ↔ AnyBelow limit self }
    {
        let mut turns = self;
        'rounds: while turns.count > 0 {
            let short = turns.shorter();
            if short.first < limit {
                return true;
            }
            if short.step <= limit {
                return short.last() >= short.size;
            }
            turns = short.after_starts();
        }
        false
    }
}

/// Whether none of `count` offsets is above a highest one: the first of them, and each next one a stride further, modulo 2^64.
pub fn none_above(highest: u64, offset: u64, stride: u64, count: u64) -> bool
    ensures yes { result ≡ true → (j : ℕ) → j < count → offset_at offset stride j ≤ highest }
    ensures no { result ≡ false → (j : ℕ) × (j < count) × (highest < offset_at offset stride j) }
{
    // Move the offsets above the highest to the start of the ring.
    let above = u64::MAX - highest;
    let turns = Turns {
        count: u128::from(count),
        first: u128::from(offset.wrapping_add(above)),
        step: u128::from(stride),
        size: 1 << 64,
    };
    !turns.any_below(u128::from(above))
}
