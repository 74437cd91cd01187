// Sets of lanes as the bits of a number.

ghost use Rattle.std.specs.Prelude.{◌≡◌, ℕ, ◌||◌, ◌<◌, ◌==◌, true, false, if◌then◌else◌, IsTrue, ◌↔◌};
ghost use Rattle.conflict_index.specs.Masks.{has};
ghost use Rattle.conflict_index.specs.Kept.{AreWithout};

// Whether the lane is in the set.
pub fn contains(mask: u64, lane: u32) -> bool
    requires { lane < 64 }
    ensures { result ≡ has mask lane }
{
    mask & (1 << lane) != 0
}

// The set with the lane.
pub fn with(mask: u64, lane: u32) -> u64
    requires { lane < 64 }
    ensures { (other : ℕ) → has result other ≡ (if other == lane then true else has mask other) }
{
    mask | (1 << lane)
}

// The set with the lane, where that is to be.
pub fn with_where(mask: u64, lane: u32, whether: bool) -> u64
    requires { lane < 64 }
    ensures { (other : ℕ) → has result other ≡ (if other == lane then whether || has mask lane else has mask other) }
{
    if whether { with(mask, lane) } else { mask }
}

// The set without the lane.
pub fn without(mask: u64, lane: u32) -> u64
    requires { lane < 64 }
    ensures lanes { (other : ℕ) → has result other ≡ (if other == lane then false else has mask other) }
    ensures smaller { has mask lane ≡ true → result < mask }
{
    mask & !(1 << lane)
}

// The lane of a set that isn't empty with the smallest number.
pub fn first(mask: u64) -> u32
    requires { 0 < mask }
    ensures within { result < 64 }
    ensures member { has mask result ≡ true }
{
    mask.trailing_zeros()
}

// The lanes of both sets.
pub fn union(a: u64, b: u64) -> u64
    ensures { (lane : ℕ) → has result lane ≡ (has a lane || has b lane) }
{
    a | b
}

// Takes the lane from every set.
pub fn without_each(masks: &mut [u64], lane: u32)
    requires { lane < 64 }
    ensures { AreWithout lane masks.old masks.new }
{
    for i in 0..masks.len() {
        masks[i] = without(masks[i], lane);
    }
}
