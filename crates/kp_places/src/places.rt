//! The places of numbers, by a tree and by hints.

ghost use Rattle.std.specs.Prelude.{◌≡◌, ◌<◌, [], ◌∷◌, ◌++◌, ℕ, length, None, Some, IfErr, OnOk, OnErr, IfSome, IsSome, ◌==◌, if◌then◌else◌};
ghost use Rattle.kp_types.specs.declared.refusal.Refusal.TheVariants.{Memory};
ghost use Rattle.kp_places.specs.Places.{place_of, AreApart, IsSwapped, at};

use kp_types::Refusal;
use std::alloc::Global;
use std::collections::BTreeMap;
use std::marker::Model;

// How many hints there are once there is a number.
const LEAST_HINTS: usize = 16;

/// Numbers, each of which has a place: 0 for the first that came, and so on. A tree finds them, in a time that no choice of
/// numbers spoils; in front of it stand hints, a place for each rest of a number, which are right as a rule.
#[derive(Drop)]
pub struct Places {
    numbers: Vec<u64>,
    found: BTreeMap<u64, usize>,
    hints: Vec<usize>,
}

impl Model for Places {
    ghost use Rattle.std.specs.Prelude.{List, ℕ};
    ghost use Rattle.kp_places.specs.Places.{IsPlaced};

    ghost Value = { List ℕ };

    ghost view = { λ places. places.numbers.items };

    ghost invariant = { λ places. IsPlaced places.found.entries places.numbers.items };
}

impl Places {
    /// No number. It takes no memory.
    pub fn new(alloc: Global) -> Places
        ensures { result ≡ [] }
    {
        Places {
            numbers: Vec::new(alloc),
            found: BTreeMap::new(alloc),
            hints: Vec::new(alloc),
        }
    }

    /// All numbers, by their places. O(1).
    pub fn numbers(&self) -> &[u64]
        ensures value { result.now ≡ self.now }
        ensures apart { AreApart self.now }
    {
        self.numbers.as_slice()
    }

    /// The number's place, if it has one. O(1) where its hint is right, else O(log n) in the numbers; no memory.
    #[inline(always)]
    pub fn place(&self, number: u64) -> Option<usize>
        ensures value { result ≡ place_of number self.now }
    {
        match self.hinted(number) {
            Some(place) => Some(place),
            None => self.search(number),
        }
    }

    /// The number's place, if it has one, which is its hint afterwards. O(1) where the hint was right, else O(log n) in the
    /// numbers; no memory.
    #[inline(always)]
    pub fn find(&mut self, number: u64) -> Option<usize>
        ensures value { result ≡ place_of number self.old }
        ensures same { self.new ≡ self.old }
    {
        match self.hinted(number) {
            Some(place) => Some(place),
            None => self.search_and_hint(number),
        }
    }

    /// A number that has no place gets the next one. `Memory` (F33) is the only refusal, and nothing changes then. O(log n)
    /// in the numbers, amortised: the hints double now and then.
    pub fn push(&mut self, number: u64) -> Result<(), Refusal>
        requires { place_of number self.old ≡ None }
        ensures ok { OnOk result (self.new ≡ self.old ++ number ∷ []) }
        ensures err { OnErr result (self.new ≡ self.old) }
        ensures only { IfErr result (λ refusal. refusal ≡ Memory) }
    {
        let place = self.numbers.len();
        self.make_hints(place)?;
        self.numbers.push(number)?;
        let Ok(_) = self.found.insert(number, place) else {
            let _ = self.numbers.pop();
            return Err(Refusal::Memory);
        };
        self.hint(number, place);
        Ok(())
    }

    /// The number at this place goes, and the last one takes its place. O(log n) in the numbers, no memory.
    pub fn swap_remove(&mut self, place: usize)
        requires { place < length self.old }
        ensures left { IsSwapped place self.old self.new }
        ensures apart { AreApart self.old }
    {
        let number = self.numbers.swap_remove(place);
        let _ = self.found.remove(&number);
        if let Some(moved) = self.numbers.get(place) {
            put_place(&mut self.found, *moved, place);
        }
    }

    // The number's place where its hint is right.
    #[inline(always)]
    fn hinted(&self, number: u64) -> Option<usize>
        ensures { IfSome result (λ place. place_of number self.now ≡ Some place) }
    {
        let place = *self.hints.get(rest_of(number, self.hints.len()))?;
        match self.numbers.get(place) {
            Some(here) if *here == number => Some(place),
            _ => None,
        }
    }

    #[cold]
    #[inline(never)]
    fn search(&self, number: u64) -> Option<usize>
        ensures { result ≡ place_of number self.now }
    {
        match self.found.get(&number) {
            Some(place) => Some(*place),
            None => None,
        }
    }

    #[cold]
    #[inline(never)]
    fn search_and_hint(&mut self, number: u64) -> Option<usize>
        ensures value { result ≡ place_of number self.old }
        ensures same { self.new ≡ self.old }
    {
        let place = self.search(number)?;
        self.hint(number, place);
        Some(place)
    }

    // The number's hint is this place from now on.
    fn hint(&mut self, number: u64, place: usize)
        ensures { self.new ≡ self.old }
    {
        let rest = rest_of(number, self.hints.len());
        if let Some(hint) = self.hints.get_mut(rest) {
            *hint = place;
        }
    }

    // There are more hints than so many numbers. A hint that was right stays so, or is looked for elsewhere.
    fn make_hints(&mut self, numbers: usize) -> Result<(), Refusal>
        ensures same { self.new ≡ self.old }
        ensures only { IfErr result (λ refusal. refusal ≡ Memory) }
    {
        if numbers < self.hints.len() {
            return Ok(());
        }
        let more = self.hints.len().saturating_mul(2).max(LEAST_HINTS);
        self.hints.resize(more, 0)?;
        Ok(())
    }
}

// The number's rest among so many hints, a power of two; any other number, where there is none.
#[inline(always)]
fn rest_of(number: u64, hints: usize) -> usize {
    number as usize & hints.wrapping_sub(1)
}

// The place of a number that stands in the tree already becomes this.
fn put_place(found: &mut BTreeMap<u64, usize>, number: u64, place: usize)
    requires { IsSome (at number found.old.entries) }
    ensures { (other : ℕ) → at other found.new.entries
        ≡ (if number == other then Some place else at other found.old.entries) }
{
    if let Some(kept) = found.get_mut(&number) {
        *kept = place;
    }
}
