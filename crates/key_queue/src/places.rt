//! The places of the values under each number.
ghost use Rattle.std.specs.Prelude.{◌≡◌, ℕ, ◌<◌, ◌≤◌, List, [], ◌∷◌, ◌++◌, length, OnErr, OnOk, MatchOption};
ghost use Rattle.key_table.specs.PlainTable.{HasKey};
ghost use Rattle.key_queue.specs.Places.{IsFound};

use key_table::{NoMemory, Table};
use std::alloc::Global;
use std::collections::VecDeque;

/// The places of the values under each number, the oldest first. A number without one has no row.
pub type Places = Table<u64, VecDeque<usize>>;

/// Takes the row of a number. It is empty where there was none.
fn take_row(places: &mut Places, number: u32, alloc: Global) -> VecDeque<usize>
    ensures row { (ps : List ℕ) → IsFound number places.old.rows ps → result.items ≡ ps }
    ensures gone { HasKey number places.new.rows → ⊥ }
    ensures others { (m : ℕ) (ps : List ℕ) → (m ≡ number → ⊥) → IsFound m places.old.rows ps → IsFound m places.new.rows ps }
    ensures spare { places.old.spare ≤ places.new.spare }
    ensures room { 0 < length result.items → 0 < places.new.spare }
{
    let key = u64::from(number);
    let Some(_) = places.get(&key) else {
        return VecDeque::new(alloc);
    };
    places.remove(&key)
}

/// Puts a number's row back, unless it is empty.
fn put_row(places: &mut Places, number: u32, row: VecDeque<usize>)
    requires gone { HasKey number places.old.rows → ⊥ }
    requires room { 0 < length row.items → 0 < places.old.spare }
    ensures row { IsFound number places.new.rows row.items }
    ensures others { (m : ℕ) (ps : List ℕ) → (m ≡ number → ⊥) → IsFound m places.old.rows ps → IsFound m places.new.rows ps }
{
    if row.is_empty() {
        return;
    }
    places.insert(u64::from(number), row);
}

/// Adds a place under a number, the newest one. After want of memory the places are as before.
pub fn add_place(
    places: &mut Places,
    number: u32,
    place: usize,
    alloc: Global,
) -> Result<(), NoMemory>
    ensures ok { OnOk result ((ps : List ℕ) → IsFound number places.old.rows ps → IsFound number places.new.rows (ps ++ place ∷ [])) }
    ensures err { OnErr result ((ps : List ℕ) → IsFound number places.old.rows ps → IsFound number places.new.rows ps) }
    ensures others { (m : ℕ) (ps : List ℕ) → (m ≡ number → ⊥) → IsFound m places.old.rows ps → IsFound m places.new.rows ps }
{
    places.reserve(1)?;
    let mut row = take_row(places, number, alloc);
    let added = row.push_back(place);
    put_row(places, number, row);
    if added.is_err() {
        return Err(NoMemory);
    }
    Ok(())
}

/// Takes the oldest place under a number. None exactly where it has none.
pub fn take_place(places: &mut Places, number: u32, alloc: Global) -> Option<usize>
    ensures taken { (ps : List ℕ) → IsFound number places.old.rows ps
        → MatchOption result ((ps ≡ []) × IsFound number places.new.rows ps) (λ p. (rest : List ℕ) × (ps ≡ p ∷ rest) × IsFound number places.new.rows rest) }
    ensures others { (m : ℕ) (ps : List ℕ) → (m ≡ number → ⊥) → IsFound m places.old.rows ps → IsFound m places.new.rows ps }
{
    let mut row = take_row(places, number, alloc);
    let place = row.pop_front();
    put_row(places, number, row);
    place
}
