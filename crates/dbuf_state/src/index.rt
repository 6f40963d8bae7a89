//! Which dbuf is to be evicted, and which kept block comes first.
ghost use Rattle.std.specs.Prelude.{◌≡◌, ℕ, ◌<◌, ◌≤◌, ◌-◌, ◌++◌, ◌∷◌, [], ◌^◌, true, false, not, IsTrue, MatchOption, OnOk, OnErr, length, slice_set};
ghost use Rattle.std.specs.List.{list_all};
ghost use Rattle.dbuf_state.specs.Index.{kept_rank, use_rank};
ghost use Rattle.dbuf_state.specs.Ranks.{rank_at};
ghost use Rattle.dbuf_state.specs.Standings.{candidate_size, is_candidate, is_evictable, is_first_kept, is_over};

use crate::oid::Oid;
use crate::rank::Rank;
use crate::ranks::Ranks;
use crate::room::append;
use crate::standing::Standing;
use blk_ptr::NoMemory;
use std::alloc::Global;
use std::marker::Model;

/// How the dbufs of a cell stand, in the order in which they came. Contracts see the list of the standings, and for how many
/// more there is room.
#[derive(Drop)]
pub struct Index {
    standings: Vec<Standing>,
    oldest: Ranks,
    first: Ranks,
    places: usize,
    bytes: u128,
    spare: usize,
}

impl Model for Index {
    ghost use Rattle.dbuf_state.specs.IndexRow.{IndexRow};

    ghost Value = { IndexRow };

    ghost use Rattle.dbuf_state.specs.Index.{row_in, IndexKeeps};

    ghost view = { row_in };

    ghost invariant = { IndexKeeps };
}

// Where a dbuf is a candidate, by when it was last used.
fn use_rank(s: Standing) -> Option<Rank>
    ensures { result ≡ use_rank s }
{
    if s.kept && !s.pinned {
        Some(Rank {
            order: s.used,
            at: s.at,
        })
    } else {
        None
    }
}

// Where a dbuf keeps a block, by its Oid.
fn kept_rank(s: Standing) -> Option<Rank>
    ensures { result ≡ kept_rank s }
{
    if s.kept {
        Some(Rank { order: 0, at: s.at })
    } else {
        None
    }
}

// Whether a dbuf keeps a block as before.
fn keeps_alike(before: Standing, s: Standing) -> bool
    ensures { IsTrue result → kept_rank before ≡ kept_rank s }
{
    before.kept == s.kept && before.at == s.at
}

// Writes where a dbuf keeps a block, if that is not as before: most uses of a dbuf leave it.
fn write_kept(first: &mut Ranks, place: usize, before: Standing, s: Standing)
    requires within { place < length first.old }
    requires there { rank_at first.old place ≡ kept_rank before }
    ensures ranks { (k : ℕ) → rank_at first.new k ≡ rank_at (slice_set first.old place (kept_rank s)) k }
    ensures len { length first.new ≡ length first.old }
{
    if !keeps_alike(before, s) {
        first.set(place, kept_rank(s));
    }
}

// How many bytes count to the limit.
fn candidate_size(s: Standing) -> u64
    ensures { result ≡ candidate_size s }
{
    if s.kept && !s.pinned { s.size } else { 0 }
}

impl Index {
    /// No standings.
    pub fn new(alloc: Global) -> Index
        ensures standings { result.standings ≡ [] }
        ensures spare { result.spare ≡ 0 }
    {
        Index {
            standings: Vec::new(alloc),
            oldest: Ranks::new(alloc),
            first: Ranks::new(alloc),
            places: 0,
            bytes: 0,
            spare: 0,
        }
    }

    /// Makes room for `n` more standings. After want of memory they are as before.
    pub fn reserve(&mut self, n: usize) -> Result<(), NoMemory>
        ensures standings { self.new.standings ≡ self.old.standings }
        ensures ok { OnOk result (n ≤ self.new.spare) }
        ensures kept { self.old.spare ≤ self.new.spare }
        ensures err { OnErr result (self.new ≡ self.old) }
    {
        if n <= self.spare {
            return Ok(());
        }
        self.standings.reserve(n)?;
        let places = self.standings.capacity();
        self.oldest.grow(places)?;
        self.first.grow(places)?;
        self.places = places;
        self.spare = n;
        Ok(())
    }

    /// Adds a standing, for which there is room.
    pub fn push(&mut self, s: Standing)
        requires { 0 < self.old.spare }
        ensures standings { self.new.standings ≡ self.old.standings ++ s ∷ [] }
        ensures spare { self.new.spare ≡ self.old.spare - 1 }
    {
        let place = self.standings.len();
        self.oldest.set(place, use_rank(s));
        self.first.set(place, kept_rank(s));
        self.bytes += u128::from(candidate_size(s));
        append(&mut self.standings, s);
        self.spare -= 1;
    }

    /// Writes a standing.
    pub fn set(&mut self, place: usize, s: Standing)
        requires { place < length self.old.standings }
        ensures standings { self.new.standings ≡ slice_set self.old.standings place s }
        ensures spare { self.new.spare ≡ self.old.spare }
    {
        let before = self.standings[place];
        self.oldest.set(place, use_rank(s));
        write_kept(&mut self.first, place, before, s);
        self.bytes = self.bytes - u128::from(candidate_size(before))
            + u128::from(candidate_size(s));
        self.standings[place] = s;
    }

    /// The candidate that was used longest ago, where the candidates have more bytes than the limit.
    pub fn evictable(&self, limit: u64) -> Option<Oid>
        ensures { MatchOption result (IsTrue (not (is_over limit self.now.standings))) (λ at. IsTrue (is_evictable limit at self.now.standings)) }
    {
        if self.bytes <= u128::from(limit) {
            return None;
        }
        match self.oldest.least() {
            Some(rank) => Some(rank.at),
            None => unreachable!(),
        }
    }

    /// The least Oid that keeps a block.
    pub fn first_kept(&self) -> Option<Oid>
        ensures { MatchOption result (IsTrue (list_all (λ s. not s.kept) self.now.standings)) (λ at. IsTrue (is_first_kept at self.now.standings)) }
    {
        match self.first.least() {
            Some(rank) => Some(rank.at),
            None => None,
        }
    }
}
