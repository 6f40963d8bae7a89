//! The cache of page numbers.
ghost use Rattle.std.specs.Prelude.{◌≡◌, ℕ, ◌+◌, ◌-◌, ◌*◌, ◌/◌, ◌<◌, ◌≤◌, ◌∷◌, [], min, length, IfOk, Bool, false, true};
ghost use Rattle.arc_paper.specs.Arc.{fresh, is_hit, move_of, step, takes_t1};
ghost use Rattle.arc_paper.specs.Bounds.{IsBounded};
ghost use Rattle.arc_paper.specs.Cache.{IsCapacity};
ghost use Rattle.arc_paper.specs.Directory.{IsAbsent, arc_of, count_of};
ghost use Rattle.arc_paper.specs.Stepping.{replaced, roomed};

use crate::directory::Directory;
use crate::queue::Queue;
use key_table::NoMemory;
use std::alloc::Global;
use std::marker::Model;

/// The most pages that may be cached.
pub const MOST_PAGES: u32 = 65_536;

/// ARC(c) over page numbers: at most `c` pages are cached, and as many again are remembered.
///
/// The rules are those of Megiddo and Modha (FAST 2003, figure 4), which stand in `specs/Arc.antt`. Contracts see `c`, the
/// four lists and the target.
#[derive(Debug, Drop)]
pub struct Paper {
    directory: Directory,
    p: u32,
    c: u32,
}

impl Model for Paper {
    ghost use Rattle.arc_paper.specs.Cache.{Cache};

    ghost Value = { Cache };

    ghost use Rattle.arc_paper.specs.Kept.{PaperKeeps, cache_in};

    ghost view = { cache_in };

    ghost invariant = { PaperKeeps };
}

impl Paper {
    /// A cache for `c` pages, from 1 to [`MOST_PAGES`]. All memory that it ever needs is taken here.
    pub fn new(alloc: Global, c: u32) -> Result<Paper, NoMemory>
        requires { IsCapacity c }
        ensures { IfOk result (λ paper. paper ≡ record { capacity = c; arc = fresh }) }
    {
        Ok(Paper {
            directory: Directory::new(alloc, 2 * c)?,
            p: 0,
            c,
        })
    }

    /// Asks for a page, and tells whether it is a hit. It takes no memory.
    pub fn page(&mut self, x: u64) -> bool
        ensures hit { result ≡ is_hit x self.old.arc }
        ensures moved { self.new ≡ record self.old { arc = step self.old.capacity x self.old.arc } }
    {
        match self.directory.find(x) {
            Some(Queue::T1) => {
                self.directory.promote(Queue::T1, x);
                true
            }
            Some(Queue::T2) => {
                self.directory.promote(Queue::T2, x);
                true
            }
            Some(Queue::B1) => {
                self.p = raised(self.c, self.p, &self.directory);
                replace(&mut self.directory, self.p, false);
                self.directory.promote(Queue::B1, x);
                false
            }
            Some(Queue::B2) => {
                self.p = lowered(self.p, &self.directory);
                replace(&mut self.directory, self.p, true);
                self.directory.promote(Queue::B2, x);
                false
            }
            None => {
                make_room(&mut self.directory, self.c, self.p);
                self.directory.admit(x);
                false
            }
        }
    }

    /// How many pages T1, T2, B1 and B2 have.
    pub fn sizes(&self) -> [u32; 4]
        ensures { let s = self.now.arc in result ≡ length s.t1 ∷ length s.t2 ∷ length s.b1 ∷ length s.b2 ∷ [] }
    {
        [
            self.directory.size(Queue::T1),
            self.directory.size(Queue::T2),
            self.directory.size(Queue::B1),
            self.directory.size(Queue::B2),
        ]
    }

    /// The target for T1's size.
    pub fn p(&self) -> u32
        ensures { result ≡ self.now.arc.p }
    {
        self.p
    }
}

/// REPLACE: makes one page of the cache a ghost, for a page that is in B2 or not.
fn replace(directory: &mut Directory, p: u32, in_b2: bool)
    ensures { directory.new ≡ replaced in_b2 p directory.old }
{
    let t1 = directory.size(Queue::T1);
    if t1 > 0 && (t1 > p || (in_b2 && t1 == p)) {
        directory.demote_recent();
    } else {
        directory.demote_frequent();
    }
}

/// How far the target moves for a page of a ghost list of this size, beside the other ghost list.
fn move_of(own: u32, other: u32) -> u32
    requires { 0 < own }
    ensures moved { result ≡ move_of own other }
    ensures most { result ≤ other + 1 }
{
    if own >= other { 1 } else { other / own }
}

/// The target as of a page in B1.
fn raised(c: u32, p: u32, directory: &Directory) -> u32
    requires some { 0 < length directory.now.b1 }
    requires target { p ≤ 65536 }
    ensures { result ≡ min c (p + move_of (length directory.now.b1) (length directory.now.b2)) }
{
    let own = directory.size(Queue::B1);
    let other = directory.size(Queue::B2);
    c.min(p + move_of(own, other))
}

/// The target as of a page in B2.
fn lowered(p: u32, directory: &Directory) -> u32
    requires { 0 < length directory.now.b2 }
    ensures { result ≡ p - move_of (length directory.now.b2) (length directory.now.b1) }
{
    let own = directory.size(Queue::B2);
    let other = directory.size(Queue::B1);
    p.saturating_sub(move_of(own, other))
}

/// Makes room for a page that is in no list.
fn make_room(directory: &mut Directory, c: u32, p: u32)
    requires { IsCapacity c }
    ensures { directory.new ≡ roomed c p directory.old }
{
    let t1 = directory.size(Queue::T1);
    let recent = t1 + directory.size(Queue::B1);
    if recent == c {
        if t1 < c {
            directory.shorten(Queue::B1);
            replace(directory, p, false);
        } else {
            directory.shorten(Queue::T1);
        }
        return;
    }
    let total = recent + directory.size(Queue::T2) + directory.size(Queue::B2);
    if recent < c && total >= c {
        if total == 2 * c {
            directory.shorten(Queue::B2);
        }
        replace(directory, p, false);
    }
}
