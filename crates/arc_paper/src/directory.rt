//! The directory: the four lists of pages, and where each page stands.
ghost use Rattle.std.specs.Prelude.{◌≡◌, ℕ, ◌+◌, ◌<◌, ◌≤◌, ◌^◌, true, length, IfOk, IfNone, IfSome, IsSome};
ghost use Rattle.arc_links.specs.PlainLinks.{element_at};
ghost use Rattle.key_table.specs.PlainTable.{HasKey, IsAmong, no_rows, row};
ghost use Rattle.arc_paper.specs.Indexed.{IsIndex, IsMoved, without_node};
ghost use Rattle.arc_paper.specs.Queues.{links_in, nodes_in};
ghost use Rattle.arc_paper.specs.Arc.{stands_in};
ghost use Rattle.arc_paper.specs.Directory.{IsAbsent, IsFound, admitted, count_of, demoted, no_pages, pages_in, promoted, shortened};

use crate::queue::Queue;
use crate::queues::Queues;
use crate::spot::Spot;
use key_table::{NoMemory, Table};
use std::alloc::Global;
use std::marker::Model;

/// The four lists, and a table from each page to its list and its place there. All memory that they ever need is taken by `new`.
#[derive(Debug, Drop)]
pub(crate) struct Directory {
    queues: Queues,
    table: Table<u64, Spot>,
    room: usize,
}

impl Model for Directory {
    ghost use Rattle.arc_paper.specs.Directory.{Lists};

    ghost Value = { Lists };

    ghost use Rattle.arc_paper.specs.Indexed.{IsRoomy, lists_in};

    ghost view = { lists_in };

    ghost invariant = { IsRoomy };
}

/// Where a page stands, by the table.
fn spot_of(table: &Table<u64, Spot>, x: u64) -> Option<Spot>
    ensures some { IfSome result (λ spot. IsAmong (row x spot) table.now.rows) }
    ensures none { IfNone result (HasKey x table.now.rows → ⊥) }
{
    table.get(&x).copied()
}

/// Takes the page at a spot off its list, and puts it at the head of a list.
fn move_to(queues: &mut Queues, table: &mut Table<u64, Spot>, spot: Spot, to: Queue)
    requires index { IsIndex queues.old table.old.rows }
    requires there { IsSome (element_at spot.at (nodes_in spot.queue queues.old)) }
    requires room { 0 < (links_in to (without_node spot queues.old)).spare }
    ensures moved { IsMoved spot to queues.old queues.new }
    ensures index { IsIndex queues.new table.new.rows }
    ensures spare { table.new.spare ≡ table.old.spare }
{
    let x = queues.remove(spot.queue, spot.at);
    let at = queues.push_head(to, x);
    table.set(&x, Spot { queue: to, at });
}

/// A table with room for so many pages.
fn with_room(alloc: Global, room: usize) -> Result<Table<u64, Spot>, NoMemory>
    ensures { IfOk result (λ table. table ≡ record no_rows { spare = room }) }
{
    let mut table = Table::new(alloc);
    table.reserve(room)?;
    Ok(table)
}

impl Directory {
    /// Empty lists, with room for so many pages in all.
    pub(crate) fn new(alloc: Global, room: u32) -> Result<Directory, NoMemory>
        requires { room ≤ 2 ^ 31 }
        ensures { IfOk result (λ directory. directory ≡ no_pages room) }
    {
        let room = room as usize;
        Ok(Directory {
            queues: Queues::new(alloc, room)?,
            table: with_room(alloc, room)?,
            room,
        })
    }

    /// How many pages a list has.
    pub(crate) fn size(&self, queue: Queue) -> u32
        ensures size { result ≡ length (pages_in queue self.now) }
        ensures fits { count_of self.now ≤ self.now.room }
        ensures room { self.now.room ≤ 2 ^ 31 }
    {
        self.queues.len(queue)
    }

    /// The list in which a page stands.
    pub(crate) fn find(&self, x: u64) -> Option<Queue>
        ensures { IsFound x self.now result }
    {
        match spot_of(&self.table, x) {
            Some(spot) => Some(spot.queue),
            None => None,
        }
    }

    /// Puts a page that stands in a list at the head of T2.
    pub(crate) fn promote(&mut self, from: Queue, x: u64)
        requires { stands_in (pages_in from self.old) x ≡ true }
        ensures { self.new ≡ promoted from x self.old }
    {
        if let Some(spot) = spot_of(&self.table, x) {
            move_to(&mut self.queues, &mut self.table, spot, Queue::T2);
        }
    }

    /// Puts a new page at the head of T1.
    pub(crate) fn admit(&mut self, x: u64)
        requires absent { IsAbsent x self.old }
        requires room { count_of self.old < self.old.room }
        ensures { self.new ≡ admitted x self.old }
    {
        let at = self.queues.push_head(Queue::T1, x);
        self.table.insert(
            x,
            Spot {
                queue: Queue::T1,
                at,
            },
        );
    }

    /// Puts the last page of T1 at the head of B1.
    pub(crate) fn demote_recent(&mut self)
        ensures { self.new ≡ demoted Queue.T1 self.old }
    {
        if let Some(at) = self.queues.last(Queue::T1) {
            let spot = Spot {
                queue: Queue::T1,
                at,
            };
            move_to(&mut self.queues, &mut self.table, spot, Queue::B1);
        }
    }

    /// Puts the last page of T2 at the head of B2.
    pub(crate) fn demote_frequent(&mut self)
        ensures { self.new ≡ demoted Queue.T2 self.old }
    {
        if let Some(at) = self.queues.last(Queue::T2) {
            let spot = Spot {
                queue: Queue::T2,
                at,
            };
            move_to(&mut self.queues, &mut self.table, spot, Queue::B2);
        }
    }

    /// Deletes the last page of a list.
    pub(crate) fn shorten(&mut self, queue: Queue)
        ensures { self.new ≡ shortened queue self.old }
    {
        if let Some(at) = self.queues.last(queue) {
            let x = self.queues.remove(queue, at);
            self.table.remove(&x);
        }
    }
}
