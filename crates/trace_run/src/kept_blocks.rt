//! The reads that a caller of the shared cache keeps, each with its block, and how they are given back (arc_buf_destroy of OpenZFS 2.1's
//! arc.c).
ghost use Rattle.std.specs.Prelude.{◌≡◌, ◌++◌, ◌∷◌, [], is_some, map, List, MatchOption, OnErr, OnOk};
ghost use Rattle.arc_core.specs.Operations.{Act};
ghost use Rattle.trace_run.specs.Acts.{acts_of_drops};
ghost use Rattle.trace_run.specs.KeptBlocks.{AreOfOthers, DroppedAlone, Drops, GivesAll, GivesKeptBack, IsTakenOut, Stands, read_of};
ghost use Rattle.trace_run.specs.one_caller.OneCaller.{oldest_key, oldest_kept, without_oldest};
ghost use Rattle.arc_table.specs.Seen.{HasAll};
ghost use Rattle.trace_run.specs.Deeds.{HasToldAll, Noted};
ghost use Rattle.trace_run.specs.declared.kept_blocks.KeptBlock.{KeptBlock};

use arc_core::Keeps;
use arc_table::{Arcs, Party};
use blk_ptr::NoMemory;
use dbuf_cells::Kept;
use key_queue::Queue;
use std::alloc::Global;
use std::marker::Model;
use std::sync::Wait;

/// A read that its caller keeps.
#[derive(Debug, Drop)]
pub(crate) struct KeptBlock {
    /// The number of the block in the trace.
    pub(crate) block: u32,
    /// Its bytes, with the hold on the entry that has them.
    pub(crate) kept: Kept,
}

/// The reads that a caller keeps, in the order in which they came. Contracts see the list of them, the oldest first.
#[derive(Debug, Drop)]
pub(crate) struct KeptBlocks {
    // Each under the number of its block.
    reads: Queue<KeptBlock>,
}

impl Model for KeptBlocks {
    ghost use Rattle.std.specs.Prelude.{List};
    ghost use Rattle.trace_run.specs.declared.kept_blocks.KeptBlock.{KeptBlock};

    ghost Value = { List KeptBlock };

    ghost use Rattle.trace_run.specs.KeptQueue.{AreUnderTheirBlocks, reads_of};

    ghost view = { reads_of };

    ghost invariant = { AreUnderTheirBlocks };
}

impl KeptBlocks {
    /// No reads.
    pub(crate) fn new(alloc: Global) -> KeptBlocks
        ensures { result ≡ [] }
    {
        KeptBlocks {
            reads: Queue::new(alloc),
        }
    }

    /// Keeps a read, the newest one. After want of memory the reads are as before.
    pub(crate) fn push(&mut self, read: KeptBlock) -> Result<(), NoMemory>
        ensures ok { OnOk result (self.new ≡ self.old ++ read ∷ []) }
        ensures err { OnErr result (self.new ≡ self.old) }
    {
        let block = read.block;
        if self.reads.push(block, read).is_err() {
            return Err(NoMemory);
        }
        Ok(())
    }

    /// Takes the oldest read of a block out. None exactly where none is kept.
    pub(crate) fn take_oldest(&mut self, block: u32) -> Option<KeptBlock>
        ensures { MatchOption result (AreOfOthers block self.old × (self.new ≡ self.old)) (λ read. IsTakenOut block read self.old self.new) }
    {
        self.reads.take_oldest(block)
    }

    /// Takes the oldest read of all out. None exactly where none is kept.
    fn pop_oldest(&mut self) -> Option<KeptBlock>
        ensures { MatchOption result ((self.old ≡ []) × (self.new ≡ [])) (λ read. self.old ≡ read ∷ self.new) }
    {
        self.reads.pop_oldest()
    }
}

/// Gives back one of the reads that a caller keeps.
pub(crate) fn give_back<C: Keeps>(
    rt: &impl Wait,
    arcs: &Arcs<C>,
    party: &mut Party<C>,
    read: KeptBlock,
)
    requires { (front : List KeptBlock) × (rest : List KeptBlock) × Stands arcs.now party.old (front ++ read ∷ rest) }
    ensures stands { (front rest : List KeptBlock) → Stands arcs.now party.old (front ++ read ∷ rest) → Stands arcs.now party.new (front ++ rest) }
    ensures gives { GivesKeptBack C.Keeps arcs.now.config read.kept party.old party.new }
{
    match read.kept {
        Kept::Held(hold) => arcs.drop_hold(rt, party, hold),
        Kept::Loose { .. } => {}
    }
}

/// Gives back the read of a block that was kept first. False where none is kept.
pub(crate) fn give_back_oldest<C: Keeps>(
    rt: &impl Wait,
    arcs: &Arcs<C>,
    party: &mut Party<C>,
    kept: &mut KeptBlocks,
    block: u32,
) -> bool
    requires { Stands arcs.now party.old kept.old }
    ensures stands { Stands arcs.now party.new kept.new }
    ensures found { result ≡ is_some (oldest_kept block (map read_of kept.old)) }
    ensures kept { map read_of kept.new ≡ without_oldest block (map read_of kept.old) }
    ensures drops { Drops arcs.now.config (oldest_key block (map read_of kept.old)) party.old party.new }
{
    let Some(read) = kept.take_oldest(block) else {
        return false;
    };
    give_back(rt, arcs, party, read);
    true
}

/// Gives back all reads that a caller keeps, the oldest first. Then it holds nothing.
pub(crate) fn give_back_all<C: Keeps>(
    rt: &impl Wait,
    arcs: &Arcs<C>,
    party: &mut Party<C>,
    mut kept: KeptBlocks,
)
    requires { Stands arcs.now party.old kept }
    ensures stands { Stands arcs.now party.new [] }
    ensures gives { GivesAll C.Keeps arcs.now.config kept party.old party.new }
    ensures told { (before : List Act) (noted : List Noted) → HasToldAll arcs.now.config before noted party.old
        → HasToldAll arcs.now.config (before ++ acts_of_drops party.old.number (map read_of kept)) noted party.new }
    ensures alone { HasAll party.old → DroppedAlone arcs.now.config (map read_of kept) party.old party.new }
{
    while let Some(read) = kept.pop_oldest() {
        give_back(rt, arcs, party, read);
    }
}
