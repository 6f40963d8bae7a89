//! Laws of cells, each the contract of a function that does nothing.
ghost use Rattle.dbuf_state.specs.Answers.{AnswersAlike};
ghost use Rattle.dbuf_state.specs.Held.{MappedTells};
ghost use Rattle.dbuf_state.specs.History.{EndsAlike};
ghost use Rattle.dbuf_state.specs.InHand.{ClaimedIsRead, ClaimsChange, ClaimsStay, ClaimsStayByEnd, ClaimsStayByNew, ClaimsStayByNote, DirtyHidesUnkept, DirtyIsChange, EndHidesUnkept, EndRests, EndedKeepsNothing, EvictableIsCached, FirstKeptIsCached, FitKeeps, HoldsChange, HoldsStay, HoldsStayByEnd, HoldsStayByNew, HoldsStayByNote, PlainDbufIs, PlainStandingsAre, RekeptIsThere, RestLasts, RestLastsByUnkeep, RestStays, RestStaysByNew, RestStaysByNote};
ghost use Rattle.dbuf_state.specs.Numbers.{AreEventsNumbered, AreEventsRead, AreMappingsRead};
ghost use Rattle.dbuf_state.specs.Outline.{CellIsInOutline, OutlineFollows, OutlineIsTold, PinsAreCounted, StandingsAlike};
ghost use Rattle.dbuf_state.specs.Steps.{CallGoesOn, EndFollows, EvictFollows, GetFollows, GoesOn, LoadFollows, MappedIsSound, PatchFollows, PatchOfCleanFollows, PinFollows, PutFollows, ReadingAlike, SyncedFollows, UnpinFollows, UnreadAlike};

use blk_ptr::Shows;
use std::marker::PhantomData;

/// A law of histories: a legal event more leads on from where the events before it lead.
pub fn a_history_goes_on()
    ensures { GoesOn }
{}

/// A law of histories: two replays of one history, and two answers to one get, are alike, or two lists in hand share a digest.
pub fn replays_are_alike()
    ensures ends { EndsAlike }
    ensures answers { AnswersAlike }
{}

/// A law of outlines: what is mapped, cached and pinned, and the last uses, follow from the opening and the events, without any bytes.
pub fn outlines_are_told()
    ensures step { OutlineFollows }
    ensures history { OutlineIsTold }
    ensures standings { StandingsAlike }
    ensures pins { PinsAreCounted }
{}

/// A law of outlines: what the calls of a cell answer of a block stands in its outline.
pub fn cells_are_in_their_outlines<H>(_kept: PhantomData<H>)
    ensures { CellIsInOutline H }
{}

/// A law of cells: what its calls change of a cell, with the event noted, is what the event does.
pub fn calls_are_their_events<H>(_kept: PhantomData<H>)
    ensures get { GetFollows H }
    ensures load { LoadFollows H }
    ensures evict { EvictFollows H }
    ensures put { PutFollows H }
    ensures patch { PatchFollows H }
    ensures patch_of_clean { PatchOfCleanFollows H }
    ensures pin { PinFollows H }
    ensures unpin { UnpinFollows H }
    ensures synced { SyncedFollows H }
    ensures end { EndFollows H }
{}

/// A law of cells: a call with its event takes a legal history on, and a cell that only maps is sound.
pub fn cells_stay_legal<H>(_kept: PhantomData<H>)
    ensures goes_on { CallGoesOn H }
    ensures mapped { MappedIsSound H }
{}

/// A law of cells: while the bytes of a clean block are being brought, the block counts as uncached.
pub fn what_counts_alike<H>(_kept: PhantomData<H>)
    ensures reading { ReadingAlike H }
    ensures unread { UnreadAlike H }
{}

/// A law of the numbers that a cell shows: events and mapped Oids can be read back from them, and each event begins with who did it.
pub fn numbers_are_read_back()
    ensures events { AreEventsRead }
    ensures mappings { AreMappingsRead }
    ensures numbered { AreEventsNumbered }
{}

/// A law of cells: its dbufs are read off the plain cell, and what is to be evicted, or is kept first, is clean and cached.
pub fn plain_cells_are_read<H>(_kept: PhantomData<H>)
    ensures dbuf { PlainDbufIs H }
    ensures standings { PlainStandingsAre H }
    ensures evictable { EvictableIsCached H }
    ensures first_kept { FirstKeptIsCached H }
{}

/// A law of cells: what is taken out for a while is put back as it was, or hidden by the write or the end for which it was taken out.
pub fn what_is_out_for_a_while<H>(_kept: PhantomData<H>)
    ensures rekept { RekeptIsThere H }
    ensures written { DirtyHidesUnkept H }
    ensures change { DirtyIsChange H }
    ensures ended { EndHidesUnkept H }
{}

/// A law of cells: what a call, an event that is noted and an end change of the holds that the dbufs keep, and that the history of a
/// cell that only maps tells that it keeps none.
pub fn holds_go_with_what_is_kept<H: Shows>(_kept: PhantomData<H>)
    ensures change { HoldsChange H.key_of H.bytes_of H.is_held }
    ensures stay { HoldsStay H.key_of H.bytes_of H.is_held }
    ensures note { HoldsStayByNote H.key_of H.bytes_of H.is_held }
    ensures end { HoldsStayByEnd H.key_of H.bytes_of H.is_held }
    ensures new { HoldsStayByNew H.key_of H.bytes_of H.is_held }
    ensures told { MappedTells H.is_held }
{}

/// A law of cells: what a call, an event that is noted and an end change of what a number claims.
pub fn claims_go_with_what_is_read<H>(_kept: PhantomData<H>)
    ensures change { ClaimsChange H }
    ensures stay { ClaimsStay H }
    ensures note { ClaimsStayByNote H }
    ensures end { ClaimsStayByEnd H }
    ensures new { ClaimsStayByNew H }
    ensures claimed { ClaimedIsRead H }
{}

/// A law of cells: what leaves the dbufs at rest, neither filled nor evicted, and that an end does, whatever was taken out for it.
pub fn cells_come_to_rest<H>(_kept: PhantomData<H>)
    ensures stay { RestStays H }
    ensures note { RestStaysByNote H }
    ensures new { RestStaysByNew H }
    ensures lasts { RestLasts H }
    ensures unkeep { RestLastsByUnkeep H }
    ensures end { EndRests H }
{}

/// A law of cells: dbufs that are fit keep a block exactly where it is clean and cached, so a sound cell keeps nothing behind its end.
pub fn ended_cells_keep_nothing<H: Shows>(_kept: PhantomData<H>)
    ensures fit { FitKeeps H.key_of H.bytes_of }
    ensures ended { EndedKeepsNothing H.key_of H.bytes_of H.is_held }
{}
