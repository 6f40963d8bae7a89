//! How a read of a block that isn't cached begins.
ghost use Rattle.std.specs.Prelude.{◌≡◌, ℕ, ◌<◌, ◌∷◌, [], if◌then◌else◌, IsTrue, OnOk, OnErr, Some, None, is_some, option_and_then, true};
ghost use Rattle.std.specs.Option.{option_map};
ghost use Rattle.blk_ptr.specs.Key.{is_well_formed};
ghost use Rattle.arc_core.specs.declared.event.Event.{Event};
ghost use Rattle.arc_core.specs.PlainShard.{entry_of};
ghost use Rattle.arc_core.specs.Step.{is_missing};
ghost use Rattle.arc_core.specs.View.{view_of};
ghost use Rattle.hash_chain.specs.Chain.{IsWith};
ghost use Rattle.turn_table.specs.Board.{IsAmong};
ghost use Rattle.arc_table.specs.Both.{Makes};
ghost use Rattle.arc_table.specs.Cache.{IsPartyOf};
ghost use Rattle.arc_table.specs.scans.Ending.{MakesRoomy};
ghost use Rattle.arc_table.specs.Geometry.{IsBucket, bucket_turn};
ghost use Rattle.arc_table.specs.Making.{IsTaken};

use crate::arcs::{Arcs, Party};
use crate::both::Both;
use crate::heap_bucket::HeapBucket;
use arc_core::{EntryView, Event, Keeps};
use blk_ptr::{Key, NoMemory, State};
use hash_chain::Header;

// The key has this header from now on.
pub(crate) fn put_header(bucket: &mut HeapBucket, header: Header)
    requires { 0 < bucket.old.spare }
    ensures { IsWith header.key (Some header) bucket.old.headers bucket.new.headers }
{
    match bucket.find(header.key) {
        Some(at) => bucket.change(at, header),
        None => bucket.add(header),
    }
}

// What a header says of an entry whose bytes are being read, where this was known of the key before.
fn reading_header(key: Key, found: Option<EntryView>) -> Header
    ensures { result ≡ record { key = key; state = if is_some found then State.Mfu else State.Anon; reading = true; place = option_and_then (λ v. v.place) found; digest = None; block = None } }
{
    Header {
        key,
        state: if found.is_some() {
            State::Mfu
        } else {
            State::Anon
        },
        reading: true,
        place: found.and_then(|entry| entry.place),
        digest: None,
        block: None,
    }
}

impl<C: Keeps> Arcs<C> {
    // Begins to read the key whose bucket and shard the party has just taken, and gives all back. This is known of the key before. Where
    // memory is refused there is no event.
    pub(crate) fn miss_taken(
        &self,
        party: &mut Party<C>,
        both: Both,
        key: Key,
        found: Option<EntryView>,
        tick: u64,
    ) -> Result<(), NoMemory>
        requires party { IsPartyOf self.now party.old }
        requires taken { IsTaken C.Keeps self.now.config key both party.old }
        requires others { (j : ℕ) → IsAmong j party.old.held → IsBucket self.now.config j → j ≡ bucket_turn self.now.config key }
        requires formed { IsTrue (is_well_formed key) }
        requires missing { IsTrue (is_missing key both.shard.now) }
        requires found { found ≡ option_map view_of (entry_of key both.shard.now) }
        ensures ok { OnOk result (MakesRoomy C.Keeps self.now.config key both.shard (Event.Miss party.old.number key tick) party.old party.new) }
        ensures err { OnErr result (Makes C.Keeps self.now.config key both.shard [] party.old party.new) }
    {
        let n = party.number();
        let event = Event::Miss { n, key, t: tick };
        let mut scan = match self.begin_scan(party, both, &event) {
            Ok(scan) => scan,
            Err(both) => {
                self.give_both(party, key, both);
                return Err(NoMemory);
            }
        };
        let shard = &mut *scan.both.shard;
        shard.miss(n, key, tick);
        let header = reading_header(key, found);
        put_header(&mut scan.both.hand.own.bucket, header);
        self.end_scan(party, scan);
        Ok(())
    }
}
