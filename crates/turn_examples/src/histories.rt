//! Histories that only grow, each behind a turn. Each entry is one party's, and each party knows where its own stand.
ghost use Rattle.std.specs.Prelude.{◌≡◌, ◌<◌, [], ◌∷◌, ◌++◌, length, IfOk, OnOk, OnErr};
ghost use Rattle.turn_table.specs.Places.{IsPartyOf, took, saw};
ghost use Rattle.turn_table.specs.Histories.{put};
ghost use Rattle.turn_examples.specs.Histories.{writer, spot, StandIn, Shared, IsSettled};
ghost use Rattle.turn_examples.specs.Made.{HasMade};

use std::alloc::Global;
use std::collections::LinkedList;
use std::marker::Model;
use std::sync::Wait;
use std::thread;
use std::thread::Threads;
use turn_table::{GivenView, NoMemory, Party, TurnRule, Turns};

/// An entry that a party made: in the history of which turn, and where it stands there. No value of it is made.
pub struct Spot {
    pub turn: u64,
    pub place: u64,
    pub entry: u64,
}

/// What a party knows: what it has seen of each history, and its own entries in the order in which it made them. No value of it is made.
pub struct Writer {
    pub seen: LinkedList<LinkedList<u64>>,
    pub mine: LinkedList<Spot>,
}

/// A history: numbers, of which none is ever taken away. A contract sees the list.
#[derive(Drop)]
pub struct Log {
    entries: Vec<u64>,
}

impl Model for Log {
    ghost use Rattle.std.specs.Prelude.{ℕ, List};

    ghost Value = { List ℕ };

    ghost view = { λ l. l.entries.items };
}

impl Log {
    /// An empty history.
    pub fn new(alloc: Global) -> Log
        ensures { result ≡ [] }
    {
        Log {
            entries: Vec::new(alloc),
        }
    }

    /// The number of entries.
    pub fn count(&self) -> u64
        ensures { result ≡ length self.now }
    {
        self.entries.len() as u64
    }

    /// Adds an entry at the end. Without memory the history is as before.
    pub fn push(&mut self, entry: u64) -> Result<(), NoMemory>
        ensures ok { OnOk result (self.new ≡ self.old ++ entry ∷ []) }
        ensures err { OnErr result (self.new ≡ self.old) }
    {
        match self.entries.push(entry) {
            Ok(()) => Ok(()),
            Err(_) => Err(NoMemory),
        }
    }

    /// All entries.
    pub fn into_entries(self) -> Vec<u64>
        ensures { result.items ≡ self }
    {
        let Log { entries } = self;
        entries
    }
}

/// The rule of the histories.
pub struct Grows;

impl TurnRule<Log> for Grows {
    ghost use Rattle.std.specs.Prelude.{[], ⊤};
    ghost use Rattle.turn_table.specs.Histories.{put, seen_by_both};
    ghost use Rattle.turn_examples.specs.Histories.{Kept, writer};
    ghost use Rattle.turn_examples.specs.HistoryLaws.{keeps_won as logs_won, keeps_lost as logs_lost, keeps_learned as logs_learned};

    type View = Writer;

    type Key = ();

    ghost holds = { Kept };

    ghost first = { λ _ _. writer [] [] };

    ghost won = { λ _ i v w. writer (put i v w.seen) w.mine };

    ghost lost = { λ _ _ _ w. w };

    ghost gives = { λ _ _. ⊤ };

    ghost learned = { λ w u. writer (seen_by_both w.seen u.seen) w.mine };

    ghost blank = { writer [] [] };

    ghost keeps_won = { logs_won };

    ghost keeps_lost = { logs_lost };

    ghost keeps_learned = { logs_learned };
}

// A party has added the entry `made`.
struct Appends;

impl GivenView<Log, Writer, u64> for Appends {
    ghost use Rattle.std.specs.Prelude.{[], ◌∷◌, ◌++◌, length};
    ghost use Rattle.turn_table.specs.Histories.{put, front_of};
    ghost use Rattle.turn_examples.specs.Histories.{writer, spot};

    ghost given = { λ made w i v. writer (put i v w.seen) (w.mine ++ spot i (length (front_of i w.seen)) made ∷ []) };
}

// A party has added nothing.
struct Returns;

impl GivenView<Log, Writer, ()> for Returns {
    ghost given = { λ _ w _ _. w };
}

pub type Logs = Turns<Log, Grows>;

pub type Hand = Party<Log, Grows>;

// Takes the turn 0. What a lost try tells is nothing here.
fn take_log<R: Wait>(rt: &R, logs: &Logs, party: &mut Hand) -> Log
    requires { IsPartyOf logs.now party.old × (0 < logs.now.turns) × (party.old.held ≡ []) }
    ensures { party.new ≡ took party.old 0 (writer (put 0 result party.old.own.seen) party.old.own.mine) }
{
    logs.take(rt, party, 0)
}

/// Adds an entry to the history of the turn 0, and answers where it stands.
pub fn append<R: Wait>(rt: &R, logs: &Logs, party: &mut Hand, entry: u64) -> Result<u64, NoMemory>
    requires { IsPartyOf logs.now party.old × (0 < logs.now.turns) × (party.old.held ≡ []) }
    ensures party { party.new ≡ saw party.old party.new.own }
    ensures ok { IfOk result (λ p. party.new.own.mine ≡ party.old.own.mine ++ spot 0 p entry ∷ []) }
    ensures err { OnErr result (party.new.own.mine ≡ party.old.own.mine) }
{
    let mut log = take_log(rt, logs, party);
    let place = log.count();
    if log.push(entry).is_err() {
        logs.give::<Returns>(party, 0, log);
        return Err(NoMemory);
    }
    logs.give_with::<u64, Appends>(party, 0, log, &entry);
    Ok(place)
}

// Adds all these entries to the history of the turn 0, and answers where they stand.
fn append_all<R: Wait>(
    rt: &R,
    alloc: Global,
    logs: &Logs,
    mut party: Hand,
    entries: &[u64],
) -> Result<(Hand, Vec<u64>), NoMemory>
    requires row { IsPartyOf logs.now party × (0 < logs.now.turns) × (party.held ≡ []) }
    requires new { party.own.mine ≡ [] }
    ensures { IfOk result (HasMade party entries.now) }
{
    let mut places = Vec::with_capacity(alloc, entries.len())?;
    for entry in entries {
        let place = append(rt, logs, &mut party, *entry)?;
        places.push(place)?;
    }
    Ok((party, places))
}

// Both parties add their entries at the same time.
fn both_append<R: Threads + Wait + Sync>(
    rt: &R,
    alloc: Global,
    logs: &Logs,
    one: Hand,
    two: Hand,
    first: &[u64],
    second: &[u64],
) -> (
    Result<(Hand, Vec<u64>), NoMemory>,
    Result<(Hand, Vec<u64>), NoMemory>,
)
    requires turns { 0 < logs.now.turns }
    requires one { IsPartyOf logs.now one × (one.held ≡ []) × (one.own.mine ≡ []) }
    requires two { IsPartyOf logs.now two × (two.held ≡ []) × (two.own.mine ≡ []) }
    ensures one { IfOk result.0 (HasMade one first.now) }
    ensures two { IfOk result.1 (HasMade two second.now) }
{
    thread::join(
        rt,
        move || -> Result<(Hand, Vec<u64>), NoMemory>
            requires { IsPartyOf logs.now one × (one.held ≡ []) × (one.own.mine ≡ []) × (0 < logs.now.turns) }
            ensures { IfOk result (HasMade one first.entry.now) }
        { append_all(rt, alloc, logs, one, first) },
        move || -> Result<(Hand, Vec<u64>), NoMemory>
            requires { IsPartyOf logs.now two × (two.held ≡ []) × (two.own.mine ≡ []) × (0 < logs.now.turns) }
            ensures { IfOk result (HasMade two second.entry.now) }
        { append_all(rt, alloc, logs, two, second) },
    )
}

// Joins two parties, and ends the row.
fn settle(alloc: Global, logs: Logs, mut one: Hand, two: Hand) -> Result<Vec<u64>, NoMemory>
    requires row { (logs.turns ≡ 1) × (logs.parties ≡ 2) }
    requires one { IsPartyOf logs one × (one.held ≡ []) × (one.joined ≡ []) × (one.number ≡ 0) }
    requires two { IsPartyOf logs two × (two.held ≡ []) × (two.joined ≡ []) × (two.number ≡ 1) }
    ensures { IfOk result (λ v. IsSettled v.items one.own.mine two.own.mine) }
{
    logs.join(&mut one, two);
    let mut parties = Vec::with_capacity(alloc, 1)?;
    parties.push(one)?;
    let mut values = logs.close(parties)?;
    let Some(log) = values.pop() else {
        unreachable!()
    };
    Ok(log.into_entries())
}

/// What two threads made of one history.
#[derive(Drop)]
pub struct Appended {
    /// All entries.
    pub entries: Vec<u64>,
    /// Where the first thread's entries stand.
    pub first_places: Vec<u64>,
    /// Where the second thread's entries stand.
    pub second_places: Vec<u64>,
}

/// Two threads add their entries to one history. Each thread's entries stand in its order at the places told, and every place is one thread's.
pub fn append_from_two_threads<R: Threads + Wait + Sync>(
    rt: &R,
    alloc: Global,
    first: &[u64],
    second: &[u64],
) -> Result<Appended, NoMemory>
    ensures first { IfOk result (λ a. StandIn a.entries.items a.first_places.items first.now) }
    ensures second { IfOk result (λ a. StandIn a.entries.items a.second_places.items second.now) }
    ensures shared { IfOk result (λ a. Shared a.entries.items a.first_places.items a.second_places.items) }
{
    let values = vec![in alloc; Log::new(alloc)]?;
    let (logs, mut parties) = Logs::new(alloc, values, 2, &())?;
    let (Some(two), Some(one)) = (parties.pop(), parties.pop()) else {
        unreachable!()
    };
    let (one, two) = both_append(rt, alloc, &logs, one, two, first, second);
    let (one, first_places) = one?;
    let (two, second_places) = two?;
    let entries = settle(alloc, logs, one, two)?;
    Ok(Appended {
        entries,
        first_places,
        second_places,
    })
}
