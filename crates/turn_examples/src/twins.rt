//! Two copies of one number, each behind a turn of its own. They agree whenever both are free, and a party that has both may change both.
ghost use Rattle.std.specs.Prelude.{◌≡◌, ℕ, ◌<◌, [], ◌∷◌, IfOk};
ghost use Rattle.turn_table.specs.Board.{IsAmong};
ghost use Rattle.turn_table.specs.Places.{IsPartyOf, took};
ghost use Rattle.turn_table.specs.Moments.{WasFree};
ghost use Rattle.turn_examples.specs.Twins.{Agrees, copies};

use std::alloc::Global;
use std::collections::LinkedList;
use std::sync::Wait;
use std::thread;
use std::thread::Threads;
use turn_table::{GivenView, NoMemory, Party, TurnRule, Turns};

/// What a party knows: the copies that it has taken, each with its turn. No value of it is made.
pub struct Copies {
    pub held: LinkedList<(u64, u64)>,
}

/// Both copies are one number.
pub struct Agree;

impl TurnRule<u64> for Agree {
    ghost use Rattle.std.specs.Prelude.{[], ◌∷◌, ⊤};
    ghost use Rattle.turn_examples.specs.Twins.{Agrees, copies};
    ghost use Rattle.turn_examples.specs.TwinLaws.{keeps_won as twins_won, keeps_lost as twins_lost, keeps_learned as twins_learned};

    type View = Copies;

    type Key = ();

    ghost holds = { Agrees };

    ghost first = { λ _ _. copies [] };

    ghost won = { λ _ i v w. copies ((i, v) ∷ w.held) };

    ghost lost = { λ _ _ _ w. w };

    ghost gives = { λ _ _. ⊤ };

    ghost learned = { λ w _. w };

    ghost blank = { copies [] };

    ghost keeps_won = { twins_won };

    ghost keeps_lost = { twins_lost };

    ghost keeps_learned = { twins_learned };
}

/// What a party knows once it has given a copy back: the copies that it still has, each of which is `other` now.
struct Gives;

impl GivenView<u64, Copies, u64> for Gives {
    ghost use Rattle.turn_examples.specs.Twins.{copies, renewed};

    ghost given = { λ other w i v. copies (renewed i other w.held) };
}

pub type Pair = Turns<u64, Agree>;

pub type Holder = Party<u64, Agree>;

// Takes one copy. What a lost try tells is nothing here.
fn take_copy<R: Wait>(rt: &R, pair: &Pair, party: &mut Holder, i: u32) -> u64
    requires row { IsPartyOf pair.now party.old }
    requires range { i < pair.now.turns }
    requires not_held { ¬ IsAmong i party.old.held }
    ensures free { WasFree Agrees party.old i result }
    ensures party { party.new ≡ took party.old i (copies ((i, result) ∷ party.old.own.held)) }
{
    pair.take(rt, party, i)
}

/// Adds `more` to both copies, which are one number before and after.
pub fn add_to_both<R: Wait>(rt: &R, pair: &Pair, party: &mut Holder, more: u64)
    requires pair { IsPartyOf pair.now party.old × (pair.now.turns ≡ 2) }
    requires idle { (party.old.held ≡ []) × (party.old.own.held ≡ []) }
    ensures { party.new ≡ party.old }
{
    let first = take_copy(rt, pair, party, 0);
    let second = take_copy(rt, pair, party, 1);
    prove_eq!(first, second);
    let sum = first.wrapping_add(more);
    pair.give_with::<u64, Gives>(party, 0, sum, &sum);
    pair.give_with::<u64, Gives>(party, 1, sum, &sum);
}

// A party adds in a thread of its own.
fn add_apart<R: Wait>(rt: &R, pair: &Pair, mut party: Holder, more: u64) -> Holder
    requires pair { IsPartyOf pair.now party × (pair.now.turns ≡ 2) }
    requires idle { (party.held ≡ []) × (party.own.held ≡ []) }
    ensures { result ≡ party }
{
    add_to_both(rt, pair, &mut party, more);
    party
}

// Both parties add at the same time.
fn both_add<R: Threads + Wait + Sync>(
    rt: &R,
    pair: &Pair,
    one: Holder,
    two: Holder,
    more: u64,
) -> (Holder, Holder)
    requires turns { pair.now.turns ≡ 2 }
    requires one { IsPartyOf pair.now one × (one.held ≡ []) × (one.own.held ≡ []) }
    requires two { IsPartyOf pair.now two × (two.held ≡ []) × (two.own.held ≡ []) }
    ensures { (result.0 ≡ one) × (result.1 ≡ two) }
{
    thread::join(
        rt,
        move || -> Holder
            requires { IsPartyOf pair.now one × (one.held ≡ []) × (one.own.held ≡ []) × (pair.now.turns ≡ 2) }
            ensures { result ≡ one }
        { add_apart(rt, pair, one, more) },
        move || -> Holder
            requires { IsPartyOf pair.now two × (two.held ≡ []) × (two.own.held ≡ []) × (pair.now.turns ≡ 2) }
            ensures { result ≡ two }
        { add_apart(rt, pair, two, more) },
    )
}

/// Two threads add to a pair of copies. In the end the copies are one number.
pub fn add_from_two_threads<R: Threads + Wait + Sync>(
    rt: &R,
    alloc: Global,
    start: u64,
    more: u64,
) -> Result<Vec<u64>, NoMemory>
    ensures { IfOk result (λ v. (x : ℕ) × (v.items ≡ x ∷ x ∷ [])) }
{
    let values = vec![in alloc; start, start]?;
    let (pair, mut parties) = Pair::new(alloc, values, 2, &())?;
    let (Some(two), Some(one)) = (parties.pop(), parties.pop()) else {
        unreachable!()
    };
    let (mut one, two) = both_add(rt, &pair, one, two, more);
    pair.join(&mut one, two);
    parties.push(one)?;
    pair.close(parties)
}
