//! Turns, under a rule that asks nothing, so that these tests show what no clause says: that the calls succeed, and that threads get their turns.
ghost use Rattle.std.specs.Prelude.{◌≡◌, ◌<◌, [], ◌∷◌, ⊤};
ghost use Rattle.turn_table.specs.Places.{IsPartyOf, took, gave_back};
ghost use Rattle.turn_table.specs.Board.{IsAmong};

use std::sync::Wait;
use std::sync::atomic::AtomicU64;
use std::sync::atomic::Ordering::SeqCst;
use std::test::Fail;
use std::thread;
use std::thread::Threads;
use turn_table::{GivenView, Party, TurnRule, Turns};

struct Anything;

impl<V> TurnRule<V> for Anything {
    type View = ();

    type Key = ();

    ghost holds = { λ _. ⊤ };

    ghost first = { λ _ _. tt };

    ghost won = { λ _ _ _ _. tt };

    ghost lost = { λ _ _ _ _. tt };

    ghost gives = { λ _ _. ⊤ };

    ghost learned = { λ _ _. tt };

    ghost blank = { tt };

    ghost keeps_won = { λ _ _ _ _ _ _ _ _. tt };

    ghost keeps_lost = { λ _ _ _ _ _ _ _ _ _. tt };

    ghost keeps_learned = { λ _ _ _ _ _ _ _ _ _. tt };
}

impl<V, H> GivenView<V, (), H> for Anything {
    ghost given = { λ _ _ _ _. tt };
}

type Row = Turns<u64, Anything>;

type Hand = Party<u64, Anything>;

// Adds 1 to the value of the turn 0, `count` times.
fn count_up<R: Wait>(rt: &R, row: &Row, mut party: Hand, count: u64) -> Hand
    requires { IsPartyOf row.now party × (party.held ≡ []) × (0 < row.now.turns) }
    ensures { result ≡ party }
{
    for _ in 0..count {
        let value = row.take(rt, &mut party, 0);
        row.give::<Anything>(&mut party, 0, value.wrapping_add(1));
    }
    party
}

fn both_count<R: Threads + Wait + Sync>(rt: &R, row: &Row, one: Hand, two: Hand) -> (Hand, Hand)
    requires turns { 0 < row.now.turns }
    requires one { IsPartyOf row.now one × (one.held ≡ []) }
    requires two { IsPartyOf row.now two × (two.held ≡ []) }
    ensures { (result.0 ≡ one) × (result.1 ≡ two) }
{
    thread::join(
        rt,
        move || -> Hand
            requires { IsPartyOf row.now one × (one.held ≡ []) × (0 < row.now.turns) }
            ensures { result ≡ one }
        { count_up(rt, row, one, 1000) },
        move || -> Hand
            requires { IsPartyOf row.now two × (two.held ≡ []) × (0 < row.now.turns) }
            ensures { result ≡ two }
        { count_up(rt, row, two, 1000) },
    )
}

#[test]
fn two_threads_count_together(rt: HostRuntime) -> Result<(), Fail> {
    let values = vec![in rt.alloc(); 0u64]?;
    let (row, mut parties) = Row::new(rt.alloc(), values, 2, &()).ok().ok_or("memory")?;
    let two = parties.pop().ok_or("two")?;
    let one = parties.pop().ok_or("one")?;
    let (one, two) = both_count(&rt, &row, one, two);
    parties.push(one)?;
    parties.push(two)?;
    let values = row.close(parties).ok().ok_or("memory")?;
    assert!(rt; values.as_slice() == [2000].as_slice());
    Ok(())
}

// Says that it is about to take the turn 0, and takes it.
fn take_late<R: Wait>(rt: &R, row: &Row, about_to: &AtomicU64, mut party: Hand) -> (Hand, u64)
    requires { IsPartyOf row.now party × (party.held ≡ []) × (0 < row.now.turns) }
    ensures { result.0 ≡ took party 0 tt }
{
    about_to.store(1, SeqCst);
    let value = row.take(rt, &mut party, 0);
    (party, value)
}

// Gives the turn 0 back once the other thread is about to take it.
fn give_late(row: &Row, about_to: &AtomicU64, mut party: Hand) -> Hand
    requires { IsPartyOf row.now party × (party.held ≡ 0 ∷ []) }
    ensures { result ≡ gave_back party 0 tt }
{
    for _ in 0..1_000_000 {
        if about_to.load(SeqCst) == 1 {
            break;
        }
        thread::yield_now();
    }
    row.give::<Anything>(&mut party, 0, 5);
    party
}

fn hand_over<R: Threads + Wait + Sync>(
    rt: &R,
    row: &Row,
    giver: Hand,
    taker: Hand,
) -> (Hand, (Hand, u64))
    requires turns { 0 < row.now.turns }
    requires giver { IsPartyOf row.now giver × (giver.held ≡ 0 ∷ []) }
    requires taker { IsPartyOf row.now taker × (taker.held ≡ []) }
    ensures { (result.0 ≡ gave_back giver 0 tt) × (result.1.0 ≡ took taker 0 tt) }
{
    let about_to = AtomicU64::new(0);
    let flag = &about_to;
    thread::join(
        rt,
        move || -> Hand
            requires { IsPartyOf row.now giver × (giver.held ≡ 0 ∷ []) }
            ensures { result ≡ gave_back giver 0 tt }
        { give_late(row, flag, giver) },
        move || -> (Hand, u64)
            requires { IsPartyOf row.now taker × (taker.held ≡ []) × (0 < row.now.turns) }
            ensures { result.0 ≡ took taker 0 tt }
        { take_late(rt, row, flag, taker) },
    )
}

#[test]
fn a_take_waits_for_the_turn(rt: HostRuntime) -> Result<(), Fail> {
    let values = vec![in rt.alloc(); 3u64]?;
    let (row, mut parties) = Row::new(rt.alloc(), values, 2, &()).ok().ok_or("memory")?;
    let taker = parties.pop().ok_or("taker")?;
    let mut giver = parties.pop().ok_or("giver")?;
    let first = row.take(&rt, &mut giver, 0);
    let (giver, (mut taker, value)) = hand_over(&rt, &row, giver, taker);
    assert!(rt; first == 3 && value == 5);
    row.give::<Anything>(&mut taker, 0, value);
    parties.push(giver)?;
    parties.push(taker)?;
    let values = row.close(parties).ok().ok_or("memory")?;
    assert!(rt; values.as_slice() == [5].as_slice());
    Ok(())
}
