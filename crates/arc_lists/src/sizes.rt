//! How many bytes the keys of each state have.
ghost use Rattle.std.specs.Prelude.{◌≡◌, ℕ, ◌+◌, ◌-◌, ◌^◌, ◌<◌, ◌≤◌, if◌then◌else◌};

use blk_ptr::State;

/// The sizes of the six states in bytes.
#[derive(Clone, Copy, Debug, Drop)]
pub struct Sizes {
    /// What is being read for the first time (`arc_anon`).
    pub anon: u128,
    /// MRU.
    pub mru: u128,
    /// Its ghosts.
    pub mru_ghost: u128,
    /// MFU.
    pub mfu: u128,
    /// Its ghosts.
    pub mfu_ghost: u128,
    /// What only the cache device has (`arc_l2c_only`).
    pub l2_only: u128,
}

impl Sizes {
    ghost use Rattle.blk_ptr.specs.declared.state.State.{State};
    ghost use Rattle.blk_ptr.specs.State.{is_same_state};
    ghost use Rattle.arc_lists.specs.Queues.{size_at};

    /// No bytes.
    pub fn zero() -> Sizes
        ensures { (s : State) → size_at s result ≡ 0 }
    {
        Sizes {
            anon: 0,
            mru: 0,
            mru_ghost: 0,
            mfu: 0,
            mfu_ghost: 0,
            l2_only: 0,
        }
    }

    /// The size of a state.
    pub fn at(&self, state: State) -> u128
        ensures { result ≡ size_at state self.now }
    {
        match state {
            State::Anon => self.anon,
            State::Mru => self.mru,
            State::MruGhost => self.mru_ghost,
            State::Mfu => self.mfu,
            State::MfuGhost => self.mfu_ghost,
            State::L2Only => self.l2_only,
        }
    }

    /// So many bytes of a state more.
    pub fn add(&mut self, state: State, size: u64)
        requires { size_at state self.old + size < 2 ^ 128 }
        ensures { (s : State) → size_at s self.new ≡ size_at s self.old + (if is_same_state state s then size else 0) }
    {
        let size = u128::from(size);
        match state {
            State::Anon => self.anon += size,
            State::Mru => self.mru += size,
            State::MruGhost => self.mru_ghost += size,
            State::Mfu => self.mfu += size,
            State::MfuGhost => self.mfu_ghost += size,
            State::L2Only => self.l2_only += size,
        }
    }

    /// So many bytes of a state less.
    pub fn take(&mut self, state: State, size: u64)
        requires { size ≤ size_at state self.old }
        ensures { (s : State) → size_at s self.new + (if is_same_state state s then size else 0) ≡ size_at s self.old }
    {
        let size = u128::from(size);
        match state {
            State::Anon => self.anon -= size,
            State::Mru => self.mru -= size,
            State::MruGhost => self.mru_ghost -= size,
            State::Mfu => self.mfu -= size,
            State::MfuGhost => self.mfu_ghost -= size,
            State::L2Only => self.l2_only -= size,
        }
    }

    /// So many bytes go from one state to another.
    pub fn transfer(&mut self, from: State, to: State, size: u64)
        requires there { size ≤ size_at from self.old }
        requires room { size_at to self.old + size < 2 ^ 128 }
        ensures { (s : State) → size_at s self.new + (if is_same_state from s then size else 0) ≡ size_at s self.old + (if is_same_state to s then size else 0) }
    {
        if from != to {
            self.take(from, size);
            self.add(to, size);
        }
    }
}
