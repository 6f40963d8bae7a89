//! The mappings of a trace in the making. Whether a block is mapped already is found in a time that doesn't grow with their number.
ghost use Rattle.std.specs.Prelude.{◌≡◌, ◌+◌, ◌*◌, ◌%◌, ◌^◌, ◌↔◌, [], ◌∷◌, ◌++◌, IsTrue, OnErr, OnOk, length};
ghost use Rattle.trace_text.specs.Grammar.{IsMapped};

use crate::mapping::Mapping;
use dbuf_state::Oid;
use key_table::{Hashed, NoMemory, Table};
use std::alloc::Global;
use std::marker::Model;

/// The golden ratio of 2^64, which spreads numbers that follow one another.
const SPREAD: u64 = 0x9e37_79b9_7f4a_7c15;

/// A block of an object, found in a table by its numbers.
#[derive(Clone, Copy)]
struct Name(Oid);

impl Hashed for Name {
    ghost use Rattle.trace_text.specs.declared.mappings.TheConstants.{SPREAD};

    ghost hash = { λ name. (name.0.object * SPREAD % 2 ^ 64 + name.0.block) % 2 ^ 64 * SPREAD % 2 ^ 64 };

    fn hash(&self) -> u64 {
        let Oid { object, block } = self.0;
        object
            .wrapping_mul(SPREAD)
            .wrapping_add(block)
            .wrapping_mul(SPREAD)
    }

    fn is(&self, other: &Self) -> bool {
        self.0 == other.0
    }
}

/// The mappings so far. Contracts see the list of them.
#[derive(Drop)]
pub(crate) struct Mappings {
    list: Vec<Mapping>,
    // The blocks that they map.
    taken: Table<Name, ()>,
}

impl Model for Mappings {
    ghost use Rattle.std.specs.Prelude.{List};
    ghost use Rattle.trace_text.specs.declared.mapping.Mapping.{Mapping};
    ghost use Rattle.trace_text.specs.Taken.{AreTaken};

    ghost Value = { List Mapping };

    ghost view = { λ all. all.list.items };

    ghost invariant = { λ all. AreTaken all.taken.rows all.list.items };
}

impl Mappings {
    /// No mapping.
    pub(crate) fn new(alloc: Global) -> Mappings
        ensures { result ≡ [] }
    {
        Mappings {
            list: Vec::new(alloc),
            taken: Table::new(alloc),
        }
    }

    /// How many there are.
    pub(crate) fn len(&self) -> usize
        ensures { result ≡ length self.now }
    {
        self.list.len()
    }

    /// Whether a block of an object is mapped.
    pub(crate) fn has(&self, at: Oid) -> bool
        ensures { IsTrue result ↔ IsMapped at self.now }
    {
        self.taken.get(&Name(at)).is_some()
    }

    /// Adds the mapping of a block that is not mapped yet. After want of memory the mappings are as before.
    pub(crate) fn push(&mut self, mapping: Mapping) -> Result<(), NoMemory>
        requires { IsMapped mapping.at self.old → ⊥ }
        ensures ok { OnOk result (self.new ≡ self.old ++ mapping ∷ []) }
        ensures err { OnErr result (self.new ≡ self.old) }
    {
        self.taken.reserve(1)?;
        if self.list.push(mapping).is_err() {
            return Err(NoMemory);
        }
        self.taken.insert(Name(mapping.at), ());
        Ok(())
    }

    /// Gives the list back. It takes no memory.
    pub(crate) fn into_vec(self) -> Vec<Mapping>
        ensures { result.items ≡ self }
    {
        self.list
    }
}
