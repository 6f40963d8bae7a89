//! What dbufs are ordered by.
ghost use Rattle.std.specs.Prelude.{◌≡◌};
ghost use Rattle.dbuf_state.specs.Ranks.{least};

use crate::oid::Oid;

/// What a dbuf is ordered by: a number, and then its Oid.
#[derive(Clone, Copy)]
pub struct Rank {
    pub order: u64,
    pub at: Oid,
}

/// The lesser one of two ranks; none is greater than every rank.
pub fn lesser(a: Option<Rank>, b: Option<Rank>) -> Option<Rank>
    ensures { result ≡ least a b }
{
    match (a, b) {
        (None, b) => b,
        (Some(a), None) => Some(a),
        (Some(a), Some(b)) => {
            if (b.order, b.at.object, b.at.block) < (a.order, a.at.object, a.at.block) {
                Some(b)
            } else {
                Some(a)
            }
        }
    }
}
