//! Which clause is proved of an entry: from both nodes to a conjunction, from one node to a disjunction.
ghost use Rattle.std.specs.Prelude.{◌≡◌};
ghost use Rattle.kn_justify.specs.Lemmas.{seen, alone};

use kn_diagram::{Met, Node};

/// What the lemma of an entry (u, v, w) speaks of.
#[derive(Clone, Copy, Debug, PartialEq, Eq)]
pub(crate) enum Side {
    /// "Not u, or not v, or w": w is the conjunction.
    Both,
    /// "Not u, or w": w is the disjunction.
    Left,
    /// "Not v, or w": w is the disjunction.
    Right,
}

impl Side {
    /// The entry whose lemma "not u, or not v, or w" is that of this one.
    pub(crate) fn seen(self, m: &Met) -> Met
        ensures { result ≡ seen self m.now }
    {
        match self {
            Side::Both => *m,
            Side::Left => alone(m.u, m.w),
            Side::Right => alone(m.v, m.w),
        }
    }
}

/// The entry whose lemma is "not u, or w".
pub(crate) fn alone(u: Node, w: Node) -> Met
    ensures { result ≡ alone u w }
{
    Met {
        u,
        v: Node::TRUE,
        w,
    }
}
