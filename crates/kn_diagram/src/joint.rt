//! Conjunction and disjunction as one case of code, and the pairs for which neither goes further down.
ghost use Rattle.std.specs.Prelude.{◌≡◌};
ghost use Rattle.kn_diagram.specs.Traces.{absorbing, neutral, decided};

use crate::Node;

/// How two functions are joined.
#[derive(Clone, Copy, Debug, PartialEq, Eq)]
pub(crate) enum Joint {
    And,
    Or,
}

/// The result for two nodes that are one, or one of which is a constant.
pub(crate) fn decided(joint: Joint, f: Node, g: Node) -> Option<Node>
    ensures { result ≡ decided joint f g }
{
    let absorbing = absorbing(joint);
    let neutral = neutral(joint);
    if f == g || f == absorbing || g == neutral {
        Some(f)
    } else if f == neutral || g == absorbing {
        Some(g)
    } else {
        None
    }
}

// The constant that decides the result.
fn absorbing(joint: Joint) -> Node
    ensures { result ≡ absorbing joint }
{
    match joint {
        Joint::And => Node::FALSE,
        Joint::Or => Node::TRUE,
    }
}

// The constant that leaves the other node as the result.
fn neutral(joint: Joint) -> Node
    ensures { result ≡ neutral joint }
{
    match joint {
        Joint::And => Node::TRUE,
        Joint::Or => Node::FALSE,
    }
}
