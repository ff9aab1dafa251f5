//! What a node is called in a proof. The four ids of a definition follow one another, so that the first is enough.
use kn_logic::Lit;

/// The literal of a variable that is defined in a proof, and the first of the four ids of its definition.
#[derive(Clone, Copy, Debug)]
pub(crate) struct Name {
    pub(crate) lit: Lit,
    pub(crate) id: u64,
}
