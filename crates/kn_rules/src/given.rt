//! What ids stand for, with what gave them: soundness asks for no origin, but the limits on a search do.
use kn_logic::Constraint;

/// What gave an id.
#[derive(Clone, Copy, Debug, PartialEq, Eq)]
pub enum Origin {
    /// A constraint of the file.
    File,
    /// A definition, which gives four.
    Definition,
    /// A lemma.
    Lemma,
    /// A learned clause.
    Learned,
    /// A klause that a grid stands for.
    Klause,
    /// A klause that was unfolded.
    Unfolding,
}

/// What an id stands for, as the state of a proof has it. A checker keeps it in less memory.
#[derive(Debug, Drop)]
pub struct Given {
    /// What gave the id.
    pub origin: Origin,
    /// Its constraint; `None` where it is deleted.
    pub live: Option<Constraint>,
}
