//! What a line gives, and which line ends a refutation.
ghost use Rattle.std.specs.Prelude.{◌≡◌};
ghost use Rattle.kn_trim.specs.Needed.{variables_given, ids_given, is_end};
ghost use Rattle.kn_trim.specs.Marking.{first_end};

use kn_lines::Line;

/// How many variables a line gives.
pub fn variables_given(line: &Line) -> u64
    ensures { result ≡ variables_given line.now }
{
    match line {
        Line::Define { .. } => 1,
        _ => 0,
    }
}

/// How many ids a line gives.
pub fn ids_given(line: &Line) -> u64
    ensures { result ≡ ids_given line.now }
{
    match line {
        Line::Header { .. } => 0,
        Line::Define { .. } => 4,
        Line::Lemma { .. } => 1,
        Line::Learned { .. } => 1,
        Line::Klause { .. } => 1,
        Line::Unfold { .. } => 1,
        Line::Delete { .. } => 0,
    }
}

/// How many lines stand before the first that gives the clause without literals; all where none does.
pub fn first_end(lines: &[Line]) -> usize
    ensures { result ≡ first_end lines.now }
{
    for (place, line) in lines.iter().enumerate() {
        if is_end(line) {
            return place;
        }
    }
    lines.len()
}

/// Whether a line gives the clause without literals.
fn is_end(line: &Line) -> bool
    ensures { result ≡ is_end line.now }
{
    match line {
        Line::Lemma { clause, .. } => clause.lits().is_empty(),
        Line::Learned { clause, .. } => clause.lits().is_empty(),
        _ => false,
    }
}
