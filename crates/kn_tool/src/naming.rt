//! Which files the words name, for the caller of `run`, who makes its sources and sinks of these and of no others.
ghost use Rattle.std.specs.Prelude.{◌≡◌};
ghost use Rattle.kn_tool.specs.Words.{Asked, HasShape, HasNoShape, texts, named_by, no_names, named_in};

use crate::{Command, Names, parse};

/// The file into which `work` writes its proof.
const WORK_PROOF: &[u8] = b"work.kpf";

/// The names that the words give; all are `None` where they ask for no command.
pub fn names<'a>(words: &'a [Vec<u8>]) -> Names<'a>
    ensures shaped { (asked : Asked) → HasShape (texts words.now) asked → named_in result ≡ named_by asked }
    ensures unshaped { HasNoShape (texts words.now) → named_in result ≡ no_names }
{
    match parse(words) {
        Some(Command::Check { formula, proof }) => Names {
            formula: Some(formula),
            proof_in: Some(proof),
            proof_out: None,
        },
        Some(Command::Solve { formula, proof, .. }) => Names {
            formula: Some(formula),
            proof_in: None,
            proof_out: Some(proof),
        },
        Some(Command::Extract { formula }) => Names {
            formula: Some(formula),
            proof_in: None,
            proof_out: None,
        },
        Some(Command::Convert { formula }) => Names {
            formula: Some(formula),
            proof_in: None,
            proof_out: None,
        },
        Some(Command::Trim { formula, proof }) => Names {
            formula: Some(formula),
            proof_in: Some(proof),
            proof_out: None,
        },
        Some(Command::Work { .. }) => Names {
            formula: None,
            proof_in: None,
            proof_out: Some(WORK_PROOF),
        },
        None => Names {
            formula: None,
            proof_in: None,
            proof_out: None,
        },
    }
}
