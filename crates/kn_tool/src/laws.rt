//! The command line has one meaning: in whatever order the shapes of words are tried, the same command is found.
ghost use Rattle.std.specs.Prelude.{◌≡◌, ℕ, List};
ghost use Rattle.kn_tool.specs.Words.{Asked, HasShape};

/// A law over the definitions, and no code: words ask for one command at most.
pub fn words_ask_for_one_command()
    ensures { (words : List (List ℕ)) (one : Asked) (other : Asked) → HasShape words one → HasShape words other → one ≡ other }
{}
