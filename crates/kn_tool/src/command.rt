//! From words to a command. Words that fit no shape exactly ask for none: no default stands in for a bad number.
ghost use Rattle.std.specs.Prelude.{◌≡◌, ◌↔◌, ℕ, List, IfSome, IfNone, IsTrue, codes, option_map};
ghost use Rattle.kn_tool.specs.Words.{AsksCheck, AsksSolve, AsksExtract, AsksConvert, AsksTrim, AsksWork, HasShape, AsksFor, SpellsBlocks, SpellsOption, SpellsBoth, SpellsOptions, count_of, texts, asked_by};

use kn_gen::MAX_BLOCKS;
use kn_text::number;

/// What the words of a command line ask for.
#[derive(Clone, Copy, Debug)]
pub enum Command<'a> {
    /// Check a proof for a formula: the names of the two files.
    Check {
        formula: &'a [u8],
        proof: &'a [u8],
    },
    /// Find a model of a formula, or a proof that there is none, after at most so many learned clauses, of
    /// which at least `forget` are kept; 0 where none is forgotten.
    Solve {
        formula: &'a [u8],
        proof: &'a [u8],
        conflicts: u64,
        forget: u64,
    },
    /// Find the hidden counts of a formula, and write it with klauses: the name of its file.
    Extract {
        formula: &'a [u8],
    },
    /// Turn a formula into clauses: the name of its file.
    Convert {
        formula: &'a [u8],
    },
    /// Cut a proof for a formula down to the lines that it needs: the names of the two files.
    Trim {
        formula: &'a [u8],
        proof: &'a [u8],
    },
    /// Solve the generated formula of so many blocks, from 1 to 200.
    Work {
        blocks: u32,
    },
}

/// The options of `solve`.
#[derive(Clone, Copy, Debug)]
struct Limits {
    conflicts: u64,
    forget: u64,
}

const DEFAULT_LIMITS: Limits = Limits {
    conflicts: 1_000_000,
    forget: 0,
};

/// The command that the words ask for; `None` exactly where they ask for none.
pub fn parse<'a>(words: &'a [Vec<u8>]) -> Option<Command<'a>>
    ensures { AsksFor (texts words.now) (option_map asked_by result) }
{
    if let Some(command) = check_command(words) {
        return Some(command);
    }
    if let Some(command) = solve_command(words) {
        return Some(command);
    }
    if let Some(command) = extract_command(words) {
        return Some(command);
    }
    if let Some(command) = convert_command(words) {
        return Some(command);
    }
    if let Some(command) = trim_command(words) {
        return Some(command);
    }
    work_command(words)
}

fn check_command<'a>(words: &'a [Vec<u8>]) -> Option<Command<'a>>
    ensures some { IfSome result (λ c. HasShape (texts words.now) (asked_by c)) }
    ensures none { IfNone result ((formula : List ℕ) (proof : List ℕ) → AsksCheck (texts words.now) formula proof → ⊥) }
{
    match words {
        [name, formula, proof] if is_check(name) && !formula.is_empty() && !proof.is_empty() => {
            Some(Command::Check {
                formula: formula.as_slice(),
                proof: proof.as_slice(),
            })
        }
        _ => None,
    }
}

fn solve_command<'a>(words: &'a [Vec<u8>]) -> Option<Command<'a>>
    ensures some { IfSome result (λ c. HasShape (texts words.now) (asked_by c)) }
    ensures none { IfNone result ((formula : List ℕ) (proof : List ℕ) (conflicts : ℕ) (forget : ℕ) → AsksSolve (texts words.now) formula proof conflicts forget → ⊥) }
{
    match words {
        [name, formula, proof, options @ ..]
            if is_solve(name) && !formula.is_empty() && !proof.is_empty() => {
            let Limits { conflicts, forget } = limits_in(options)?;
            Some(Command::Solve {
                formula: formula.as_slice(),
                proof: proof.as_slice(),
                conflicts,
                forget,
            })
        }
        _ => None,
    }
}

fn extract_command<'a>(words: &'a [Vec<u8>]) -> Option<Command<'a>>
    ensures some { IfSome result (λ c. HasShape (texts words.now) (asked_by c)) }
    ensures none { IfNone result ((formula : List ℕ) → AsksExtract (texts words.now) formula → ⊥) }
{
    match words {
        [name, formula] if is_extract(name) && !formula.is_empty() => Some(Command::Extract {
            formula: formula.as_slice(),
        }),
        _ => None,
    }
}

fn convert_command<'a>(words: &'a [Vec<u8>]) -> Option<Command<'a>>
    ensures some { IfSome result (λ c. HasShape (texts words.now) (asked_by c)) }
    ensures none { IfNone result ((formula : List ℕ) → AsksConvert (texts words.now) formula → ⊥) }
{
    match words {
        [name, formula] if is_convert(name) && !formula.is_empty() => Some(Command::Convert {
            formula: formula.as_slice(),
        }),
        _ => None,
    }
}

fn trim_command<'a>(words: &'a [Vec<u8>]) -> Option<Command<'a>>
    ensures some { IfSome result (λ c. HasShape (texts words.now) (asked_by c)) }
    ensures none { IfNone result ((formula : List ℕ) (proof : List ℕ) → AsksTrim (texts words.now) formula proof → ⊥) }
{
    match words {
        [name, formula, proof] if is_trim(name) && !formula.is_empty() && !proof.is_empty() => {
            Some(Command::Trim {
                formula: formula.as_slice(),
                proof: proof.as_slice(),
            })
        }
        _ => None,
    }
}

fn work_command<'a>(words: &'a [Vec<u8>]) -> Option<Command<'a>>
    ensures some { IfSome result (λ c. HasShape (texts words.now) (asked_by c)) }
    ensures none { IfNone result ((blocks : ℕ) → AsksWork (texts words.now) blocks → ⊥) }
{
    match words {
        [name, word] if is_work(name) => Some(Command::Work {
            blocks: blocks_in(word)?,
        }),
        _ => None,
    }
}

fn is_check(word: &[u8]) -> bool
    ensures { IsTrue result ↔ (word.now ≡ codes "check") }
{
    word == b"check".as_slice()
}

fn is_solve(word: &[u8]) -> bool
    ensures { IsTrue result ↔ (word.now ≡ codes "solve") }
{
    word == b"solve".as_slice()
}

fn is_extract(word: &[u8]) -> bool
    ensures { IsTrue result ↔ (word.now ≡ codes "extract") }
{
    word == b"extract".as_slice()
}

fn is_convert(word: &[u8]) -> bool
    ensures { IsTrue result ↔ (word.now ≡ codes "convert") }
{
    word == b"convert".as_slice()
}

fn is_trim(word: &[u8]) -> bool
    ensures { IsTrue result ↔ (word.now ≡ codes "trim") }
{
    word == b"trim".as_slice()
}

fn is_work(word: &[u8]) -> bool
    ensures { IsTrue result ↔ (word.now ≡ codes "work") }
{
    word == b"work".as_slice()
}

/// The limits that the options set; each stands there once at most, in either order.
fn limits_in(options: &[Vec<u8>]) -> Option<Limits>
    ensures some { IfSome result (λ l. SpellsOptions (texts options.now) l.conflicts l.forget) }
    ensures none { IfNone result ((conflicts : ℕ) (forget : ℕ) → SpellsOptions (texts options.now) conflicts forget → ⊥) }
{
    match options {
        [] => Some(DEFAULT_LIMITS),
        [option, word] => one_limit(option, word),
        [option, word, other, next] => two_limits(option, word, other, next),
        _ => None,
    }
}

fn one_limit(option: &[u8], word: &[u8]) -> Option<Limits>
    ensures some { IfSome result (λ l. SpellsOption option.now word.now l.conflicts l.forget) }
    ensures none { IfNone result ((conflicts : ℕ) (forget : ℕ) → SpellsOption option.now word.now conflicts forget → ⊥) }
{
    let count = count(word)?;
    if is_conflicts(option) {
        return Some(Limits {
            conflicts: count,
            ..DEFAULT_LIMITS
        });
    }
    if is_forget(option) {
        return Some(Limits {
            forget: count,
            ..DEFAULT_LIMITS
        });
    }
    None
}

fn two_limits(option: &[u8], word: &[u8], other: &[u8], next: &[u8]) -> Option<Limits>
    ensures some { IfSome result (λ l. SpellsBoth option.now word.now other.now next.now l.conflicts l.forget) }
    ensures none { IfNone result ((conflicts : ℕ) (forget : ℕ) → SpellsBoth option.now word.now other.now next.now conflicts forget → ⊥) }
{
    let first = count(word)?;
    let second = count(next)?;
    if is_conflicts(option) && is_forget(other) {
        return Some(Limits {
            conflicts: first,
            forget: second,
        });
    }
    if is_forget(option) && is_conflicts(other) {
        return Some(Limits {
            conflicts: second,
            forget: first,
        });
    }
    None
}

fn is_conflicts(word: &[u8]) -> bool
    ensures { IsTrue result ↔ (word.now ≡ codes "--conflicts") }
{
    word == b"--conflicts".as_slice()
}

fn is_forget(word: &[u8]) -> bool
    ensures { IsTrue result ↔ (word.now ≡ codes "--forget") }
{
    word == b"--forget".as_slice()
}

/// The value of a word of 1 to 18 digits.
fn count(word: &[u8]) -> Option<u64>
    ensures { result ≡ count_of word.now }
{
    if word.len() > 18 { None } else { number(word) }
}

/// The number of blocks that a word spells, from 1 to 200.
fn blocks_in(word: &[u8]) -> Option<u32>
    ensures some { IfSome result (SpellsBlocks word.now) }
    ensures none { IfNone result ((blocks : ℕ) → SpellsBlocks word.now blocks → ⊥) }
{
    let blocks = count(word)?;
    if blocks < 1 || blocks > u64::from(MAX_BLOCKS) {
        return None;
    }
    Some(blocks as u32)
}

/// The names of the files that a command opens; `None` for a file that it does not use.
#[derive(Clone, Copy, Debug)]
pub struct Names<'a> {
    /// The formula, which is read.
    pub formula: Option<&'a [u8]>,
    /// The proof that is read.
    pub proof_in: Option<&'a [u8]>,
    /// The proof that is written.
    pub proof_out: Option<&'a [u8]>,
}
