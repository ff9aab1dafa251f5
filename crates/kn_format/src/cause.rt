//! The causes for which a text is refused, as `Refusal` names them.

/// No line is a problem line, or another line that is neither blank nor a comment comes first.
pub const NO_HEADER: u8 = 1;
/// The first line that is neither blank nor a comment begins with the word `p`, and is no problem line.
pub const BAD_HEADER: u8 = 2;
/// The problem line has more than 1,000,000 variables.
pub const TOO_MANY_VARIABLES: u8 = 3;
/// The problem line has more than 10,000,000 constraints.
pub const TOO_MANY_CONSTRAINTS: u8 = 4;
/// A word may not stand where it stands.
pub const BAD_TOKEN: u8 = 5;
/// A literal has a variable above those of the problem line.
pub const VARIABLE_ABOVE_HEADER: u8 = 6;
/// A bound is above 1,000,000.
pub const BOUND_TOO_LARGE: u8 = 7;
/// The variable of a literal stands before it in the same klause, the guard counted.
pub const REPEATED_VARIABLE: u8 = 8;
/// One constraint more begins than the problem line says.
pub const EXTRA_CONSTRAINT: u8 = 9;
/// The text ends within a constraint.
pub const UNENDED: u8 = 10;
/// The text ends before there are as many constraints as the problem line says.
pub const MISSING_CONSTRAINT: u8 = 11;

// What is wrong, in words.
pub(crate) fn sentence(why: u8) -> &'static str {
    match why {
        NO_HEADER => "no problem line",
        BAD_HEADER => "a bad problem line",
        TOO_MANY_VARIABLES => "more than 1000000 variables",
        TOO_MANY_CONSTRAINTS => "more than 10000000 constraints",
        BAD_TOKEN => "a word that may not stand here",
        VARIABLE_ABOVE_HEADER => "a variable above those of the problem line",
        BOUND_TOO_LARGE => "a bound above 1000000",
        REPEATED_VARIABLE => "a variable that the klause has named before",
        EXTRA_CONSTRAINT => "one constraint more than the problem line says",
        UNENDED => "the text ends within a constraint",
        MISSING_CONSTRAINT => "fewer constraints than the problem line says",
        _ => "an unknown cause",
    }
}
