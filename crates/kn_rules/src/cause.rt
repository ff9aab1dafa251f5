//! The causes for which a text is no proof, as `Checked` and `FeedError` tell them.

/// A line is the header and is not the first, or the first line is not the header of a proof for the formula.
pub const WRONG_HEADER: u8 = 1;
/// It is no line of a proof.
pub const BAD_LINE: u8 = 2;
/// A variable of the line is not known.
pub const UNKNOWN_VARIABLE: u8 = 3;
/// An id of the line is not live.
pub const NOT_LIVE: u8 = 4;
/// The run of the hints does not end in conflict.
pub const NO_CONFLICT: u8 = 5;
/// The constraint of a klause's unit is not the clause of the root alone.
pub const WRONG_UNIT: u8 = 6;
/// The root does not stand for the grid of the klause.
pub const WRONG_ROOT: u8 = 7;
/// The klause names a variable twice, or the constraint that is unfolded does so or has a guard.
pub const NOT_PLAIN: u8 = 8;
/// All lines step, and none gave the clause without literals; told with the number of lines.
pub const NOT_REFUTED: u8 = 9;
