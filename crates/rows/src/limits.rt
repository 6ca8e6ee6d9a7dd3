//! The limits of rows, tables, searches and sheets; the kinds' own are in `kinds`, the shelf's in
//! `stores`. Code and definitions cite these constants.

/// The most members of a row.
pub const MOST_MEMBERS: usize = 32;

/// The most bytes of a row's body; the first is the count of members.
pub const LONGEST_BODY: usize = 16;

/// The most voices of a table.
pub const MOST_VOICES: usize = 80;

/// The most rows of a table.
pub const MOST_ROWS: usize = 120;

/// The most bytes that the rows of a table have together.
pub const MOST_BYTES: usize = 8_192;

/// The words of the longest key: one for each voice, two for each row.
pub const LONGEST_KEY: usize = MOST_VOICES + 2 * MOST_ROWS;

/// The largest budget of a Solve, in nodes.
pub const MOST_BUDGET: u64 = 1_000_000;

/// The most nodes that a search opens over all its Solves.
pub const MOST_OPENED: u64 = 1_000_000_000_000;

/// The most bytes of a sheet that `plan` reads; later ones are ignored.
pub const MOST_SHEET: usize = 20_000;
