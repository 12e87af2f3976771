// Where the lists of a change set stand in its table. The same numbers stand in specs/Layout.antt and docs/TABLES.md.

// A table, in words.
pub const WORDS: usize = 3556;

// Where created begins; modified and deleted follow, each with the same room, then the warnings.
pub const LISTS: usize = 4;

// A list's room, in words and in entries.
pub const LIST: usize = 1024;

pub const ENTRIES: usize = 512;

// Where the warnings begin, and how many there is room for.
pub const WARNINGS_FROM: usize = 3076;

pub const WARNINGS: usize = 160;
