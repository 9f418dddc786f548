//! How large a series may grow, and how long a line may be. All crates take their limits from here.

/// How many boats may be entered in a series.
pub const MAX_BOATS: usize = 500;

/// How many races a series may have. They are numbered from 1.
pub const MAX_RACES: u8 = 40;

/// How many entries a journal may hold.
pub const MAX_ENTRIES: usize = 8192;

/// How many penalties of one kind a boat may have in one race (RRS 30.2, 44.3(c)).
pub const MAX_PENALTIES: u8 = 9;

/// How many whole points the stated amount of a Scoring Penalty may have (RRS 44.3(c)).
pub const MAX_SCP_POINTS: u8 = 99;

/// How many bytes a line may have, without its end.
pub const MAX_LINE: usize = 80;

/// How many seats an office may have. They are numbered from 1.
pub const MAX_SEATS: u8 = 16;
