// The limits of a script, and how much room what it puts takes.
// The longest script.
pub(crate) const MOST_BYTES: usize = 65536;

// Room for the line of any step.
pub(crate) const STEP_ROOM: usize = 64;

// Room for all closing lines.
pub(crate) const CLOSING_ROOM: usize = 2048;

// How many steps are done in one run.
pub(crate) const MOST_AT_ONCE: usize = 1024;
