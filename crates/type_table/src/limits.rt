//! The limits of the program; `tools/limits` lists where else a number of them is written.

ghost use Rattle.std.specs.Prelude.{◌≡◌};
ghost use Rattle.type_table.specs.Limits.{most_states, most_ops, most_events, longest_history, most_workers, most_tries, longest_line, longest_name};
ghost use Rattle.type_table.specs.declared.limits.TheConstants.{MOST_STATES, MOST_OPS, MOST_EVENTS, LONGEST_HISTORY, MOST_WORKERS, MOST_TRIES, LONGEST_LINE, LONGEST_NAME};

/// The most states of a type.
pub const MOST_STATES: u16 = 1024;

/// The most operations of a type.
pub const MOST_OPS: usize = 64;

/// The most events of a history's text, and commands of a script.
pub const MOST_EVENTS: u32 = 1_000_000;

/// The most events that a store makes.
pub const LONGEST_HISTORY: u32 = u32::MAX;

/// The most workers at a store.
pub const MOST_WORKERS: usize = 16;

/// The most tries of a job.
pub const MOST_TRIES: u8 = 100;

/// The most bytes of a line of a text.
pub const LONGEST_LINE: usize = 200;

/// The most bytes of a name.
pub const LONGEST_NAME: usize = 32;

/// The limits of the code are those of the definitions.
pub fn limits_agree()
    ensures states { MOST_STATES ≡ most_states }
    ensures ops { MOST_OPS ≡ most_ops }
    ensures events { MOST_EVENTS ≡ most_events }
    ensures history { LONGEST_HISTORY ≡ longest_history }
    ensures workers { MOST_WORKERS ≡ most_workers }
    ensures tries { MOST_TRIES ≡ most_tries }
    ensures line { LONGEST_LINE ≡ longest_line }
    ensures name { LONGEST_NAME ≡ longest_name }
{}
