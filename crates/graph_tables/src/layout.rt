// Where the words of a table stand: regions, rows, and what a row has. Kinds are numbers and no enums: a table's words are lent, by C too, and
// any number may stand in one.
// Counts.
pub const VARIABLES: usize = 0;

pub const CLOCKS: usize = 1;

pub const LOCATIONS: usize = 2;

pub const ACTIONS: usize = 3;

pub const PROCESSES: usize = 4;

pub const TRANSITIONS: usize = 5;

// Regions: the first word of each.
pub const KINDS_START: usize = 6;

pub const VALUES_START: usize = 22;

pub const PLACES_START: usize = 38;

pub const INVARIANTS_START: usize = 42;

pub const ACTIONS_START: usize = 74;

pub const TRANSITIONS_START: usize = 1706;

pub const LIMITS_START: usize = 2090;

pub const GUARDS_START: usize = 5930;

pub const EFFECTS_START: usize = 14122;

// Rows: how many words each has.
pub const ACTION_WIDTH: usize = 51;

pub const TRANSITION_WIDTH: usize = 3;

pub const LIMIT_WIDTH: usize = 3;

pub const GROUP_WIDTH: usize = 24;

// The row of an action, behind its kind: how many resets, how many effects, then its resets, its effects' variables and
// their lengths.
pub const RESET_COUNT: usize = 1;

pub const EFFECT_COUNT: usize = 2;

pub const RESETS: usize = 3;

pub const VARS: usize = 19;

pub const LENGTHS: usize = 35;

// The row of a transition, behind its key.
pub const GUARD_LENGTH: usize = 1;

pub const LIMIT_COUNT: usize = 2;

// The row of a limit, behind its clock.
pub const LOWER: usize = 1;

pub const UPPER: usize = 2;

// What a variable is.
pub const BOOLEAN: u64 = 0;

pub const INTEGER: u64 = 1;

// A bound's word is time * BOUND_SPAN + its kind. No bound is of the spare one.
pub const BOUND_SPAN: u64 = 4;

pub const UNBOUNDED: u64 = 0;

pub const INCLUDED: u64 = 1;

pub const EXCLUDED: u64 = 2;

pub const SPARE: u64 = 3;

// What an action is.
pub const PLAIN: u64 = 0;

pub const SEND: u64 = 1;

pub const RECEIVE: u64 = 2;

// A key is (pre * ACTION_SPAN + action) * POST_SPAN + post, so PRE_SPAN is the product of the two.
pub const POST_SPAN: u64 = 32;

pub const ACTION_SPAN: u64 = 4294967296;

pub const PRE_SPAN: u64 = 137438953472;

// Times and integers have 32 bits: they are below this.
pub const WORD32: u64 = 4294967296;

// What stands for a kind where there is none.
pub const NO_KIND: u64 = 2;
