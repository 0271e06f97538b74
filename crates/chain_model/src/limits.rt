//! The limits of models, of properties and of a run.

/// Bytes of a model text.
pub const MOST_MODEL_BYTES: usize = 1_048_576;
/// Bytes of a property text.
pub const MOST_PROPERTY_BYTES: usize = 65_536;
/// Tokens of a text.
pub const MOST_TOKENS: usize = 262_144;
/// Modules of a model.
pub const MOST_MODULES: usize = 64;
/// Variables of a model.
pub const MOST_VARIABLES: usize = 256;
/// Commands of a model.
pub const MOST_COMMANDS: usize = 4_096;
/// Branches of a command.
pub const MOST_BRANCHES: usize = 64;
/// Nodes of a text's expressions after expansion.
pub const MOST_NODES: usize = 65_536;
/// Parentheses that are open at a time.
pub const MOST_NESTING: usize = 64;
/// Signs `!`, or signs `-`, in an unbroken row.
pub const MOST_SIGNS: usize = 64;
/// Signs `?` without a `;` between.
pub const MOST_CONDITIONALS: usize = 1_024;
/// The number of the last state that a path formula may speak of.
pub const MOST_HORIZON: u32 = 1_000_000;
/// Traces of a run.
pub const MOST_SAMPLES: u64 = 268_435_456;
/// Workers of a run.
pub const MOST_WORKERS: u64 = 64;
/// The least common denominator of a command's weights.
pub const MOST_WEIGHT_DENOMINATOR: u64 = 281_474_976_710_656;
/// Choices of a state.
pub const MOST_CHOICES: u64 = 281_474_976_710_656;
/// Blocks of a board.
pub const MOST_BLOCKS: u64 = 1_024;
/// Traces of a block.
pub const MOST_BLOCK_TRACES: u32 = 32;
/// The denominators of the bound, of the indifference width and of the two errors of a test.
pub const MOST_SETTING_DENOMINATOR: i64 = 2_147_483_648;
