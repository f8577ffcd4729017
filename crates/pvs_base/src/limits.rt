//! The limits of the language. What passes one is refused by name.

/// The longest text of a unit, in bytes.
pub const MAX_TEXT: usize = 1 << 20;

/// How many units a session holds at most.
pub const MAX_UNITS: usize = 1024;

/// The deepest level of nesting of a text.
pub const MAX_LEVEL: usize = 200;

/// The most entries of one list of a text: names, bindings, components, arguments, actuals, parts
/// of a LET, or formals.
pub const MAX_LIST: usize = 200;

/// The greatest depth of a core tree. A leaf has depth 1.
pub const MAX_DEPTH: u32 = 1000;

/// The greatest size of a core tree. A node counts once for each place where it stands.
pub const MAX_SIZE: u64 = 1_000_000;

/// The greatest index of a variable in a core tree.
pub const MAX_INDEX: u32 = 1_000_000;

/// The most variables of a sequent.
pub const MAX_VARIABLES: u32 = 1_000_000;

/// The most formals and entries of a theory together, generated conditions included.
pub const MAX_ENTRIES: u32 = 1_000_000;

/// The most instances in the scope of a theory.
pub const MAX_INSTANCES: u32 = 4096;

/// The longest input of a session, in bytes.
pub const MAX_INPUT: u64 = 1 << 28;

/// The most entries of a cache.
pub const MAX_CACHE: u32 = 1_000_000;
