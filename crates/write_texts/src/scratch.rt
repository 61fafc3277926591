// The writer's scratch, region by region: each begins where the one before it ends (specs/Scratch.antt says what stands in them, docs/ROOM.md has the numbers).
use reflection::{BUFFER_ROOM, TYPE_ROOM, VARIABLE_ROOM};

// The words of each pool of texts: names of bindings and buffers, all other names, defaults. The first region begins at 0.
const OUTER_SIZE: usize = 8192;

const INNER_SIZE: usize = 43008;

const DEFAULTS_SIZE: usize = 12288;

// The words of an entry for a type that may be shared, of a member's record, and of the offsets of a variable and of a buffer.
pub const SHARED_WORDS: usize = 2;

pub const MEMBER_WORDS: usize = reflection::MEMBER_STRIDE as usize / 4;

pub const VARIABLE_OFFSETS: usize = 3;

pub const BUFFER_OFFSETS: usize = 2;

// Where each region begins. The last has a word for each binding, and `write_spec::SCRATCH_WORDS` is where it ends (specs/Scratch.antt, `scratch_filled`).
pub const INNER_START: usize = OUTER_SIZE;

pub const DEFAULTS_START: usize = INNER_START + INNER_SIZE;

pub const ROOT_TYPES_START: usize = DEFAULTS_START + DEFAULTS_SIZE;

pub const MEMBER_TYPES_START: usize = ROOT_TYPES_START + VARIABLE_ROOM * SHARED_WORDS;

pub const RECORDS_START: usize = MEMBER_TYPES_START + TYPE_ROOM * SHARED_WORDS;

pub const VARIABLES_START: usize = RECORDS_START + TYPE_ROOM * MEMBER_WORDS;

pub const BUFFERS_START: usize = VARIABLES_START + VARIABLE_ROOM * VARIABLE_OFFSETS;

pub const BINDINGS_START: usize = BUFFERS_START + BUFFER_ROOM * BUFFER_OFFSETS;
