// The limits of document 01, "Reference functions and room", and the widths of the tables' records: each number once.

// The words of a header, and of a record of each table.
pub const HEADER_WORDS: usize = 12;

pub const BINDING_WORDS: usize = 12;

pub const BUFFER_WORDS: usize = 7;

pub const VARIABLE_WORDS: usize = 13;

pub const TYPE_WORDS: usize = 17;

// How many records of each kind a reflection has room for.
pub const BINDING_ROOM: usize = 1024;

pub const BUFFER_ROOM: usize = 64;

pub const VARIABLE_ROOM: usize = 2048;

pub const TYPE_ROOM: usize = 4096;

// The words of a table that has the whole room.
pub const BINDING_TABLE: usize = BINDING_ROOM * BINDING_WORDS;

pub const BUFFER_TABLE: usize = BUFFER_ROOM * BUFFER_WORDS;

pub const VARIABLE_TABLE: usize = VARIABLE_ROOM * VARIABLE_WORDS;

pub const TYPE_TABLE: usize = TYPE_ROOM * TYPE_WORDS;

// The root of a type stands at depth 0 and the deepest node at 64.
pub const TYPE_LEVELS: usize = 65;

// A number of 16 bits is below this.
pub const U16_LIMIT: u32 = 65536;

// How many bytes a chunk, a text of edits and an output may have.
pub const CHUNK_LIMIT: usize = 65536;
