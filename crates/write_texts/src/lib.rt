// Steps of canonical writing that place names and defaults, with the pools of texts in the scratch.
#![tactic(auto)]

mod scratch;
mod source;
mod text_pool;
mod writer;

pub use scratch::{
    BINDINGS_START, BUFFER_OFFSETS, BUFFERS_START, MEMBER_TYPES_START, MEMBER_WORDS, RECORDS_START,
    ROOT_TYPES_START, SHARED_WORDS, VARIABLE_OFFSETS, VARIABLES_START,
};
pub use source::Source;
pub use text_pool::TextPool;
pub use write_bytes::{put_padding, put_word_bytes};
pub use writer::Writer;
