// A reflection held in lent tables: the structs of the Rust by value, each the record of a table.
#![tactic(auto)]

ghost use Rattle.std.specs.Prelude.{◌≡◌};
ghost use Rattle.reflection.specs.Fits.{fits_u16};
ghost use Rattle.reflection.specs.Texts.{text_of};

use flags::{BindingFlags, VariableFlags};

mod limits;
mod names;
mod rd11;
mod refusal;
mod strides;

pub use limits::{
    BINDING_ROOM, BINDING_TABLE, BINDING_WORDS, BUFFER_ROOM, BUFFER_TABLE, BUFFER_WORDS,
    CHUNK_LIMIT, HEADER_WORDS, TYPE_LEVELS, TYPE_ROOM, TYPE_TABLE, TYPE_WORDS, U16_LIMIT,
    VARIABLE_ROOM, VARIABLE_TABLE, VARIABLE_WORDS,
};
pub use names::{Texts, in_chunk};
pub use rd11::{Rd11Words, is_sm5, is_wide, major_of};
pub use refusal::{Refusal, UnknownRefusal};
pub use strides::{
    BINDING_STRIDE, BUFFER_STRIDE, HEADER_SIZE, MEMBER_STRIDE, RD11_HEADER_SIZE, RD11_IDENTIFIER,
    SM5_TYPE_STRIDE, SM5_VARIABLE_STRIDE, SM51_IDENTIFIER, TYPE_STRIDE, VARIABLE_STRIDE,
    WIDE_BINDING_STRIDE,
};

// The fields of these structs are the words of lent tables, in which any number can stand, so none is an Option or an enum: `readable` has to see what
// should be 0 and is not, or is no code. 0 is what an unused word holds (docs/DECISIONS.md).

// Where a name or a default lies: in the chunk (source 0) or in the text of edits (source 1), `length` bytes from `place` on.
#[derive(Clone, Copy, PartialEq, Eq)]
pub struct Text {
    pub source: u32,
    pub place: u32,
    pub length: u32,
}

// A text by its three words in a table.
impl From<[u32; 3]> for Text {
    ghost from_gives = { λ words text. text ≡ text_of words };

    fn from([source, place, length]: [u32; 3]) -> Text {
        Text {
            source,
            place,
            length,
        }
    }
}

// The RD11 words that are free; all 0 for major 4.
#[derive(Clone, Copy, PartialEq, Eq)]
pub struct Rd11Header {
    pub identifier: u32,
    pub resource_binding_stride: u32,
    pub interface_slot_count: u32,
}

// A reflection's own numbers, and how many records stand in each table.
#[derive(Clone, Copy)]
pub struct ResourceDef {
    pub target_version: u32,
    pub compile_flags: u32,
    pub creator: Text,
    pub rd11: Rd11Header,
    pub binding_count: u32,
    pub buffer_count: u32,
    pub variable_count: u32,
    pub type_count: u32,
}

// A resource binding: a record of the bindings' table.
#[derive(Clone, Copy)]
pub struct ResourceBinding {
    pub name: Text,
    pub input_type: u32,
    pub return_type: u32,
    pub dimension: u32,
    pub num_samples: u32,
    pub bind_point: u32,
    pub bind_count: u32,
    pub flags: BindingFlags,
    pub space: u32,
    pub id: u32,
}

// A constant buffer: a record of the buffers' table. Its variables follow those of the buffers before it.
#[derive(Clone, Copy)]
pub struct CBufferDef {
    pub name: Text,
    pub variable_count: u32,
    pub size: u32,
    pub flags: u32,
    pub cb_type: u32,
}

// A variable: a record of the variables' table. The nodes of its type follow those of the variables before it.
#[derive(Clone, Copy)]
pub struct CBufferVariable {
    pub name: Text,
    pub offset: u32,
    pub size: u32,
    pub flags: VariableFlags,
    pub default_value: Text,
    pub texture_start: u32,
    pub texture_size: u32,
    pub sampler_start: u32,
    pub sampler_size: u32,
}

// A type descriptor: a node of the types' table, before the nodes of its members. The last two fields are what it is as a member of the type
// above it; a root has none.
#[derive(Clone, Copy)]
pub struct TypeDesc {
    pub class: u32,
    pub var_type: u32,
    pub rows: u32,
    pub columns: u32,
    pub elements: u32,
    pub member_count: u32,
    pub extra0: u32,
    pub extra1: u32,
    pub extra2: u32,
    pub extra3: u32,
    pub name: Text,
    pub member_name: Text,
    pub member_offset: u32,
}

impl TypeDesc {
    // Whether each number that has 16 bits in a chunk fits 16 bits.
    #[tactic(auto, unfolding(crate::specs::Fits::fits_u16))]
    pub fn fits_u16(self) -> bool
        ensures { result ≡ fits_u16 self }
    {
        self.class < U16_LIMIT
            && self.var_type < U16_LIMIT
            && self.rows < U16_LIMIT
            && self.columns < U16_LIMIT
            && self.elements < U16_LIMIT
            && self.member_count < U16_LIMIT
    }
}
