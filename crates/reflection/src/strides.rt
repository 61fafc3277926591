// The sizes of an RDEF chunk's header and records in bytes, and the two RD11 identifiers (document 01, "Walk order"): each number once.

pub const HEADER_SIZE: u32 = 28;

// The header with the eight RD11 words of major 5.
pub const RD11_HEADER_SIZE: u32 = 60;

// A binding; the longer one has space and id.
pub const BINDING_STRIDE: u32 = 32;

pub const WIDE_BINDING_STRIDE: u32 = 40;

pub const BUFFER_STRIDE: u32 = 24;

// A variable and a type descriptor of major 4 and of major 5.
pub const VARIABLE_STRIDE: u32 = 24;

pub const SM5_VARIABLE_STRIDE: u32 = 40;

pub const TYPE_STRIDE: u32 = 16;

pub const SM5_TYPE_STRIDE: u32 = 36;

pub const MEMBER_STRIDE: u32 = 12;

// "RD11" for shader model 5.0, and the identifier of 5.1.
pub const RD11_IDENTIFIER: u32 = 0x31314452;

pub const SM51_IDENTIFIER: u32 = 0x25441313;
