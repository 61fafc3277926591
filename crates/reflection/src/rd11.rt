// The major version, and the RD11 words of major 5.
ghost use Rattle.std.specs.Prelude.{◌≡◌};
ghost use Rattle.reflection.specs.Rd11.{rd11_allowed};
ghost use Rattle.reflection.specs.Reflection.{major_of, is_sm5, is_wide};
ghost use Rattle.reflection.specs.Rd11.{rd11_from_header};

use crate::ResourceDef;
use crate::strides::{
    BINDING_STRIDE, BUFFER_STRIDE, MEMBER_STRIDE, RD11_HEADER_SIZE, RD11_IDENTIFIER,
    SM5_TYPE_STRIDE, SM5_VARIABLE_STRIDE, SM51_IDENTIFIER, WIDE_BINDING_STRIDE,
};

// The major version of a version word.
pub fn major_of(version: u32) -> u32
    ensures { result ≡ major_of version }
{
    version / 256 % 256
}

// Whether the reflection is of major 5: it has RD11 words.
#[tactic(auto, unfolding(crate::specs::Rd11::rd11_from_header))]
pub fn is_sm5(def: ResourceDef) -> bool
    ensures { result ≡ is_sm5 (rd11_from_header def) }
{
    major_of(def.target_version) == 5
}

// Whether its bindings have space and id.
#[tactic(auto, unfolding(crate::specs::Rd11::rd11_from_header))]
pub fn is_wide(def: ResourceDef) -> bool
    ensures { result ≡ is_wide (rd11_from_header def) }
{
    is_sm5(def) && def.rd11.resource_binding_stride == WIDE_BINDING_STRIDE
}

// The words of an RD11 header that are not free: the identifier, and the size of the header and of each record.
#[derive(Clone, Copy)]
pub struct Rd11Words {
    pub identifier: u32,
    pub header_size: u32,
    pub buffer_stride: u32,
    pub binding_stride: u32,
    pub variable_stride: u32,
    pub type_stride: u32,
    pub member_stride: u32,
}

impl Rd11Words {
    // Whether these words are allowed.
    #[tactic(auto, unfolding(crate::specs::Rd11::rd11_allowed))]
    pub fn allowed(self) -> bool
        ensures { result ≡ rd11_allowed self.identifier self.header_size self.buffer_stride self.binding_stride
            self.variable_stride self.type_stride self.member_stride }
    {
        (self.identifier == RD11_IDENTIFIER || self.identifier == SM51_IDENTIFIER)
            && self.header_size == RD11_HEADER_SIZE
            && self.buffer_stride == BUFFER_STRIDE
            && (self.binding_stride == BINDING_STRIDE || self.binding_stride == WIDE_BINDING_STRIDE)
            && self.variable_stride == SM5_VARIABLE_STRIDE
            && self.type_stride == SM5_TYPE_STRIDE
            && self.member_stride == MEMBER_STRIDE
    }
}
