// The header of a reflection: the version, the RD11 words, the creator, and how many records each table has.
ghost use Rattle.std.specs.Prelude.{◌≡◌, ◌&&◌, leb, length};
ghost use Rattle.reflection.specs.Rd11.{rd11_from_header};
ghost use Rattle.readable.specs.Readable.{version_readable, rd11_absent};
ghost use Rattle.readable.specs.Checks.{counts_checked, header_checked};

use crate::names::name_readable;
use crate::subject::Subject;
use reflection::{
    BINDING_ROOM, BINDING_WORDS, BUFFER_ROOM, BUFFER_STRIDE, BUFFER_WORDS, CHUNK_LIMIT,
    MEMBER_STRIDE, RD11_HEADER_SIZE, Rd11Words, ResourceDef, SM5_TYPE_STRIDE, SM5_VARIABLE_STRIDE,
    TYPE_ROOM, TYPE_WORDS, VARIABLE_ROOM, VARIABLE_WORDS,
};

// Whether the RD11 words of a major other than 5, which has none, are 0.
#[tactic(auto, unfolding(crate::specs::Readable::rd11_absent, crate::specs::Readable::zero_unless, crate::specs::Readable::every))]
fn rd11_absent(def: ResourceDef) -> bool
    ensures { result ≡ rd11_absent def }
{
    let rd11 = def.rd11;
    reflection::is_sm5(def)
        || (rd11.identifier == 0
            && rd11.resource_binding_stride == 0
            && rd11.interface_slot_count == 0)
}

// Whether the major version is 4, or 5 with RD11 words that are allowed.
#[tactic(auto, using(crate::proofs::HeaderTests::version_5, crate::proofs::HeaderTests::version_other))]
fn version_readable(def: ResourceDef) -> bool
    ensures { result ≡ version_readable def.target_version (rd11_from_header def) }
{
    let rd11 = def.rd11;
    if reflection::is_sm5(def) {
        let sized = Rd11Words {
            identifier: rd11.identifier,
            header_size: RD11_HEADER_SIZE,
            buffer_stride: BUFFER_STRIDE,
            binding_stride: rd11.resource_binding_stride,
            variable_stride: SM5_VARIABLE_STRIDE,
            type_stride: SM5_TYPE_STRIDE,
            member_stride: MEMBER_STRIDE,
        };
        sized.allowed()
    } else {
        reflection::major_of(def.target_version) == 4
    }
}

// Whether so many records are held, and there is room for them.
fn count_readable(n: u32, held: usize, room: usize) -> bool
    ensures { result ≡ (leb n held && leb n room) }
{
    let n = n as usize;
    n <= held && n <= room
}

impl Subject<'_> {
    // Whether the texts' lengths, the version, the RD11 words and the creator are readable.
    #[tactic(auto, unfolding(crate::specs::Checks::header_checked))]
    pub(crate) fn header_readable(&self) -> bool
        ensures { result ≡ header_checked self.now.texts.chunk.now self.now.texts.edits.now self.now.r.def }
    {
        self.texts.chunk.len() <= CHUNK_LIMIT
            && self.texts.edits.len() <= CHUNK_LIMIT
            && rd11_absent(self.r.def)
            && version_readable(self.r.def)
            && name_readable(self.texts, self.r.def.creator)
    }

    // Whether each table holds as many records as the header counts.
    #[tactic(auto, unfolding(crate::specs::Checks::counts_checked, crate::specs::Checks::count_checked))]
    pub(crate) fn counts_readable(&self) -> bool
        ensures { result ≡ counts_checked self.now.r.def
            (length self.now.r.bindings.now) (length self.now.r.buffers.now) (length self.now.r.variables.now) (length self.now.r.types.now) }
    {
        let r = self.r;
        count_readable(
            r.def.binding_count,
            r.bindings.len() / BINDING_WORDS,
            BINDING_ROOM,
        ) && count_readable(
            r.def.buffer_count,
            r.buffers.len() / BUFFER_WORDS,
            BUFFER_ROOM,
        ) && count_readable(
            r.def.variable_count,
            r.variables.len() / VARIABLE_WORDS,
            VARIABLE_ROOM,
        ) && count_readable(r.def.type_count, r.types.len() / TYPE_WORDS, TYPE_ROOM)
    }
}
