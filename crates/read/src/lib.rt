// Reading an RDEF chunk into lent tables (document 01, "Walk order").
#![tactic(auto)]

ghost use Rattle.std.specs.Prelude.{◌≡◌};
ghost use Rattle.read.specs.Header.{Headed, rd11_check};
ghost use Rattle.tables.specs.Lent.{SameTables};
ghost use Rattle.read.specs.Parsed.{read_in, TablesParsed};
ghost use Rattle.read.specs.Filled.{IsRoom, Filled, SameLengths};

use read_spec::Counts;
use read_tables::BindingFilling;
use read_types::{Chunk, Records, TypeFilling};
use reflection::{
    BINDING_ROOM, BINDING_WORDS, BUFFER_ROOM, BUFFER_WORDS, CHUNK_LIMIT, HEADER_SIZE,
    RD11_HEADER_SIZE, Rd11Header, Rd11Words, Refusal, ResourceDef, TYPE_LEVELS, TYPE_ROOM,
    TYPE_WORDS, Text, VARIABLE_ROOM, VARIABLE_WORDS, WIDE_BINDING_STRIDE,
};
use tables::Tables;

// What the chunk's header says: the creator, whether the chunk is of major 5, and whether its bindings have space and id.
#[derive(Clone, Copy)]
pub struct ChunkHeader {
    pub creator: Text,
    pub sm5: bool,
    pub wide: bool,
}

// Whether the RD11 words are there and allowed.
#[tactic(auto, using(crate::proofs::Header::fault_short, crate::proofs::Header::fault_not_allowed, crate::proofs::Header::fault_none))]
fn check_rd11(chunk: &[u8]) -> Result<(), Refusal>
    ensures { result ≡ rd11_check chunk.now }
{
    if chunk.len() < RD11_HEADER_SIZE as usize {
        return Err(Refusal::Rd11Missing);
    }
    let rd11 = Rd11Words {
        identifier: words::word_at(chunk, 28),
        header_size: words::word_at(chunk, 32),
        buffer_stride: words::word_at(chunk, 36),
        binding_stride: words::word_at(chunk, 40),
        variable_stride: words::word_at(chunk, 44),
        type_stride: words::word_at(chunk, 48),
        member_stride: words::word_at(chunk, 52),
    };
    if rd11.allowed() {
        Ok(())
    } else {
        Err(Refusal::BadRd11)
    }
}

// Reads the header: length, major version, creator, RD11 words.
fn read_header(chunk: &[u8]) -> Result<ChunkHeader, Refusal>
    ensures { Headed chunk.now result }
{
    if chunk.len() < HEADER_SIZE as usize {
        return Err(Refusal::ChunkTooShort);
    }
    if CHUNK_LIMIT < chunk.len() {
        return Err(Refusal::ChunkTooLong);
    }
    let sm5 = match reflection::major_of(words::word_at(chunk, 16)) {
        4 => false,
        5 => true,
        _ => return Err(Refusal::BadVersion),
    };
    let offset = words::word_at(chunk, 24);
    let creator = read_types::string_at(chunk, offset).ok_or(Refusal::BadCreator)?;
    if sm5 {
        check_rd11(chunk)?;
    }
    Ok(ChunkHeader {
        creator,
        sm5,
        wide: sm5 && words::word_at(chunk, 40) == WIDE_BINDING_STRIDE,
    })
}

// How many records each table can take.
fn capacity_of(tables: &Tables<'_>) -> Counts
    ensures { IsRoom tables.now.bindings.now tables.now.buffers.now tables.now.variables.now tables.now.types.now result }
{
    Counts {
        bindings: (tables.bindings.len() / BINDING_WORDS).min(BINDING_ROOM),
        buffers: (tables.buffers.len() / BUFFER_WORDS).min(BUFFER_ROOM),
        variables: (tables.variables.len() / VARIABLE_WORDS).min(VARIABLE_ROOM),
        types: (tables.types.len() / TYPE_WORDS).min(TYPE_ROOM),
    }
}

// Reads a chunk: the records stand at each table's start, and after them what stood there before.
fn read_tables(bytes: &[u8], tables: &mut Tables<'_>) -> Result<ResourceDef, Refusal>
    ensures filled { Filled (read_in bytes.now tables.old)
        tables.new.bindings.now tables.new.buffers.now tables.new.variables.now tables.new.types.now result }
    ensures same { SameTables tables.old tables.new }
    ensures long { SameLengths tables.old tables.new }
{
    let header = read_header(bytes)?;
    let capacity = capacity_of(tables);
    let chunk = Chunk {
        bytes,
        sm5: header.sm5,
        wide: header.wide,
    };
    let bindings = Records {
        chunk,
        at: words::word_at(bytes, 12) as usize,
        count: words::word_at(bytes, 8),
    };
    let mut binding_filling = BindingFilling {
        bindings: &mut *tables.bindings,
        capacity,
        counts: Counts::default(),
    };
    read_tables::walk_bindings(&mut binding_filling, bindings)?;
    let buffers = Records {
        chunk,
        at: words::word_at(bytes, 4) as usize,
        count: words::word_at(bytes, 0),
    };
    let mut type_filling = TypeFilling {
        types: &mut *tables.types,
        capacity,
        counts: binding_filling.counts,
        path: [0; TYPE_LEVELS],
    };
    read_tables::walk_buffers(&mut type_filling, tables.buffers, tables.variables, buffers)?;
    let counts = type_filling.counts;
    Ok(ResourceDef {
        target_version: words::word_at(bytes, 16),
        compile_flags: words::word_at(bytes, 20),
        creator: header.creator,
        rd11: Rd11Header {
            identifier: words::word_if(bytes, header.sm5, 28),
            resource_binding_stride: words::word_if(bytes, header.sm5, 40),
            interface_slot_count: words::word_if(bytes, header.sm5, 56),
        },
        binding_count: counts.bindings as u32,
        buffer_count: counts.buffers as u32,
        variable_count: counts.variables as u32,
        type_count: counts.types as u32,
    })
}

// Reads an RDEF chunk: the header by value, the records into four lent tables, zeros after them. A refusal leaves zeros.
pub fn parse_rdef(chunk: &[u8], tables: &mut Tables<'_>) -> Result<ResourceDef, Refusal>
    ensures parsed { TablesParsed (read_in chunk.now tables.old) tables.old tables.new result }
    ensures same { SameTables tables.old tables.new }
{
    match read_tables(chunk, tables) {
        Err(refusal) => {
            tables.clear();
            Err(refusal)
        }
        Ok(def) => {
            tables.clear_after(def);
            Ok(def)
        }
    }
}
