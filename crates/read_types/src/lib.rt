// The walk of a type descriptor: a type walks its members and each member walks its type, one level deeper (document 01, "Walk order").
#![tactic(auto)]

ghost use Rattle.std.specs.Prelude.{◌≡◌, [], ◌-◌, ◌≤◌, length, take};
ghost use Rattle.reflection.specs.Limits.{type_levels};
ghost use Rattle.reflection.specs.Texts.{in_chunk};
ghost use Rattle.tables.specs.Tables.{type_record};
ghost use Rattle.read_spec.specs.Read.{type_stride, type_name_at};
ghost use Rattle.read_types.specs.Found.{text_in};
ghost use Rattle.read_types.specs.Walk.{found_text, node_from_chunk, turned, type_progress, members_progress, nodes_in, up_to_types, WalkedType};
ghost use Rattle.read_types.specs.Walked.{Walked};
ghost use Rattle.read_types.specs.Filling.{counted, OnlyTypes};

use reflection::{
    MEMBER_STRIDE, Refusal, SM5_TYPE_STRIDE, TYPE_LEVELS, TYPE_STRIDE, Text, TypeDesc, in_chunk,
};

mod chunk;
mod filling;
mod found;

pub use chunk::{Chunk, Record, Records};
pub use filling::{TypeFilling, claim};
pub use found::string_at;

// What a member says of its type: its name and its offset.
#[derive(Clone, Copy)]
pub struct Member {
    pub name: Text,
    pub offset: u32,
}

// How many bytes a type descriptor takes.
fn type_stride(sm5: bool) -> usize
    ensures { result ≡ type_stride sm5 }
{
    if sm5 {
        SM5_TYPE_STRIDE as usize
    } else {
        TYPE_STRIDE as usize
    }
}

// A type's name: only major 5 has one, and offset 0 means empty.
#[tactic(auto, using(crate::proofs::Names::empty_name, crate::proofs::Names::some_name))]
fn type_name_at(descriptor: Record<'_>) -> Option<Text>
    ensures { result ≡ text_in (type_name_at descriptor.entry.chunk.bytes.now descriptor.entry.chunk.sm5 descriptor.entry.at) }
{
    let chunk = descriptor.chunk;
    let offset = descriptor.word_if(chunk.sm5, 32);
    if offset == 0 {
        Some(in_chunk(0, 0))
    } else {
        string_at(chunk.bytes, offset)
    }
}

// The node of a type, whose name is known and which `member` leads to.
#[tactic(auto, unfolding(crate::specs::Walk::node_from_chunk, read_spec::specs::Read::numbers_from, tables::specs::Tables::type_record))]
fn type_node(descriptor: Record<'_>, name: Text, member: Member) -> TypeDesc
    requires { name ≡ found_text (type_name_at descriptor.chunk.bytes.now descriptor.chunk.sm5 descriptor.at) }
    ensures { result ≡ type_record (node_from_chunk descriptor.entry.chunk.bytes.now descriptor.entry.chunk.sm5 descriptor.entry.at member.name member.offset) }
{
    let sm5 = descriptor.chunk.sm5;
    TypeDesc {
        class: descriptor.low(0),
        var_type: descriptor.high(0),
        rows: descriptor.low(4),
        columns: descriptor.high(4),
        elements: descriptor.low(8),
        member_count: descriptor.high(8),
        extra0: descriptor.word_if(sm5, 16),
        extra1: descriptor.word_if(sm5, 20),
        extra2: descriptor.word_if(sm5, 24),
        extra3: descriptor.word_if(sm5, 28),
        name,
        member_name: member.name,
        member_offset: member.offset,
    }
}

// Walks the type at `at`: its node follows those that there are.
#[cycle(walk_members_walk_type)]
pub fn walk_type(
    filling: &mut TypeFilling<'_>,
    chunk: Chunk<'_>,
    at: u32,
    levels: usize,
    member: Member,
) -> Result<(), Refusal>
    requires { levels ≤ type_levels }
    ensures walked { WalkedType
        (type_progress chunk.entry.bytes.now chunk.entry.sm5 levels (turned (take (type_levels - levels) filling.old.path)) at member.name member.offset)
        levels filling.old.capacity filling.old.counts filling.old.types.now filling.new.types.now filling.old.path filling.new.path
        (counted result filling.new.counts) }
    ensures kept { OnlyTypes filling.old filling.new }
{
    if levels == 0 {
        return Err(Refusal::TypeTooDeep);
    }
    let depth = TYPE_LEVELS - levels;
    if filling.path[..depth].contains(&at) {
        return Err(Refusal::TypeCycle);
    }
    let n = claim(&mut filling.counts.types, filling.capacity.types)?;
    let record = chunk.record(at as usize, type_stride(chunk.sm5))?;
    let name = type_name_at(record);
    let node = type_node(record, name.unwrap_or(in_chunk(0, 0)), member);
    tables::put_type(filling.types, n, node);
    filling.path[depth] = at;
    let members = Records {
        chunk,
        at: record.word(12) as usize,
        count: record.high(8),
    };
    walk_members(filling, members, levels - 1)?;
    if name.is_none() {
        return Err(Refusal::BadName);
    }
    Ok(())
}

// Walks members: the nodes of their types follow those that there are. A loop, so that the stack holds at most two frames for each level.
#[cycle(walk_members_walk_type)]
#[tactic(auto, using(words::proofs::Parts::inside_fits))]
fn walk_members(
    filling: &mut TypeFilling<'_>,
    mut members: Records<'_>,
    levels: usize,
) -> Result<(), Refusal>
    requires { levels ≤ type_levels }
    ensures walked { WalkedType
        (members_progress members.entry.chunk.bytes.now members.entry.chunk.sm5 levels (turned (take (type_levels - levels) filling.old.path))
        members.entry.count members.entry.at)
        levels filling.old.capacity filling.old.counts filling.old.types.now filling.new.types.now filling.old.path filling.new.path
        (counted result filling.new.counts) }
    ensures kept { OnlyTypes filling.old filling.new }
{
    for _ in 0..members.count {
        let record = members.next(MEMBER_STRIDE as usize)?;
        let member = Member {
            name: record.name()?,
            offset: record.word(8),
        };
        walk_type(filling, members.chunk, record.word(4), levels, member)?;
    }
    Ok(())
}

// Walks the type at `at`, which no member leads to.
#[tactic(auto, unfolding(crate::specs::Walk::turned_onto))]
pub fn walk_root(filling: &mut TypeFilling<'_>, chunk: Chunk<'_>, at: u32) -> Result<(), Refusal>
    ensures walked { Walked (type_progress chunk.entry.bytes.now chunk.entry.sm5 type_levels [] at (in_chunk 0 0) 0)
        filling.old.capacity (up_to_types filling.old.capacity filling.old.counts) filling.old.counts
        (nodes_in filling.old.types.now) (nodes_in filling.new.types.now) (counted result filling.new.counts) }
    ensures kept { OnlyTypes filling.old filling.new }
{
    let root = Member {
        name: in_chunk(0, 0),
        offset: 0,
    };
    walk_type(filling, chunk, at, TYPE_LEVELS, root)
}
