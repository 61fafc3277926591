// Writes a type with its members: each member's type is found among those before it or written one level deeper.
ghost use Rattle.std.specs.Prelude.{◌≡◌, ◌≤◌, ◌<◌};
ghost use Rattle.write_pool.specs.Pool.{entry_count};
ghost use Rattle.write_texts.specs.PlacedInPool.{farthest_offset};
ghost use Rattle.write_texts.specs.Scratch.{inner_start, defaults_start, inner_pool, PoolsReady};
ghost use Rattle.write_texts.specs.PlacedInScratch.{inner_room, TextPlaced};
ghost use Rattle.write_texts.specs.Writer.{cursor_of, placed_at, SameLent, SameTypes};
ghost use Rattle.write_types.specs.Writing.{count_within, place_type_name};
ghost use Rattle.write_types.specs.Placed.{placed_type, placed_members};
ghost use Rattle.write_types.specs.Room.{TypeReady, MembersReady};
ghost use Rattle.write_types.specs.TypePlaced.{TypeWritten, MemberTypePlaced, MembersPlaced};

use crate::find::known_offset;
use crate::put::put_type;
use compare_types::TypeNode;
use reflection::Text;
use write_texts::{MEMBER_TYPES_START, MEMBER_WORDS, SHARED_WORDS, Source, Writer};

// How many levels of members a type may have, and where in the scratch what belongs to its members begins: the writer's types of members are those from entry
// `base` on, and the records' words begin at `records_top`.
#[derive(Clone, Copy)]
pub struct Level {
    pub levels: usize,
    pub base: usize,
    pub records_top: usize,
}

// Places a type's name; the answer is its offset, 0 for an empty one.
fn place_type_name(source: Source<'_>, w: &mut Writer<'_, '_>, name: Text) -> u32
    requires pools_ready { PoolsReady source.texts.chunk.now source.texts.edits.now w.old.scratch.now }
    requires scratch_bound { entry_count (inner_pool w.old.scratch.now) < inner_room }
    requires at_le_farthest_offset { w.old.out.now.at ≤ farthest_offset }
    ensures placed { TextPlaced source.entry.texts.chunk.now source.entry.texts.edits.now
        (place_type_name source.entry.texts.chunk.now source.entry.texts.edits.now name)
        w.old.out.now.at inner_pool inner_start defaults_start w.old.scratch.now w.new.scratch.now w.old.out.now.bytes.now w.new.out.now.bytes.now
        (placed_at result w.new) }
    ensures same { SameTypes w.old w.new }
{
    let bytes = source.texts.name_part(name);
    if bytes.is_empty() {
        return 0;
    }
    w.place_inner_name(source, name)
}

// How many members a type with so many levels has, where its node counts `count`.
fn count_within(levels: usize, count: u32) -> u32
    ensures { result ≡ count_within levels count }
{
    if levels == 0 { 0 } else { count }
}

// Writes the type at the writer's node; the answer is its offset.
#[cycle(place_member_type_place_members_write_type)]
pub fn write_type(source: Source<'_>, w: &mut Writer<'_, '_>, level: Level) -> u32
    requires { TypeReady source.texts.chunk.now source.texts.edits.now source.types.now level.levels level.base level.records_top
        (cursor_of w.old) w.old.scratch.now }
    ensures placed { TypeWritten source.entry.texts.chunk.now source.entry.texts.edits.now source.entry.types.now source.entry.sm5
        level.levels level.base level.records_top (cursor_of w.old)
        w.old.scratch.now w.new.scratch.now w.old.out.now.bytes.now w.new.out.now.bytes.now (placed_type result w.new) }
    ensures same { SameLent w.old w.new }
{
    let desc = tables::type_at(source.types, w.node);
    let name = place_type_name(source, w, desc.name);
    w.node += 1;
    let count = count_within(level.levels, desc.member_count);
    let top = place_members(source, w, count, level);
    // Lent whole first, so that it is known to stay as it is.
    let scratch = &mut *w.scratch;
    let scratch = &*scratch;
    let records = &scratch[level.records_top..top];
    put_type(w.out, records, desc, name, source.sm5)
}

// Places `count` members, the first at the writer's node, of a type with so many levels; their records' words go onto the stack at `records_top`, and the
// answer is where they end. A loop, so that the stack of calls holds at most three frames for each level.
#[cycle(place_member_type_place_members_write_type)]
fn place_members(source: Source<'_>, w: &mut Writer<'_, '_>, count: u32, level: Level) -> usize
    requires { MembersReady source.texts.chunk.now source.texts.edits.now source.types.now level.levels count level.base level.records_top
        (cursor_of w.old) w.old.scratch.now }
    ensures placed { MembersPlaced source.entry.texts.chunk.now source.entry.texts.edits.now source.entry.types.now source.entry.sm5
        level.levels count level.base level.records_top (cursor_of w.old)
        w.old.scratch.now w.new.scratch.now w.old.out.now.bytes.now w.new.out.now.bytes.now (placed_members result w.new) }
    ensures same { SameLent w.old w.new }
{
    let mut top = level.records_top;
    let mut left = count;
    while compare_types::has_member(source.types, left, w.node) {
        let desc = tables::type_at(source.types, w.node);
        let name = w.place_inner_name(source, desc.member_name);
        let member = Level {
            levels: level.levels - 1,
            base: level.base,
            records_top: top,
        };
        let offset = place_member_type(source, w, member);
        let row = [name, offset, desc.member_offset];
        words::overwrite(w.scratch, top, &row);
        top += MEMBER_WORDS;
        left -= 1;
    }
    top
}

// Places the type at the writer's node as a member's; the answer is its offset. It is looked up among the writer's types of members from entry `base` on, and
// is the next entry where it was not found. The types of its own members begin there, and are dropped.
#[cycle(place_member_type_place_members_write_type)]
fn place_member_type(source: Source<'_>, w: &mut Writer<'_, '_>, level: Level) -> u32
    requires { TypeReady source.texts.chunk.now source.texts.edits.now source.types.now level.levels level.base level.records_top
        (cursor_of w.old) w.old.scratch.now }
    ensures placed { MemberTypePlaced source.entry.texts.chunk.now source.entry.texts.edits.now source.entry.types.now source.entry.sm5
        level.levels level.base level.records_top (cursor_of w.old)
        w.old.scratch.now w.new.scratch.now w.old.out.now.bytes.now w.new.out.now.bytes.now (placed_type result w.new) }
    ensures same { SameLent w.old w.new }
{
    let at = w.out.at;
    let node = w.node;
    let count = w.member_types;
    // Lent whole first, so that it is known to stay as it is.
    let scratch = &mut *w.scratch;
    let scratch = &*scratch;
    let x = TypeNode {
        types: source.types,
        node,
    };
    let base = level.base + count;
    let start = MEMBER_TYPES_START + level.base * SHARED_WORDS;
    let end = MEMBER_TYPES_START + base * SHARED_WORDS;
    let entries = &scratch[start..end];
    if let Some(offset) = known_offset(source.texts, x, level.levels, entries, true, at) {
        w.node = compare_types::skip_type(x, level.levels);
        return offset;
    }
    w.member_types = 0;
    let offset = write_type(source, w, Level { base, ..level });
    let entry = [node as u32, offset];
    words::overwrite(w.scratch, end, &entry);
    w.member_types = count + 1;
    offset
}
