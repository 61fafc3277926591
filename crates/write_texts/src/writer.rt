// What a chunk is written to.
ghost use Rattle.std.specs.Prelude.{◌≡◌, ◌≤◌, ◌<◌};
ghost use Rattle.write_spec.specs.Layout.{place_outer_name, place_inner_name, place_default};
ghost use Rattle.write_pool.specs.Pool.{entry_count};
ghost use Rattle.write_texts.specs.Simulates.{text_facts};
ghost use Rattle.write_texts.specs.PlacedInPool.{farthest_offset, HasRoom, place_text, PlacedInPool};
ghost use Rattle.write_texts.specs.Scratch.{inner_start, defaults_start, root_types_start, outer_pool, inner_pool, default_pool, PoolsReady};
ghost use Rattle.write_texts.specs.PlacedInScratch.{outer_room, inner_room, default_room, start_of, end_of, room_of, words_of, TextPlaced};
ghost use Rattle.write_texts.specs.Writer.{placed_at, SameTypes};

use crate::Source;
use crate::text_pool::TextPool;
use reflection::{CHUNK_LIMIT, Text};
use text_output::Output;
use write_pool::Wanted;

// The scratch, the output with its cursor, the next type node, and how many types of members and of variables may be shared.
#[derive(Drop)]
pub struct Writer<'a, 'b> {
    pub scratch: &'a mut [u32],
    pub out: &'a mut Output<'b>,
    pub node: usize,
    pub member_types: usize,
    pub root_types: usize,
}

impl Writer<'_, '_> {
    // Places a name of a binding or a buffer; the answer is its offset.
    #[tactic(auto, unfolding(crate::specs::Scratch::outer_pool, write_spec::specs::Layout::place_outer_name))]
    pub fn place_outer_name(&mut self, source: Source<'_>, name: Text) -> u32
        requires pools_ready { PoolsReady source.texts.chunk.now source.texts.edits.now self.old.scratch.now }
        requires scratch_bound { entry_count (outer_pool self.old.scratch.now) < outer_room }
        requires at_le_farthest_offset { self.old.out.now.at ≤ farthest_offset }
        ensures placed { TextPlaced source.entry.texts.chunk.now source.entry.texts.edits.now
            (place_outer_name (text_facts source.entry.texts.chunk.now source.entry.texts.edits.now) name)
            self.old.out.now.at outer_pool 0 inner_start self.old.scratch.now self.new.scratch.now
            self.old.out.now.bytes.now self.new.out.now.bytes.now (placed_at result self.new) }
        ensures same { SameTypes self.old self.new }
    {
        self.place_text(source, TextPool::OuterNames, name)
    }

    // Places any other name; the answer is its offset.
    #[tactic(auto, unfolding(crate::specs::Scratch::inner_pool, write_spec::specs::Layout::place_inner_name))]
    pub fn place_inner_name(&mut self, source: Source<'_>, name: Text) -> u32
        requires pools_ready { PoolsReady source.texts.chunk.now source.texts.edits.now self.old.scratch.now }
        requires scratch_bound { entry_count (inner_pool self.old.scratch.now) < inner_room }
        requires at_le_farthest_offset { self.old.out.now.at ≤ farthest_offset }
        ensures placed { TextPlaced source.entry.texts.chunk.now source.entry.texts.edits.now
            (place_inner_name (text_facts source.entry.texts.chunk.now source.entry.texts.edits.now) name)
            self.old.out.now.at inner_pool inner_start defaults_start self.old.scratch.now self.new.scratch.now
            self.old.out.now.bytes.now self.new.out.now.bytes.now (placed_at result self.new) }
        ensures same { SameTypes self.old self.new }
    {
        self.place_text(source, TextPool::InnerNames, name)
    }

    // Places a default; the answer is its offset, 0 for an empty one.
    pub fn place_default(&mut self, source: Source<'_>, default: Text) -> u32
        requires pools_ready { PoolsReady source.texts.chunk.now source.texts.edits.now self.old.scratch.now }
        requires scratch_bound { entry_count (default_pool self.old.scratch.now) < default_room }
        requires at_le_farthest_offset { self.old.out.now.at ≤ farthest_offset }
        ensures placed { TextPlaced source.entry.texts.chunk.now source.entry.texts.edits.now
            (place_default (text_facts source.entry.texts.chunk.now source.entry.texts.edits.now) default)
            self.old.out.now.at default_pool defaults_start root_types_start self.old.scratch.now self.new.scratch.now
            self.old.out.now.bytes.now self.new.out.now.bytes.now (placed_at result self.new) }
        ensures same { SameTypes self.old self.new }
    {
        let bytes = source.texts.name_part(default);
        if bytes.is_empty() {
            return 0;
        }
        self.place_text(source, TextPool::Defaults, default)
    }

    // Places a text through its pool. Past a chunk's limit the chunk is refused, so nothing is looked up any more, and the offset is 0.
    fn place_text(&mut self, source: Source<'_>, pool: TextPool, text: Text) -> u32
        requires pools_ready { PoolsReady source.texts.chunk.now source.texts.edits.now self.old.scratch.now }
        requires scratch_bound { entry_count (words_of pool self.old.scratch.now) < room_of pool }
        requires at_le_farthest_offset { self.old.out.now.at ≤ farthest_offset }
        ensures placed { TextPlaced source.entry.texts.chunk.now source.entry.texts.edits.now
            (place_text (text_facts source.entry.texts.chunk.now source.entry.texts.edits.now) pool text)
            self.old.out.now.at (words_of pool) (start_of pool) (end_of pool) self.old.scratch.now self.new.scratch.now
            self.old.out.now.bytes.now self.new.out.now.bytes.now (placed_at result self.new) }
        ensures same { SameTypes self.old self.new }
    {
        if self.out.at > CHUNK_LIMIT {
            return 0;
        }
        let words = &mut self.scratch[pool.region()];
        place_in_pool(source, pool, text, words, self.out)
    }
}

// Places a text: where its pool has it already, or at the cursor, and then the pool has it. The answer is its offset.
fn place_in_pool(
    source: Source<'_>,
    pool: TextPool,
    text: Text,
    words: &mut [u32],
    out: &mut Output<'_>,
) -> u32
    requires has_room { HasRoom source.texts.chunk.now source.texts.edits.now words.old }
    requires at_le_farthest_offset { out.old.at ≤ farthest_offset }
    ensures placed { PlacedInPool source.entry.texts.chunk.now source.entry.texts.edits.now pool
        (place_text (text_facts source.entry.texts.chunk.now source.entry.texts.edits.now) pool text)
        out.old.at words.old words.new out.old.bytes.now out.new.bytes.now (record { offset = result; at = out.new.at }) }
    ensures same { out.new.bytes.ghost_name ≡ out.old.bytes.ghost_name }
{
    let texts = source.texts;
    let wanted = Wanted::new(texts.name_part(text));
    if let Some(offset) = write_pool::find_text(texts, words, wanted) {
        return offset;
    }
    let offset = pool.put_text(out, wanted.bytes);
    write_pool::remember(words, text, wanted, offset);
    offset
}
