// Places the type of a variable: types of variables are shared apart from those of members.
ghost use Rattle.std.specs.Prelude.{◌<◌};
ghost use Rattle.tables.specs.Nodes.{type_levels};
ghost use Rattle.reflection.specs.Limits.{variable_room};
ghost use Rattle.write_texts.specs.Scratch.{records_start};
ghost use Rattle.write_texts.specs.Writer.{cursor_of, SameLent};
ghost use Rattle.write_types.specs.Placed.{placed_type};
ghost use Rattle.write_types.specs.Room.{TypeReady};
ghost use Rattle.write_types.specs.TypePlaced.{RootTypePlaced};

use crate::find::known_offset;
use crate::write::{Level, write_type};
use compare_types::TypeNode;
use reflection::TYPE_LEVELS;
use write_texts::{RECORDS_START, ROOT_TYPES_START, SHARED_WORDS, Source, Writer};

// Places the type at the writer's node as a variable's; the answer is its offset. It is looked up among the writer's types of variables, and is the next of
// them where it was not found and may be shared.
pub fn place_root_type(source: Source<'_>, w: &mut Writer<'_, '_>, share: bool) -> u32
    requires type_ready { TypeReady source.texts.chunk.now source.texts.edits.now source.types.now type_levels 0 records_start (cursor_of w.old)
        w.old.scratch.now }
    requires root_types_bound { w.old.root_types < variable_room }
    ensures placed { RootTypePlaced source.entry.texts.chunk.now source.entry.texts.edits.now source.entry.types.now source.entry.sm5 share type_levels
        (cursor_of w.old) w.old.scratch.now w.new.scratch.now w.old.out.now.bytes.now w.new.out.now.bytes.now (placed_type result w.new) }
    ensures same { SameLent w.old w.new }
{
    let at = w.out.at;
    let node = w.node;
    let count = w.root_types;
    // Lent whole first, so that it is known to stay as it is.
    let scratch = &mut *w.scratch;
    let scratch = &*scratch;
    let x = TypeNode {
        types: source.types,
        node,
    };
    let end = ROOT_TYPES_START + count * SHARED_WORDS;
    let entries = &scratch[ROOT_TYPES_START..end];
    if let Some(offset) = known_offset(source.texts, x, TYPE_LEVELS, entries, share, at) {
        w.node = compare_types::skip_type(x, TYPE_LEVELS);
        return offset;
    }
    let level = Level {
        levels: TYPE_LEVELS,
        base: 0,
        records_top: RECORDS_START,
    };
    let offset = write_type(source, w, level);
    if share {
        let entry = [node as u32, offset];
        words::overwrite(w.scratch, end, &entry);
        w.root_types = count + 1;
    }
    offset
}
