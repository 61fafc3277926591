// Writes the end of a type: its members' records and its descriptor.
ghost use Rattle.std.specs.Prelude.{◌≡◌, ◌*◌, ◌≤◌, length};
ghost use Rattle.words.specs.Words.{word_bytes};
ghost use Rattle.text_output.specs.Output.{Appended};
ghost use Rattle.tables.specs.Decode.{node_from_table};
ghost use Rattle.reflection.specs.Limits.{type_room};
ghost use Rattle.write_spec.specs.Records.{halves, type_words_in_chunk};
ghost use Rattle.write_texts.specs.Bytes.{joined_bytes};
ghost use Rattle.write_texts.specs.PlacedInPool.{farthest_offset};
ghost use Rattle.write_texts.specs.Scratch.{member_width};
ghost use Rattle.write_types.specs.Placed.{put_at};
ghost use Rattle.write_types.specs.TypePlaced.{RecordsPut, TypePut};

use reflection::TypeDesc;
use text_output::Output;
use write_texts::MEMBER_WORDS;

// Two numbers in a word, the first in the lower half. Where one is larger than a half, the sum is cut to a word, as its four bytes are.
fn two_halves(low: u32, high: u32) -> u32
    ensures { word_bytes result ≡ word_bytes (halves low high) }
{
    low.wrapping_add(high.wrapping_mul(65536))
}

// Writes the members' records, after padding; the answer is their offset. Nothing, and offset 0, where there are none.
fn put_records(out: &mut Output<'_>, records: &[u32]) -> u32
    requires { (out.old.at ≤ farthest_offset) × (length records.now ≤ type_room * member_width) }
    ensures put { RecordsPut records.now out.old.at out.old.bytes.now out.new.bytes.now (put_at result out.new) }
    ensures same { out.new.bytes.ghost_name ≡ out.old.bytes.ghost_name }
{
    if records.is_empty() {
        return 0;
    }
    write_texts::put_padding(out);
    let start = out.at;
    write_texts::put_word_bytes(out, records);
    start as u32
}

// Writes a type descriptor.
fn put_descriptor(
    out: &mut Output<'_>,
    node: TypeDesc,
    count: u32,
    members: u32,
    name: u32,
    sm5: bool,
)
    requires { out.old.at ≤ 4294967296 }
    ensures { Appended out.old out.new (joined_bytes (type_words_in_chunk sm5 (node_from_table node).numbers count members name)) }
{
    let kind = two_halves(node.class, node.var_type);
    let shape = two_halves(node.rows, node.columns);
    let counts = two_halves(node.elements, count);
    write_texts::put_word_bytes(out, &[kind, shape, counts, members]);
    if sm5 {
        let sm5_words = [node.extra0, node.extra1, node.extra2, node.extra3, name];
        write_texts::put_word_bytes(out, &sm5_words);
    }
}

// Writes the records of a type's members and its descriptor; the answer is the descriptor's offset.
pub fn put_type(out: &mut Output<'_>, records: &[u32], node: TypeDesc, name: u32, sm5: bool) -> u32
    requires { (out.old.at ≤ farthest_offset) × (length records.now ≤ type_room * member_width) }
    ensures put { TypePut sm5 (node_from_table node).numbers name records.now out.old.at out.old.bytes.now out.new.bytes.now
        (put_at result out.new) }
    ensures same { out.new.bytes.ghost_name ≡ out.old.bytes.ghost_name }
{
    let count = records.len() / MEMBER_WORDS;
    let members = put_records(out, records);
    write_texts::put_padding(out);
    let start = out.at;
    put_descriptor(out, node, count as u32, members, name, sm5);
    start as u32
}
