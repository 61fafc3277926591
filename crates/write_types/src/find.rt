// Finds an equal type among those that were written.
ghost use Rattle.std.specs.Prelude.{◌≡◌, ◌/◌, length};
ghost use Rattle.write_texts.specs.Scratch.{shared_width};
ghost use Rattle.write_types.specs.TypePlaced.{type_offset, shared_offset, known_offset};

use compare_types::TypeNode;
use reflection::{CHUNK_LIMIT, Texts};
use write_texts::SHARED_WORDS;

// The offset of a type equal to that at node x: the newest one's of some entries.
fn find_type(texts: Texts<'_>, x: TypeNode<'_>, levels: usize, entries: &[u32]) -> Option<u32>
    ensures { result
        ≡ type_offset texts.entry.chunk.now texts.entry.edits.now x.entry.types.now levels x.entry.node entries.now 0 0 (length entries.now / shared_width) }
{
    let (pairs, _) = entries.as_chunks::<SHARED_WORDS>();
    for i in (0..pairs.len()).rev() {
        let [node, offset] = pairs[i];
        let other = TypeNode {
            types: x.types,
            node: node as usize,
        };
        if compare_types::same_type(texts, x, other, levels) {
            return Some(offset);
        }
    }
    None
}

// The same where the type may be shared: an array's never is.
fn find_shared(
    texts: Texts<'_>,
    x: TypeNode<'_>,
    levels: usize,
    entries: &[u32],
    share: bool,
) -> Option<u32>
    ensures { result
        ≡ shared_offset share texts.entry.chunk.now texts.entry.edits.now x.entry.types.now levels x.entry.node
        entries.now 0 0 (length entries.now / shared_width) }
{
    if share && tables::type_at(x.types, x.node).elements == 0 {
        return find_type(texts, x, levels, entries);
    }
    None
}

// The offset of the type at node x where it is not to be written: that of an equal type, or 0 where the output's cursor is past a chunk's limit.
#[tactic(auto, unfolding(crate::specs::TypePlaced::known_offset))]
pub fn known_offset(
    texts: Texts<'_>,
    x: TypeNode<'_>,
    levels: usize,
    entries: &[u32],
    share: bool,
    at: usize,
) -> Option<u32>
    ensures { result
        ≡ known_offset share texts.entry.chunk.now texts.entry.edits.now x.entry.types.now levels x.entry.node
        entries.now 0 0 (length entries.now / shared_width) at }
{
    if at > CHUNK_LIMIT {
        return Some(0);
    }
    find_shared(texts, x, levels, entries, share)
}
