// What a chunk is written from.
ghost use Rattle.write_texts.specs.PlacedInPool.{SourcesFit};

use reflection::Texts;

// The texts, the types' table, and whether the reflection is of major 5.
#[derive(Clone, Copy)]
pub struct Source<'a> {
    pub texts: Texts<'a>,
    pub types: &'a [u32],
    pub sm5: bool,
    pub ghost short: { SourcesFit texts.chunk.now texts.edits.now },
}
