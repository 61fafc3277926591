// The names of bindings and buffers: they share one pool of their own.
ghost use Rattle.std.specs.Prelude.{◌≡◌, ◌≤◌};
ghost use Rattle.write_texts.specs.Writer.{SameTypes};
ghost use Rattle.write_tables.specs.Placed.{name_at, NamesReady, NamesPlaced};

use reflection::Text;
use write_texts::{Source, Writer};

// A table each of whose records, of so many words, begins with a name, and where the names' offsets are stored: every `step` words of the scratch from
// `start` on.
#[derive(Clone, Copy)]
pub struct NamedTable<'a> {
    pub table: &'a [u32],
    pub width: usize,
    pub start: usize,
    pub step: usize,
    pub ghost wide: { 3 ≤ width },
}

impl NamedTable<'_> {
    // The name that record i begins with; an empty one where the record does not lie whole in the table: the name of the
    // record of zeros which stands for one outside the table (docs/DECISIONS.md).
    #[tactic(auto, using(tables::proofs::Records::record_inside))]
    fn name(self, i: usize) -> Text
        ensures { result ≡ name_at self.entry.width self.entry.table.now i }
    {
        if i < self.table.len() / self.width {
            let first = i * self.width;
            return Text::from([
                self.table[first],
                self.table[first + 1],
                self.table[first + 2],
            ]);
        }
        reflection::in_chunk(0, 0)
    }

    // Places the names of the first `count` records, and stores their offsets.
    pub fn place(self, source: Source<'_>, w: &mut Writer<'_, '_>, count: usize)
        requires { NamesReady source.texts.chunk.now source.texts.edits.now count self.start self.step w.old.out.now.at w.old.scratch.now }
        ensures placed { NamesPlaced source.entry.texts.chunk.now source.entry.texts.edits.now (name_at self.entry.width self.entry.table.now)
            count self.entry.start self.entry.step w.old.out.now.at w.old.scratch.now w.new.scratch.now
            w.old.out.now.bytes.now w.new.out.now.bytes.now w.new.out.now.at }
        ensures same { SameTypes w.old w.new }
    {
        for i in 0..count {
            let offset = w.place_outer_name(source, self.name(i));
            w.scratch[self.start + i * self.step] = offset;
        }
    }
}
