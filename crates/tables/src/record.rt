// What a record of a table is as words, and how it is written and read.
ghost use Rattle.std.proofs.Common.{rules};
ghost use Rattle.std.specs.Prelude.{◌≡◌, ℕ, List, ◌<◌, ◌≤◌, get_or};
ghost use Rattle.tables.specs.Records.{put_record, record_word, within, type_width};
ghost use Rattle.tables.specs.Records.{binding_words_in_table, buffer_words_in_table, variable_words_in_table, type_words_in_table};
ghost use Rattle.tables.specs.Records.{binding_of, buffer_of, variable_of, type_of};

use flags::{BindingFlags, VariableFlags};
use reflection::{
    BINDING_WORDS, BUFFER_WORDS, CBufferDef, CBufferVariable, ResourceBinding, TYPE_WORDS, Text,
    TypeDesc, VARIABLE_WORDS,
};

// A record of N words.
pub(crate) trait Record<const N: usize>: Copy {
    ghost words: { Self → List ℕ };

    ghost of_words: { (ℕ → ℕ) → Self };

    fn to_words(self) -> [u32; N]
        ensures { result ≡ words self };

    fn from_words(row: &[u32; N]) -> Self
        ensures { result ≡ of_words (λ k. get_or row.now k 0) };

    // It has words, and no more than a type node.
    ghost width: { (0 < N) × (N ≤ type_width) };
}

impl Record<BINDING_WORDS> for ResourceBinding {
    ghost words = { binding_words_in_table };

    ghost of_words = { binding_of };

    ghost width = { Prim.search rules };

    #[tactic(auto, unfolding(crate::specs::Records::binding_words_in_table))]
    fn to_words(self) -> [u32; BINDING_WORDS] {
        [
            self.name.source,
            self.name.place,
            self.name.length,
            self.input_type,
            self.return_type,
            self.dimension,
            self.num_samples,
            self.bind_point,
            self.bind_count,
            self.flags.0,
            self.space,
            self.id,
        ]
    }

    fn from_words(row: &[u32; BINDING_WORDS]) -> ResourceBinding {
        ResourceBinding {
            name: Text::from([row[0], row[1], row[2]]),
            input_type: row[3],
            return_type: row[4],
            dimension: row[5],
            num_samples: row[6],
            bind_point: row[7],
            bind_count: row[8],
            flags: BindingFlags(row[9]),
            space: row[10],
            id: row[11],
        }
    }
}

impl Record<BUFFER_WORDS> for CBufferDef {
    ghost words = { buffer_words_in_table };

    ghost of_words = { buffer_of };

    ghost width = { Prim.search rules };

    #[tactic(auto, unfolding(crate::specs::Records::buffer_words_in_table))]
    fn to_words(self) -> [u32; BUFFER_WORDS] {
        [
            self.name.source,
            self.name.place,
            self.name.length,
            self.variable_count,
            self.size,
            self.flags,
            self.cb_type,
        ]
    }

    fn from_words(row: &[u32; BUFFER_WORDS]) -> CBufferDef {
        CBufferDef {
            name: Text::from([row[0], row[1], row[2]]),
            variable_count: row[3],
            size: row[4],
            flags: row[5],
            cb_type: row[6],
        }
    }
}

impl Record<VARIABLE_WORDS> for CBufferVariable {
    ghost words = { variable_words_in_table };

    ghost of_words = { variable_of };

    ghost width = { Prim.search rules };

    #[tactic(auto, unfolding(crate::specs::Records::variable_words_in_table))]
    fn to_words(self) -> [u32; VARIABLE_WORDS] {
        [
            self.name.source,
            self.name.place,
            self.name.length,
            self.offset,
            self.size,
            self.flags.0,
            self.default_value.source,
            self.default_value.place,
            self.default_value.length,
            self.texture_start,
            self.texture_size,
            self.sampler_start,
            self.sampler_size,
        ]
    }

    fn from_words(row: &[u32; VARIABLE_WORDS]) -> CBufferVariable {
        CBufferVariable {
            name: Text::from([row[0], row[1], row[2]]),
            offset: row[3],
            size: row[4],
            flags: VariableFlags(row[5]),
            default_value: Text::from([row[6], row[7], row[8]]),
            texture_start: row[9],
            texture_size: row[10],
            sampler_start: row[11],
            sampler_size: row[12],
        }
    }
}

impl Record<TYPE_WORDS> for TypeDesc {
    ghost words = { type_words_in_table };

    ghost of_words = { type_of };

    ghost width = { Prim.search rules };

    #[tactic(auto, unfolding(crate::specs::Records::type_words_in_table))]
    fn to_words(self) -> [u32; TYPE_WORDS] {
        [
            self.class,
            self.var_type,
            self.rows,
            self.columns,
            self.elements,
            self.member_count,
            self.extra0,
            self.extra1,
            self.extra2,
            self.extra3,
            self.name.source,
            self.name.place,
            self.name.length,
            self.member_name.source,
            self.member_name.place,
            self.member_name.length,
            self.member_offset,
        ]
    }

    fn from_words(row: &[u32; TYPE_WORDS]) -> TypeDesc {
        TypeDesc {
            class: row[0],
            var_type: row[1],
            rows: row[2],
            columns: row[3],
            elements: row[4],
            member_count: row[5],
            extra0: row[6],
            extra1: row[7],
            extra2: row[8],
            extra3: row[9],
            name: Text::from([row[10], row[11], row[12]]),
            member_name: Text::from([row[13], row[14], row[15]]),
            member_offset: row[16],
        }
    }
}

// Writes record i of the table; where it does not lie whole in the table, nothing is written.
#[tactic(auto, using(crate::proofs::Records::record_inside, crate::proofs::Records::put_inside, crate::proofs::Records::put_outside, crate::proofs::Records::put_copied))]
pub(crate) fn put<R: Record<N>, const N: usize>(table: &mut [u32], i: usize, r: R)
    ensures { table.new ≡ put_record N table.old i (R.words r) }
{
    if i < table.len() / N {
        table[i * N..i * N + N].copy_from_slice(&r.to_words());
    }
}

// Record i of the table.
// Of zeros and no Option where it does not lie whole in the table: a table is read for any number of a record (docs/DECISIONS.md).
#[tactic(auto, using(crate::proofs::Records::same_row, crate::proofs::Records::row_inside, crate::proofs::Records::row_outside))]
pub(crate) fn at<R: Record<N>, const N: usize>(table: &[u32], i: usize) -> R
    ensures { result ≡ R.of_words (within N (record_word N table.now i)) }
{
    let (rows, _) = table.as_chunks::<N>();
    R::from_words(rows.get(i).unwrap_or(&[0; N]))
}
