// Four tables of their own, each with document 01's whole room.
#![tactic(auto)]

ghost use Rattle.std.specs.Prelude.{◌≡◌, replicate};
ghost use Rattle.std.specs.Borrow.{sem};
ghost use Rattle.reflection.specs.Limits.{binding_table, buffer_table, variable_table, type_table};
ghost use Rattle.read.specs.Parsed.{read_into, ParsedInto};
ghost use Rattle.whole_tables.specs.Read.{ReadAs, LeavesRead, WholeRoom};

use reflection::{BINDING_TABLE, BUFFER_TABLE, Refusal, ResourceDef, TYPE_TABLE, VARIABLE_TABLE};
use tables::{Reflection, Tables};

#[derive(Drop)]
pub struct WholeTables {
    pub bindings: [u32; BINDING_TABLE],
    pub buffers: [u32; BUFFER_TABLE],
    pub variables: [u32; VARIABLE_TABLE],
    pub types: [u32; TYPE_TABLE],
}

impl WholeTables {
    // Zeros in all four.
    pub fn new() -> WholeTables
        ensures bindings { result.bindings ≡ replicate binding_table 0 }
        ensures buffers { result.buffers ≡ replicate buffer_table 0 }
        ensures variables { result.variables ≡ replicate variable_table 0 }
        ensures types { result.types ≡ replicate type_table 0 }
    {
        WholeTables {
            bindings: [0; BINDING_TABLE],
            buffers: [0; BUFFER_TABLE],
            variables: [0; VARIABLE_TABLE],
            types: [0; TYPE_TABLE],
        }
    }

    // Zeros in all four, where they stand: no new tables are made.
    pub fn clear(&mut self)
        ensures bindings { self.new.bindings ≡ replicate binding_table 0 }
        ensures buffers { self.new.buffers ≡ replicate buffer_table 0 }
        ensures variables { self.new.variables ≡ replicate variable_table 0 }
        ensures types { self.new.types ≡ replicate type_table 0 }
    {
        self.bindings.fill(0);
        self.buffers.fill(0);
        self.variables.fill(0);
        self.types.fill(0);
    }

    // `read::parse_rdef` into them, whose lengths are the whole room.
    pub fn read(&mut self, chunk: &[u8]) -> Result<ResourceDef, Refusal>
        ensures parsed { ParsedInto
            (read_into chunk.now self.old.bindings self.old.buffers self.old.variables self.old.types)
            self.old.bindings self.old.buffers self.old.variables self.old.types
            self.new.bindings self.new.buffers self.new.variables self.new.types result }
        ensures room { WholeRoom self.old }
    {
        let mut tables = Tables {
            bindings: &mut self.bindings,
            buffers: &mut self.buffers,
            variables: &mut self.variables,
            types: &mut self.types,
        };
        read::parse_rdef(chunk, &mut tables)
    }

    // The same, answered with the tables that the header is of. Once the answer is let go they hold what `read` leaves: of a refusal zeros.
    #[tactic(auto, unfolding(crate::specs::Read::ReadAs))]
    pub fn read_reflection(&mut self, chunk: &[u8]) -> Result<Reflection<'_>, Refusal>
        ensures* left { sem 𝓛 (LeavesRead chunk.now self.entry) }
        ensures answer { ReadAs chunk.now self.old result }
    {
        let def = self.read(chunk)?;
        Ok(self.reflection(def))
    }

    // The reflection that `def` and the tables hold.
    pub fn reflection(&self, def: ResourceDef) -> Reflection<'_>
        ensures def { result.def ≡ def }
        ensures bindings { result.bindings.now ≡ self.now.bindings }
        ensures buffers { result.buffers.now ≡ self.now.buffers }
        ensures variables { result.variables.now ≡ self.now.variables }
        ensures types { result.types.now ≡ self.now.types }
    {
        Reflection {
            def,
            bindings: &self.bindings,
            buffers: &self.buffers,
            variables: &self.variables,
            types: &self.types,
        }
    }
}
