// A reflection's tables, lent to be read or to be filled.
ghost use Rattle.std.specs.Prelude.{◌≡◌};
ghost use Rattle.tables.specs.Lent.{SameTables, TablesZeroed, TablesCut, ReflectionIn};

use reflection::{BINDING_WORDS, BUFFER_WORDS, ResourceDef, TYPE_WORDS, VARIABLE_WORDS};

// A reflection: its own numbers, and the tables that hold its records.
#[derive(Clone, Copy)]
pub struct Reflection<'a> {
    pub def: ResourceDef,
    pub bindings: &'a [u32],
    pub buffers: &'a [u32],
    pub variables: &'a [u32],
    pub types: &'a [u32],
}

// The four tables, to be filled.
#[derive(Drop)]
pub struct Tables<'a> {
    pub bindings: &'a mut [u32],
    pub buffers: &'a mut [u32],
    pub variables: &'a mut [u32],
    pub types: &'a mut [u32],
}

impl Tables<'_> {
    // Zeros in all four.
    pub fn clear(&mut self)
        ensures zeros { TablesZeroed self.old self.new }
        ensures same { SameTables self.old self.new }
    {
        self.bindings.fill(0);
        self.buffers.fill(0);
        self.variables.fill(0);
        self.types.fill(0);
    }

    // Zeros in each after the records that `def` counts.
    pub fn clear_after(&mut self, def: ResourceDef)
        ensures zeros { TablesCut def self.old self.new }
        ensures same { SameTables self.old self.new }
    {
        words::clear_from(self.bindings, def.binding_count as usize * BINDING_WORDS);
        words::clear_from(self.buffers, def.buffer_count as usize * BUFFER_WORDS);
        words::clear_from(self.variables, def.variable_count as usize * VARIABLE_WORDS);
        words::clear_from(self.types, def.type_count as usize * TYPE_WORDS);
    }

    // The reflection that `def` and the tables hold.
    pub fn reflection(&self, def: ResourceDef) -> Reflection<'_>
        ensures { ReflectionIn def self.now result }
    {
        Reflection {
            def,
            bindings: self.bindings,
            buffers: self.buffers,
            variables: self.variables,
            types: self.types,
        }
    }
}
