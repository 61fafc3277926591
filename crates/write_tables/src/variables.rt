// Variables: the name, type and default of each.
ghost use Rattle.write_texts.specs.Writer.{cursor_of, SameLent};
ghost use Rattle.write_tables.specs.VariablesPlaced.{VariablesReady, VariablePlaced, VariablesPlaced};

use write_texts::{Source, VARIABLE_OFFSETS, VARIABLES_START, Writer};

// Places a variable, whose type is at the writer's node, and stores its three offsets.
fn place_variable(
    source: Source<'_>,
    variables: &[u32],
    w: &mut Writer<'_, '_>,
    variable: usize,
    share: bool,
)
    requires { VariablesReady source.texts.chunk.now source.texts.edits.now source.types.now variable 1 (cursor_of w.old) w.old.scratch.now }
    ensures placed { VariablePlaced source.entry.texts.chunk.now source.entry.texts.edits.now variables.now source.entry.types.now source.entry.sm5
        share variable (cursor_of w.old) w.old.scratch.now w.new.scratch.now w.old.out.now.bytes.now w.new.out.now.bytes.now (cursor_of w.new) }
    ensures same { SameLent w.old w.new }
{
    let fields = tables::variable_at(variables, variable);
    let name = w.place_inner_name(source, fields.name);
    let kind = write_types::place_root_type(source, w, share);
    let default = w.place_default(source, fields.default_value);
    words::overwrite(
        w.scratch,
        VARIABLES_START + variable * VARIABLE_OFFSETS,
        &[name, kind, default],
    );
}

// Places `count` variables from `variable` on, whose types begin at the writer's node.
pub fn place_variables(
    source: Source<'_>,
    variables: &[u32],
    w: &mut Writer<'_, '_>,
    variable: usize,
    count: usize,
    share: bool,
)
    requires { VariablesReady source.texts.chunk.now source.texts.edits.now source.types.now variable count (cursor_of w.old) w.old.scratch.now }
    ensures placed { VariablesPlaced source.entry.texts.chunk.now source.entry.texts.edits.now variables.now source.entry.types.now source.entry.sm5
        share variable count (cursor_of w.old) w.old.scratch.now w.new.scratch.now w.old.out.now.bytes.now w.new.out.now.bytes.now (cursor_of w.new) }
    ensures same { SameLent w.old w.new }
{
    for placed in 0..count {
        place_variable(source, variables, w, variable + placed, share);
    }
}
