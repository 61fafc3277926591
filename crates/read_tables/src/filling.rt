// The bindings' table, while it is filled.
ghost use Rattle.reflection.specs.Limits.{binding_width};
ghost use Rattle.read_types.specs.Walked.{HasRoom};

use read_spec::Counts;

// The bindings' table, with how many records each of the four tables has and can take.
#[derive(Drop)]
pub struct BindingFilling<'a> {
    pub bindings: &'a mut [u32],
    pub capacity: Counts,
    pub counts: Counts,
    pub ghost bindings_fit: { HasRoom binding_width capacity.bindings counts.bindings bindings.now },
}
