// The types' table, while it is filled.
ghost use Rattle.std.specs.Prelude.{◌≡◌, length, MatchResult};
ghost use Rattle.reflection.specs.Limits.{type_width, type_levels};
ghost use Rattle.read_types.specs.Walked.{HasRoom, Claimed, Full};

use read_spec::Counts;
use reflection::{Refusal, TYPE_LEVELS};

// The types' table, with how many records each of the four tables has and can take, and the type descriptors on the way down to the one that is walked:
// their offsets, root first. The other tables are not in it, so that no walk is lent a table that it does not fill.
#[derive(Drop)]
pub struct TypeFilling<'a> {
    pub types: &'a mut [u32],
    pub capacity: Counts,
    pub counts: Counts,
    pub path: [u32; TYPE_LEVELS],
    pub ghost path_long: { length path ≡ type_levels },
    pub ghost types_fit: { HasRoom type_width capacity.types counts.types types.now },
}

// The number of a table's next record, which is counted from now on; or a refusal where the table is full.
pub fn claim(count: &mut usize, capacity: usize) -> Result<usize, Refusal>
    ensures { MatchResult result (Claimed capacity count.old count.new) (Full capacity count.old count.new) }
{
    let n = *count;
    if capacity <= n {
        return Err(Refusal::NoRoom);
    }
    *count = n + 1;
    Ok(n)
}
