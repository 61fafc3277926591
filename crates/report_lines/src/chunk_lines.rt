// The tables, record by record: all bindings, then each buffer with its variables, and each variable with its types.
ghost use Rattle.std.specs.Prelude.{◌<◌};
ghost use Rattle.reflection.specs.Limits.{type_levels};

use crate::Reporter;
use reflection::{TYPE_LEVELS, is_sm5};
use std::io;
use std::io::Write;
use std::ops::Range;

impl<W: Write> Reporter<'_, W> {
    // A type, which is the next of the nodes, with a member's name and offset before it, then its members' types. No type that was read is deeper than
    // the levels, which end the recursion.
    fn type_lines(&mut self, depth: usize, nodes: &mut Range<usize>) -> io::Result<()>
        requires { depth < type_levels }
    {
        let Some(i) = nodes.next() else {
            return Ok(());
        };
        let node = tables::type_at(self.r.types, i);
        if 0 < depth {
            self.mem_line(node)?;
        }
        self.type_line(depth as u32, node)?;
        if depth + 1 < TYPE_LEVELS {
            for _ in 0..node.member_count {
                self.type_lines(depth + 1, nodes)?;
            }
        }
        Ok(())
    }

    // Each buffer, followed by its variables, each followed by its types: they are the next of the table's variables and of its nodes.
    fn buffer_lines(&mut self) -> io::Result<()> {
        let mut next_variables = 0..self.r.def.variable_count as usize;
        let mut nodes = 0..self.r.def.type_count as usize;
        for i in 0..self.r.def.buffer_count as usize {
            let b = tables::buffer_at(self.r.buffers, i);
            self.buf_line(b)?;
            for v in next_variables.by_ref().take(b.variable_count as usize) {
                self.var_line(tables::variable_at(self.r.variables, v))?;
                self.type_lines(0, &mut nodes)?;
            }
        }
        Ok(())
    }

    fn binding_lines(&mut self) -> io::Result<()> {
        for i in 0..self.r.def.binding_count as usize {
            self.bind_line(tables::binding_at(self.r.bindings, i))?;
        }
        Ok(())
    }

    // All lines of a chunk that was read.
    pub(crate) fn all_lines(&mut self) -> io::Result<()> {
        self.rdef_line()?;
        if is_sm5(self.r.def) {
            self.rd11_line()?;
        }
        self.binding_lines()?;
        self.buffer_lines()
    }
}
