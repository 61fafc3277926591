// The report's lines: one method for each keyword, with its fields in document 01's order.
use crate::Reporter;
use reflection::{CBufferDef, CBufferVariable, ResourceBinding, TypeDesc, is_sm5};
use std::io;
use std::io::Write;

impl<W: Write> Reporter<'_, W> {
    pub(crate) fn rdef_line(&mut self) -> io::Result<()> {
        let def = self.r.def;
        self.keyword(b"rdef")?;
        self.numbers(&[def.target_version, def.compile_flags])?;
        self.text(def.creator)?;
        self.end()
    }

    pub(crate) fn rd11_line(&mut self) -> io::Result<()> {
        let rd11 = self.r.def.rd11;
        self.keyword(b"rd11")?;
        self.numbers(&[
            rd11.identifier,
            rd11.resource_binding_stride,
            rd11.interface_slot_count,
        ])?;
        self.end()
    }

    pub(crate) fn bind_line(&mut self, b: ResourceBinding) -> io::Result<()> {
        self.keyword(b"bind")?;
        self.text(b.name)?;
        self.numbers(&[
            b.input_type,
            b.return_type,
            b.dimension,
            b.num_samples,
            b.bind_point,
            b.bind_count,
            b.flags.0,
            b.space,
            b.id,
        ])?;
        self.end()
    }

    pub(crate) fn buf_line(&mut self, b: CBufferDef) -> io::Result<()> {
        self.keyword(b"buf")?;
        self.text(b.name)?;
        self.numbers(&[b.variable_count, b.size, b.flags, b.cb_type])?;
        self.end()
    }

    pub(crate) fn var_line(&mut self, v: CBufferVariable) -> io::Result<()> {
        self.keyword(b"var")?;
        self.text(v.name)?;
        self.numbers(&[v.offset, v.size, v.flags.0])?;
        self.text(v.default_value)?;
        if is_sm5(self.r.def) {
            self.numbers(&[
                v.texture_start,
                v.texture_size,
                v.sampler_start,
                v.sampler_size,
            ])?;
        }
        self.end()
    }

    // Not inlined, as the next: their arrays would lie in the frame of each level of `type_lines`.
    #[inline(never)]
    pub(crate) fn type_line(&mut self, depth: u32, t: TypeDesc) -> io::Result<()> {
        self.keyword(b"type")?;
        self.numbers(&[depth, t.class, t.var_type])?;
        self.numbers(&[t.rows, t.columns, t.elements, t.member_count])?;
        if is_sm5(self.r.def) {
            self.numbers(&[t.extra0, t.extra1, t.extra2, t.extra3])?;
        }
        self.text(t.name)?;
        self.end()
    }

    // What a type is as a member of the type above it.
    #[inline(never)]
    pub(crate) fn mem_line(&mut self, t: TypeDesc) -> io::Result<()> {
        self.keyword(b"mem")?;
        self.text(t.member_name)?;
        self.numbers(&[t.member_offset])?;
        self.end()
    }
}
