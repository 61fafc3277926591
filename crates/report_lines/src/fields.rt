// What a line is made of: its keyword, its fields with a tab before each, its end.
ghost use Rattle.std.specs.Prelude.{[], ◌∷◌, OnOk};
ghost use Rattle.std.specs.Io.KnownBytes.{Appends};
ghost use Rattle.stdout.specs.Output.{fields};
ghost use Rattle.report_lines.specs.Fields.{text_field};

use crate::Reporter;
use reflection::Text;
use std::io;
use std::io::Write;

impl<W: Write> Reporter<'_, W> {
    pub(crate) fn keyword(&mut self, name: &[u8]) -> io::Result<()>
        ensures { OnOk result (Appends (W.contents self.old.out.now) (W.contents self.new.out.now) name.now) }
    {
        stdout::put_bytes(self.out, name)
    }

    // Numbers, in decimal.
    pub(crate) fn numbers(&mut self, numbers: &[u32]) -> io::Result<()>
        ensures { OnOk result (Appends (W.contents self.old.out.now) (W.contents self.new.out.now) (fields numbers.now)) }
    {
        stdout::put_fields(self.out, numbers)
    }

    // A name or a default, its bytes in hex.
    pub(crate) fn text(&mut self, t: Text) -> io::Result<()>
        ensures { OnOk result (Appends (W.contents self.old.out.now) (W.contents self.new.out.now) (text_field self.old.texts t)) }
    {
        stdout::put_byte(self.out, b'\t')?;
        stdout::put_hex(self.out, self.texts.name_part(t))
    }

    pub(crate) fn end(&mut self) -> io::Result<()>
        ensures { OnOk result (Appends (W.contents self.old.out.now) (W.contents self.new.out.now) (10 ∷ [])) }
    {
        stdout::put_byte(self.out, b'\n')
    }
}
