// The error of a number that is none of an enum's codes.
ghost use Rattle.std.specs.Prelude.{Some, ◌++◌, codes};
ghost use Rattle.std.specs.Fmt.{decimal};

use std::error::Error;
use std::fmt;

#[derive(Clone, Copy, Debug, PartialEq, Eq, Hash)]
pub struct UnknownCode(pub u32);

impl fmt::Display for UnknownCode {
    ghost output = { λ e. Some (codes "unknown code " ++ decimal e.0) };

    fn fmt<W: fmt::Write>(&self, f: &mut fmt::Formatter<W>) -> fmt::Result {
        write!(f, "unknown code {}", self.0)
    }
}

impl Error for UnknownCode {}
