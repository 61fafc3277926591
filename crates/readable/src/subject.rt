// A reflection that is tested, and the texts that hold its names.
use reflection::Texts;
use tables::Reflection;

// The tests are its methods, each file of this crate with those of one table.
#[derive(Clone, Copy)]
pub(crate) struct Subject<'a> {
    pub texts: Texts<'a>,
    pub r: Reflection<'a>,
}
