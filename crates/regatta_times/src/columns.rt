//! The columns of lists and sheets, by their titles.

ghost use Rattle.std.specs.Prelude.{◌≡◌};
ghost use Rattle.regatta_times.specs.Columns.{column_of, columns_of, is_sail_title, sail_column};

use crate::records::Field;

/// The columns of a sheet of times, counted from 0; `None` for one that it lacks.
#[derive(Clone, Copy, Debug)]
pub(crate) struct Columns {
    pub(crate) sail: Option<usize>,
    pub(crate) elapsed: Option<usize>,
    pub(crate) start: Option<usize>,
    pub(crate) finish: Option<usize>,
    pub(crate) laps: Option<usize>,
    pub(crate) distance: Option<usize>,
}

fn is_sail_title(title: &[u8]) -> bool
    ensures { result ≡ is_sail_title title.now }
{
    title == b"SAIL".as_slice()
        || title == b"SAILNO".as_slice()
        || title == b"SAILNUMBER".as_slice()
}

/// The first column of sails: headed `Sail`, `SailNo` or `SailNumber`, as in an entry list.
pub(crate) fn sail_column(titles: &[Field]) -> Option<usize>
    ensures { result ≡ sail_column titles.now }
{
    titles
        .iter()
        .position(|title| is_sail_title(title.as_slice()))
}

/// The first column with this title.
pub(crate) fn column_of(name: &[u8], titles: &[Field]) -> Option<usize>
    ensures { result ≡ column_of name.now titles.now }
{
    titles.iter().position(|title| title.as_slice() == name)
}

/// The columns of a sheet of times.
pub(crate) fn columns_of(titles: &[Field]) -> Columns
    ensures { result ≡ columns_of titles.now }
{
    Columns {
        sail: sail_column(titles),
        elapsed: column_of(b"ELAPSED", titles),
        start: column_of(b"START", titles),
        finish: column_of(b"FINISH", titles),
        laps: column_of(b"LAPS", titles),
        distance: column_of(b"DISTANCE", titles),
    }
}
