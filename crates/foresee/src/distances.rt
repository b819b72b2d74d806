// The distances of a record, from where it begins to where the labels that it carries land.
ghost use Rattle.std.specs.Prelude.{◌≡◌};
ghost use Rattle.definitions.specs.Tag.{row_of};
ghost use Rattle.instr.specs.Values.{instr_of};
ghost use Rattle.foresee.specs.Distances.{distance_if, distances_of};

use instr::marks::mark_of;
use instr::records::Record;
use instr::tables;

/// The distance of a record's first and of its second, where that field carries a label: the
/// label's mark less the offset where the record begins, in units of virtual size. `None` where it
/// does not.
#[derive(Clone, Copy, Debug, PartialEq, Eq)]
pub struct Distances {
    pub first: Option<i64>,
    pub second: Option<i64>,
}

// Which of a record's two fields carry a label: its first, its second.
fn carries(tag: u8) -> (bool, bool)
    ensures { let row = row_of tag in result ≡ (row.first, row.second) }
{
    let row = tables::row_of(tag);
    (row.first != 0, row.second != 0)
}

// The distance of a field, where it carries a label. In 64 bits no two marks are too far apart.
fn distance(carries: bool, marks: &[u32], start: u32, label: u16) -> Option<i64>
    ensures { result ≡ distance_if «carries» marks.now start label }
{
    if carries {
        return Some(i64::from(mark_of(marks, label)) - i64::from(start));
    }
    None
}

impl Distances {
    // Of a record that begins at `start`, by a label table that is finished.
    pub(crate) fn of(marks: &[u32], start: u32, r: Record) -> Self
        ensures { result ≡ distances_of marks.now start (instr_of r) }
    {
        let (first, second) = carries(r.tag);
        Distances {
            first: distance(first, marks, start, r.first),
            second: distance(second, marks, start, r.second),
        }
    }
}
