// Whether two diaries are the same, cell by cell.
ghost use Rattle.cells.specs.Same.{Compares};

use crate::ResourceTimeline;

pub fn same(a: ResourceTimeline, b: ResourceTimeline) -> bool
    ensures { Compares result a b }
{
    a == b
}
