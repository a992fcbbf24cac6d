// Places of the code up to the next one that is marked.
ghost use Rattle.std.specs.Prelude.{◌≤◌, ◌<◌, length};
ghost use Rattle.tree_building.specs.Marks.{NoneWithin};

/// The nearest marked place behind another one, or the end.
pub(crate) fn next_mark(marks: &[bool], from: usize) -> usize
    requires { from < length marks.now }
    ensures ahead { from < result }
    ensures within { result ≤ length marks.now }
    ensures unmarked { NoneWithin marks.now from result }
{
    let mut to = from + 1;
    while to < marks.len() && !marks[to] {
        to += 1;
    }
    to
}
