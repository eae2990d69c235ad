//! Parts of slices.

ghost use Rattle.std.specs.Prelude.{◌≡◌};
ghost use Rattle.type_graph.specs.Graph.{part_of};

/// So many elements from a place on; none where they don't all stand there.
pub fn part_of<T>(elements: &[T], first: usize, count: usize) -> &[T]
    ensures { result.now ≡ part_of elements.now first count }
{
    if let Some((_, rest)) = elements.split_at_checked(first)
        && let Some((part, _)) = rest.split_at_checked(count)
    {
        return part;
    }
    &[]
}
