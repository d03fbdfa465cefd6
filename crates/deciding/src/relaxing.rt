// Relaxing one edge. The decision relaxes heights in place, since a height may be the length of any walk; the search (crate closed_walks) goes from table to
// table, since it needs walks of exactly k edges.
ghost use Rattle.std.specs.Prelude.{◌≡◌, ◌+◌, ◌-◌, ◌≤◌, max, ltb};
ghost use Rattle.edge_lists.specs.Signs.{rise, fall};

// Whether the length along an edge and `next` on from its end is above `at`.
pub fn rises(at: u64, next: u64, length: i64) -> bool
    requires { (at ≤ 4398046511104) × (next ≤ 2199023255552) × (rise length ≤ 4194304) × (fall length ≤ 4194304) }
    ensures { result ≡ ltb at ((rise length + next) - fall length) }
{
    next as i64 + length > at as i64
}

// The greater of `at` and the length along an edge and `next` on from its end.
pub fn raised(at: u64, next: u64, length: i64) -> u64
    requires { (at ≤ 4398046511104) × (next ≤ 2199023255552) × (rise length ≤ 4194304) × (fall length ≤ 4194304) }
    ensures { result ≡ max at ((rise length + next) - fall length) }
{
    let along = next as i64 + length;
    along.max(at as i64) as u64
}
