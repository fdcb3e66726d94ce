//! Graphs whose nodes are numbers.
ghost use Rattle.std.specs.Prelude.{◌≡◌, map};
ghost use Rattle.rule_cycle_search.specs.Graph.{listed};

/// What nodes refer to, by number. Those of the first kind come first, then those of the other; the first ones are also
/// judged, they are the roots.
pub struct Graph {
    pub references: Vec<Vec<usize>>,
    /// How many nodes are of the first kind: nodes of each kind are counted separately.
    pub first_kind: usize,
    pub roots: usize,
    /// The most nodes of a kind on a path.
    pub bound: u32,
}

impl Drop for Graph {
    fn drop(self) {
        let Graph {
            references: _,
            first_kind: _,
            roots: _,
            bound: _,
        } = self;
    }
}

/// The list of a number, empty if it has none.
pub(crate) fn listed(lists: &[Vec<usize>], node: usize) -> &[usize]
    ensures { result.now ≡ listed lists.now node }
{
    match lists.get(node) {
        Some(list) => list.as_slice(),
        None => &[],
    }
}
