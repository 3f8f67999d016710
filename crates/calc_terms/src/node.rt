//! The law of node bytes.
ghost use Rattle.std.specs.Prelude.{◌≡◌, ℕ, List, ◌++◌, length};
ghost use Rattle.calc_terms.specs.Node.{Node, IsNode, encoding, node_at, size_of};

/// A node's bytes are read as the node, whatever stands behind them.
pub fn bytes_read_back()
    ensures read { (node : Node) (rest : List ℕ) → IsNode node → node_at (encoding node ++ rest) ≡ node }
    ensures size { (node : Node) → IsNode node → length (encoding node) ≡ size_of node }
{}
