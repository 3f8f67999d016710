//! Laws of replaced names. Each is the contract of a function that does nothing.
ghost use Rattle.tree_walks.specs.Laws.{StaysWhereAbsent, NamesOfReplaced, OccursWhereNamed, BytesOfReplaced};

/// A tree without the name stays as it is.
pub fn replaced_where_absent()
    ensures { StaysWhereAbsent }
{}

/// A name after a replacement is one of the tree that was put in, or another name of the tree.
pub fn names_of_replaced()
    ensures { NamesOfReplaced }
{}

/// A name occurs in a tree where it is one of its names.
pub fn names_occur()
    ensures { OccursWhereNamed }
{}

/// For each leaf that is replaced, its bytes are freed and those of the tree that is put in are taken.
pub fn replaced_bytes()
    ensures { BytesOfReplaced }
{}
