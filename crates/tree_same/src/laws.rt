//! Laws of the definition that `same` is proved against. Each function does nothing, and a call of it gives its caller
//! the law.

ghost use Rattle.tree_same.specs.Laws.{PartsDecide};
ghost use Rattle.tree_same.specs.Same.{Same};
ghost use Rattle.cxx_tree.specs.declared.expr.Expr.{Expr};

/// A tree is the same as itself; where it is the same as another, that is the same as it; and where that is the same as
/// a third, so is it.
pub fn same_is_an_equivalence()
    ensures reflexive { (x : Expr) → Same x x }
    ensures symmetric { (x y : Expr) → Same x y → Same y x }
    ensures transitive { (x y z : Expr) → Same x y → Same y z → Same x z }
{}

/// Two trees of one form are the same exactly where their parts are, also as the code makes them, with their parts in
/// boxes and lists.
pub fn parts_decide()
    ensures { PartsDecide }
{}
