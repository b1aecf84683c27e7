//! What stands when code grows.

ghost use Rattle.std.specs.Prelude.{ℕ, List, ◌++◌};
ghost use Rattle.cxx_type.specs.declared.whole.CxxType.{CxxType};
ghost use Rattle.core_pointer.specs.declared.origin.Literal.{Literal};
ghost use Rattle.core_pointer.specs.declared.path.PathStep.{PathStep};
ghost use Rattle.core_shape.specs.declared.shape.Shape.{Shape};
ghost use Rattle.core_value.specs.declared.value.Value.{Value};
ghost use Rattle.typed_code.specs.declared.expr.ExprNode.{ExprNode};
ghost use Rattle.typed_code.specs.declared.number.ExprNo.{ExprNo};
ghost use Rattle.typed_code.specs.declared.number.StmtNo.{StmtNo};
ghost use Rattle.typed_code.specs.declared.stmt.StmtNode.{StmtNode};
ghost use Rattle.typed_code.specs.Arrays.{Arrays};
ghost use Rattle.typed_code.specs.ExprTrees.{Ex, Args, Clauses, Exs};
ghost use Rattle.typed_code.specs.StmtTrees.{St};
ghost use Rattle.typed_code.specs.Has.{Extends, HasArgs, HasClauses, HasEx, HasExs, HasSt};

/// What code has, it has when it has grown: expressions, statements, and lists of expressions, of arguments and of clauses.
pub fn trees_stay()
    ensures exprs { (a b : Arrays) → Extends a b → (x : Ex) (i : ExprNo) → HasEx a i x → HasEx b i x }
    ensures stmts { (a b : Arrays) → Extends a b → (x : St) (i : StmtNo) → HasSt a i x → HasSt b i x }
    ensures lists { (a b : Arrays) → Extends a b → (xs : Exs) (at : ℕ) → HasExs a at xs → HasExs b at xs }
    ensures args { (a b : Arrays) → Extends a b → (xs : Args) (at : ℕ) → HasArgs a at xs → HasArgs b at xs }
    ensures clauses { (a b : Arrays) → Extends a b → (xs : Clauses) (at : ℕ) → HasClauses a at xs → HasClauses b at xs }
{}

/// Each call that puts something at the end lets code grow, and so do several.
pub fn putting_lets_code_grow()
    ensures exprs { (a : Arrays) (more : List ExprNode) → Extends a (record a { exprs = a.exprs ++ more }) }
    ensures stmts { (a : Arrays) (more : List StmtNode) → Extends a (record a { stmts = a.stmts ++ more }) }
    ensures lists { (a : Arrays) (more : List ℕ) → Extends a (record a { lists = a.lists ++ more }) }
    ensures steps { (a : Arrays) (more : List PathStep) → Extends a (record a { steps = a.steps ++ more }) }
    ensures types { (a : Arrays) (more : List CxxType) → Extends a (record a { types = a.types ++ more }) }
    ensures shapes { (a : Arrays) (more : List Shape) → Extends a (record a { shapes = a.shapes ++ more }) }
    ensures texts { (a : Arrays) (more : List Literal) → Extends a (record a { texts = a.texts ++ more }) }
    ensures values { (a : Arrays) (more : List Value) → Extends a (record a { values = a.values ++ more }) }
    ensures several { (a b c : Arrays) → Extends a b → Extends b c → Extends a c }
{}
