//! Code.

ghost use Rattle.std.specs.Prelude.{◌≡◌, ◌+◌, ◌∷◌, ◌++◌, ◌<◌, ◌^◌, [], length, slice_get, IfOk, OnOk, OnErr};
ghost use Rattle.std.specs.Option.{option_copied};
ghost use Rattle.typed_code.specs.declared.basics.TheConstants.{BASICS};
ghost use Rattle.typed_code.specs.Arrays.{no_arrays, plain, scalar_shape, scalars_of, shape_at, type_at};

use crate::basics::{BASIC_TYPES, basic_at};
use crate::expr::ExprNode;
use crate::number::{ExprNo, ShapeNo, StmtNo, TextNo, TypeNo, ValueNo};
use crate::stmt::StmtNode;
use crate::tables::{Tables, number_of};
use containers::Items;
use core_pointer::{Literal, PathStep};
use core_shape::Shape;
use core_value::Value;
use cxx_base::Memory;
use cxx_type::{BasicType, CxxType, Layers};
use std::alloc::Global;
use std::marker::Model;

/// Typed trees: arrays of nodes, which name their parts by number, and tables of what is too large for a node. Contracts see the arrays and
/// the tables. A list is so many entries of `lists`: numbers of nodes, or, of arguments and clauses, pairs of a shape or of a part and of a
/// node.
pub struct TypedCode {
    exprs: Items<ExprNode>,
    stmts: Items<StmtNode>,
    lists: Vec<u32>,
    tables: Option<Box<Tables>>,
    alloc: Global,
}

impl Drop for TypedCode {
    fn drop(self) {
        let TypedCode {
            exprs: _,
            stmts: _,
            lists: _,
            tables: _,
            alloc: _,
        } = self;
    }
}

impl Model for TypedCode {
    ghost use Rattle.std.specs.Coded.{codes};
    ghost use Rattle.core_shape.specs.contracts.shape.Shape as shape;
    ghost use Rattle.core_value.specs.contracts.value.Value as value;
    ghost use Rattle.typed_code.specs.Arrays.{Arrays};
    ghost use Rattle.typed_code.specs.Held.{arrays_of};

    ghost Value = { Arrays };

    ghost coded = { Prim.hlevel (codes, shape.the_row.coded, value.the_row.coded) };

    ghost view = { arrays_of };
}

impl TypedCode {
    /// Code without a node. It takes no memory.
    pub fn new(alloc: Global) -> TypedCode
        ensures { result ≡ no_arrays }
    {
        TypedCode {
            exprs: Items::new(alloc),
            stmts: Items::new(alloc),
            lists: Vec::new(alloc),
            tables: None,
            alloc,
        }
    }

    /// The expression of a number.
    pub fn expr(&self, n: ExprNo) -> Option<ExprNode>
        ensures { result ≡ slice_get self.now.exprs n.0 }
    {
        match self.exprs.get(n.0 as usize) {
            Some(node) => Some(*node),
            None => None,
        }
    }

    /// The statement of a number.
    pub fn stmt(&self, n: StmtNo) -> Option<StmtNode>
        ensures { result ≡ slice_get self.now.stmts n.0 }
    {
        match self.stmts.get(n.0 as usize) {
            Some(node) => Some(*node),
            None => None,
        }
    }

    /// An entry of the lists.
    pub fn entry(&self, at: u32) -> Option<u32>
        ensures { result ≡ slice_get self.now.lists at }
    {
        match self.lists.get(at as usize) {
            Some(entry) => Some(*entry),
            None => None,
        }
    }

    /// Puts an expression behind the last. Without memory nothing changes.
    pub fn put_expr(&mut self, node: ExprNode) -> Result<ExprNo, Memory>
        ensures number { IfOk result (λ n. n.0 ≡ length self.old.exprs) }
        ensures ok { OnOk result (self.new ≡ record self.old { exprs = self.old.exprs ++ node ∷ [] }) }
        ensures err { OnErr result (self.new ≡ self.old) }
    {
        let at = number_of(self.exprs.len())?;
        self.exprs.push(node)?;
        Ok(ExprNo(at))
    }

    /// Puts a statement behind the last. Without memory nothing changes.
    pub fn put_stmt(&mut self, node: StmtNode) -> Result<StmtNo, Memory>
        ensures number { IfOk result (λ n. n.0 ≡ length self.old.stmts) }
        ensures ok { OnOk result (self.new ≡ record self.old { stmts = self.old.stmts ++ node ∷ [] }) }
        ensures err { OnErr result (self.new ≡ self.old) }
    {
        let at = number_of(self.stmts.len())?;
        self.stmts.push(node)?;
        Ok(StmtNo(at))
    }

    /// Puts a list of entries behind the last. Without memory nothing changes.
    pub fn put_list(&mut self, entries: &[u32]) -> Result<u32, Memory>
        ensures number { IfOk result (λ first. first ≡ length self.old.lists) }
        ensures ok { OnOk result (self.new ≡ record self.old { lists = self.old.lists ++ entries.now }) }
        ensures err { OnErr result (self.new ≡ self.old) }
    {
        let first = number_of(self.lists.len())?;
        self.lists.extend_from_slice(entries)?;
        Ok(first)
    }

    /// Gives back what memory the nodes and the lists have beyond what they hold: who has put all of a tree calls it, since an outcome keeps
    /// the code. What the code holds is the same, without memory too.
    pub fn shrink_to_fit(&mut self) -> Result<(), Memory>
        ensures { self.new ≡ self.old }
    {
        self.exprs = Items::from_slice(self.alloc, self.exprs.as_slice())?;
        self.stmts = Items::from_slice(self.alloc, self.stmts.as_slice())?;
        self.lists = Vec::from_slice(self.alloc, self.lists.as_slice())?;
        Ok(())
    }

    // Makes the tables where there are none. What code holds is the same.
    fn open_tables(&mut self) -> Result<(), Memory>
        ensures { self.new ≡ self.old }
    {
        match &self.tables {
            Some(_) => {}
            None => {
                let tables = Box::new(self.alloc, Tables::new(self.alloc))?;
                self.tables = Some(tables);
            }
        }
        Ok(())
    }

    /// The string literal of a number.
    pub fn text(&self, n: TextNo) -> Option<&Literal>
        ensures { option_copied result ≡ slice_get self.now.texts n.0 }
    {
        match &self.tables {
            Some(tables) => tables.texts.get(n.0 as usize),
            None => None,
        }
    }

    /// The settled value of a number.
    pub fn value(&self, n: ValueNo) -> Option<&Value>
        ensures { option_copied result ≡ slice_get self.now.values n.0 }
    {
        match &self.tables {
            Some(tables) => tables.values.get(n.0 as usize),
            None => None,
        }
    }

    /// An entry of the steps of ways.
    pub fn step(&self, at: u32) -> Option<PathStep>
        ensures { result ≡ slice_get self.now.steps at }
    {
        match &self.tables {
            Some(tables) => match tables.steps.get(at as usize) {
                Some(step) => Some(*step),
                None => None,
            },
            None => None,
        }
    }

    /// The type of a number. It costs a count.
    pub fn type_of(&self, n: TypeNo) -> Result<Option<CxxType>, Memory>
        ensures { IfOk result (λ of. of ≡ type_at self.now n.0) }
    {
        if n.0 < BASIC_TYPES {
            return Ok(basic_type(n.0 / 2, n.0 % 2 == 1));
        }
        match &self.tables {
            Some(tables) => match tables.types.get((n.0 - BASIC_TYPES) as usize) {
                Some(of) => Ok(Some(of.copy()?)),
                None => Ok(None),
            },
            None => Ok(None),
        }
    }

    /// The shape of a number. It costs counts.
    pub fn shape(&self, n: ShapeNo) -> Result<Option<Shape>, Memory>
        ensures { IfOk result (λ shape. shape ≡ shape_at self.now n.0) }
    {
        if n.0 < BASIC_TYPES {
            return Ok(basic_shape(n.0 / 2, n.0 % 2 == 1));
        }
        match &self.tables {
            Some(tables) => match tables.shapes.get((n.0 - BASIC_TYPES) as usize) {
                Some(shape) => Ok(Some(shape.copy()?)),
                None => Ok(None),
            },
            None => Ok(None),
        }
    }

    /// Puts a string literal behind the last. Without memory nothing changes.
    pub fn put_text(&mut self, text: Literal) -> Result<TextNo, Memory>
        ensures number { IfOk result (λ n. n.0 ≡ length self.old.texts) }
        ensures ok { OnOk result (self.new ≡ record self.old { texts = self.old.texts ++ text ∷ [] }) }
        ensures err { OnErr result (self.new ≡ self.old) }
    {
        self.open_tables()?;
        match &mut self.tables {
            Some(tables) => tables.put_text(text),
            None => Err(Memory),
        }
    }

    /// Puts a settled value behind the last. Without memory nothing changes.
    pub fn put_value(&mut self, value: Value) -> Result<ValueNo, Memory>
        ensures number { IfOk result (λ n. n.0 ≡ length self.old.values) }
        ensures ok { OnOk result (self.new ≡ record self.old { values = self.old.values ++ value ∷ [] }) }
        ensures err { OnErr result (self.new ≡ self.old) }
    {
        self.open_tables()?;
        match &mut self.tables {
            Some(tables) => tables.put_value(value),
            None => Err(Memory),
        }
    }

    /// Puts a type behind the last. Without memory nothing changes.
    pub fn put_type(&mut self, of: CxxType) -> Result<TypeNo, Memory>
        ensures number { IfOk result (λ n. n.0 ≡ BASIC_TYPES + length self.old.types) }
        ensures ok { OnOk result (self.new ≡ record self.old { types = self.old.types ++ of ∷ [] }) }
        ensures err { OnErr result (self.new ≡ self.old) }
    {
        self.open_tables()?;
        match &mut self.tables {
            Some(tables) => tables.put_type(of),
            None => Err(Memory),
        }
    }

    /// Puts a shape behind the last. Without memory nothing changes.
    pub fn put_shape(&mut self, shape: Shape) -> Result<ShapeNo, Memory>
        ensures number { IfOk result (λ n. n.0 ≡ BASIC_TYPES + length self.old.shapes) }
        ensures ok { OnOk result (self.new ≡ record self.old { shapes = self.old.shapes ++ shape ∷ [] }) }
        ensures err { OnErr result (self.new ≡ self.old) }
    {
        self.open_tables()?;
        match &mut self.tables {
            Some(tables) => tables.put_shape(shape),
            None => Err(Memory),
        }
    }

    /// Puts the steps of a way behind the last. Without memory nothing changes.
    pub fn put_path(&mut self, path: &[PathStep]) -> Result<u32, Memory>
        ensures number { IfOk result (λ first. first ≡ length self.old.steps) }
        ensures ok { OnOk result (self.new ≡ record self.old { steps = self.old.steps ++ path.now }) }
        ensures err { OnErr result (self.new ≡ self.old) }
    {
        self.open_tables()?;
        match &mut self.tables {
            Some(tables) => tables.put_path(path),
            None => Err(Memory),
        }
    }
}

fn basic_type(at: u32, is_const: bool) -> Option<CxxType>
    ensures { result ≡ plain is_const (slice_get BASICS at) }
{
    match basic_at(at) {
        Some(basic) => Some(CxxType {
            basic,
            is_const,
            layers: Layers::none(),
        }),
        None => None,
    }
}

fn basic_shape(at: u32, is_const: bool) -> Option<Shape>
    ensures { result ≡ scalar_shape is_const (slice_get BASICS at) }
{
    match basic_at(at) {
        Some(basic) => {
            let scalars = scalars_in(basic);
            Some(Shape {
                of: CxxType {
                    basic,
                    is_const,
                    layers: Layers::none(),
                },
                class: None,
                scalars,
                leaves: scalars,
            })
        }
        None => None,
    }
}

fn scalars_in(basic: BasicType) -> u64
    ensures { result ≡ scalars_of basic }
{
    match basic {
        BasicType::MemberOffset => 2,
        _ => 1,
    }
}
