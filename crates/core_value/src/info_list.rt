//! Lists of reflections.

ghost use Rattle.std.specs.Prelude.{◌≡◌, [], ◌∷◌, ◌++◌, length, IfOk, OnOk, OnErr, IsTrue, ◌↔◌, MatchOption};

use containers::Items;
use core_reflection::Reflection;
use cxx_base::Memory;
use std::alloc::Global;
use std::marker::Model;
use std::sync::Arc;

/// A `std::vector<std::meta::info>`: reflections in order. Contracts see the list of them. A copy costs a count; what nobody shares
/// grows in place.
pub struct InfoList {
    items: Arc<Items<Reflection>, Global>,
    alloc: Global,
}

impl Drop for InfoList {
    fn drop(self) {
        let InfoList { items: _, alloc: _ } = self;
    }
}

impl Model for InfoList {
    ghost use Rattle.std.specs.Prelude.{List};
    ghost use Rattle.std.specs.Arc.{arc_value};
    ghost use Rattle.std.specs.Coded.{coded_list};
    ghost use Rattle.core_reflection.specs.declared.reflection.Reflection.{Reflection};
    ghost use Rattle.core_reflection.specs.contracts.reflection.Reflection as reflection;

    ghost Value = { List Reflection };

    ghost coded = { coded_list reflection.the_row.coded };

    ghost view = { λ l. arc_value l.items };
}

impl InfoList {
    /// The list of these reflections, which are moved.
    pub fn new(alloc: Global, items: Items<Reflection>) -> Result<InfoList, Memory>
        ensures { IfOk result (λ list. list ≡ items) }
    {
        let items = Arc::new(alloc, items)?;
        Ok(InfoList { items, alloc })
    }

    /// All reflections in order.
    pub fn as_slice(&self) -> &[Reflection]
        ensures { result.now ≡ self.now }
    {
        self.items.as_slice()
    }

    /// How many there are.
    pub fn len(&self) -> usize
        ensures { result ≡ length self.now }
    {
        self.items.len()
    }

    /// The same list. It costs a count.
    pub fn copy(&self) -> Result<InfoList, Memory>
        ensures { IfOk result (λ copy. copy ≡ self.now) }
    {
        let items = Arc::try_clone(&self.items)?;
        Ok(InfoList {
            items,
            alloc: self.alloc,
        })
    }

    // Makes the list its own where it is shared. What it holds is the same.
    fn make_own(&mut self) -> Result<(), Memory>
        ensures { self.new ≡ self.old }
    {
        if Arc::strong_count(&self.items) != 1 {
            let items = copies(self.alloc, self.items.as_slice())?;
            self.items = Arc::new(self.alloc, items)?;
        }
        Ok(())
    }

    /// Puts a reflection behind the last: in place, or, where others share the list, in a copy of it. Without memory nothing changes.
    pub fn push(&mut self, item: Reflection) -> Result<(), Memory>
        ensures ok { OnOk result (self.new ≡ self.old ++ item ∷ []) }
        ensures err { OnErr result (self.new ≡ self.old) }
    {
        self.make_own()?;
        match Arc::get_mut(&mut self.items) {
            Some(items) => {
                items.push(item)?;
                Ok(())
            }
            None => Err(Memory),
        }
    }

    /// Takes the last reflection away, if there is one: in place, or, where others share the list, from a copy of it. Without memory nothing
    /// changes.
    pub fn pop(&mut self) -> Result<Option<Reflection>, Memory>
        ensures ok { IfOk result (λ last. MatchOption last ((self.old ≡ []) × (self.new ≡ [])) (λ item. self.old ≡ self.new ++ item ∷ [])) }
        ensures err { OnErr result (self.new ≡ self.old) }
    {
        self.make_own()?;
        match Arc::get_mut(&mut self.items) {
            Some(items) => Ok(items.pop()),
            None => Err(Memory),
        }
    }

    /// Whether two lists have equal reflections in the same order.
    pub fn same(&self, other: &InfoList) -> bool
        ensures { IsTrue result ↔ (self.now ≡ other.now) }
    {
        all_same(self.items.as_slice(), other.items.as_slice())
    }
}

fn copies(alloc: Global, list: &[Reflection]) -> Result<Items<Reflection>, Memory>
    ensures { IfOk result (λ items. items ≡ list.now) }
{
    let mut items = Items::new(alloc);
    for reflection in list {
        items.push(reflection.copy()?)?;
    }
    Ok(items)
}

fn all_same(xs: &[Reflection], ys: &[Reflection]) -> bool
    ensures { IsTrue result ↔ (xs.now ≡ ys.now) }
{
    let mut rest = ys;
    for x in xs {
        match rest.split_first() {
            Some((y, more)) => {
                if !x.same(y) {
                    return false;
                }
                rest = more;
            }
            None => return false,
        }
    }
    rest.is_empty()
}
