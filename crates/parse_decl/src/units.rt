//! Whole source texts ([basic.link]).

ghost use Rattle.std.specs.Prelude.{◌≡◌, ◌+◌, ◌<◌, ◌^◌, List, [], ◌∷◌, ◌++◌, OnOk};
ghost use Rattle.cxx_grammar.specs.Units as spec;
ghost use Rattle.cxx_reading.specs.Reading.{Gives};
ghost use Rattle.cxx_tree.specs.declared.decl.Item.{Item};
ghost use Rattle.parse_decl.specs.Answers.{Says, SaysOf};
ghost use Rattle.parse_decl.specs.Joined as joined;

use crate::levels::declaration;
use crate::syntax_fault::SyntaxFault;
use containers::{Boxed, Items};
use cxx_base::Memory;
use cxx_reading::{
    ExprFault, Seen, expect, expect_word, identifier, kind_at, sees_ahead, single, span,
};
use cxx_tokens::Tokens;
use cxx_tokens::keyword::NAMESPACE;
use cxx_tokens::mark::{EQUAL, LEFT_BRACE, RIGHT_BRACE, SEMICOLON};
use cxx_tree::{Item, Unit};
use parse_type::parts;
use std::alloc::Global;

#[tactic(auto, unfolding(cxx_grammar::specs::Units::namespace_head))]
fn namespace_head(alloc: Global, tokens: &Tokens, start: u32) -> Result<(Item, u32), ExprFault>
    ensures { Gives (spec.namespace_head tokens.now start) result }
{
    let at = expect_word(tokens, NAMESPACE, start)?;
    let (first, at) = identifier(tokens, at)?;
    let (names, at) = parts(alloc, tokens, single(alloc, first)?, at)?;
    let end = expect(tokens, LEFT_BRACE, at)?;
    Ok((Item::NamespaceHead(span(tokens, start, end), names), end))
}

#[tactic(auto, unfolding(cxx_grammar::specs::Units::close_item))]
fn close_item(tokens: &Tokens, start: u32) -> Result<(Item, u32), ExprFault>
    ensures { Gives (spec.close_item tokens.now start) result }
{
    let end = expect(tokens, RIGHT_BRACE, start)?;
    Ok((Item::Close(span(tokens, start, end)), end))
}

#[tactic(auto, unfolding(cxx_grammar::specs::Units::decl_item))]
fn decl_item(alloc: Global, tokens: &Tokens, start: u32) -> Result<(Item, u32), ExprFault>
    ensures { Gives (spec.decl_item tokens.now start) result }
{
    let (x, end) = declaration(alloc, tokens, start)?;
    Ok((Item::Decl(Boxed::new(alloc, x)?), end))
}

#[tactic(auto, unfolding(cxx_grammar::specs::Units::empty_item))]
fn empty_item(tokens: &Tokens, start: u32) -> Result<(Item, u32), ExprFault>
    ensures { Gives (spec.empty_item tokens.now start) result }
{
    let end = expect(tokens, SEMICOLON, start)?;
    Ok((Item::Empty(span(tokens, start, end)), end))
}

#[tactic(auto, unfolding(crate::specs::Joined::namespace_item))]
fn namespace_item(alloc: Global, tokens: &Tokens, start: u32) -> Result<(Item, u32), ExprFault>
    ensures { Gives (joined.namespace_item tokens.now start) result }
{
    if sees_ahead(tokens, EQUAL, start, 2) {
        decl_item(alloc, tokens, start)
    } else {
        namespace_head(alloc, tokens, start)
    }
}

#[tactic(auto, using(crate::proofs::ItemForms::item_arms))]
fn item(alloc: Global, tokens: &Tokens, start: u32) -> Result<(Item, u32), ExprFault>
    ensures { Gives (spec.item tokens.now start) result }
{
    match kind_at(tokens, start) {
        Some(Seen::Word(word)) => {
            if word == NAMESPACE {
                namespace_item(alloc, tokens, start)
            } else {
                decl_item(alloc, tokens, start)
            }
        }
        Some(Seen::Punctuator(mark)) => {
            if mark == RIGHT_BRACE {
                close_item(tokens, start)
            } else if mark == SEMICOLON {
                empty_item(tokens, start)
            } else {
                decl_item(alloc, tokens, start)
            }
        }
        Some(Seen::Identifier) => decl_item(alloc, tokens, start),
        Some(Seen::Integer) => decl_item(alloc, tokens, start),
        Some(Seen::Character) => decl_item(alloc, tokens, start),
        Some(Seen::Text) => decl_item(alloc, tokens, start),
        None => decl_item(alloc, tokens, start),
    }
}

// How many namespaces are open behind an item.
fn opens(heads: u64, item: &Item) -> u64
    requires { heads + 1 < 2 ^ 64 }
    ensures { result ≡ spec.opens heads item.now }
{
    match item {
        Item::NamespaceHead(_, _) => heads + 1,
        Item::Close(_) => heads.saturating_sub(1),
        Item::Decl(_) => heads,
        Item::Empty(_) => heads,
    }
}

// Whether an item is a `}` where no namespace is open.
fn closes_none(heads: u64, item: &Item) -> bool
    ensures { result ≡ spec.closes_none heads item.now }
{
    match item {
        Item::Close(_) => heads == 0,
        _ => false,
    }
}

/// Takes the items of a unit, one after the other, so that a unit need not stand whole. `took` says that these were taken, in order.
pub trait Taker {
    ghost took: { Self → List Item → Type 0 };

    /// Takes one more item. Without memory nothing is said of what was taken.
    fn take(&mut self, item: Item) -> Result<(), Memory>
        ensures { OnOk result ((items : List Item) → took self.old items → took self.new (items ++ item ∷ [])) };
}

impl Taker for Items<Item> {
    ghost took = { λ it items. it ≡ items };

    fn take(&mut self, item: Item) -> Result<(), Memory> {
        self.push(item)?;
        Ok(())
    }
}

// What is answered at the end, which is at this token: whether no namespace is open.
#[tactic(auto, unfolding(cxx_reading::specs::Reading::span))]
fn ends(tokens: &Tokens, heads: u64, at: u32) -> Result<(), SyntaxFault>
    ensures { SaysOf tokens.now (spec.at_end tokens.now heads [] at) (λ items. items ≡ []) result }
{
    if heads == 0 {
        Ok(())
    } else {
        Err(SyntaxFault::S1(span(tokens, at, at).place))
    }
}

/// The items of a source text, each handed on as soon as it is read. Where no unit is derived, it answers as [`unit`] does, and some
/// items may have been handed on before.
#[tactic(auto, unfolding(cxx_reading::specs::Reading::span, cxx_grammar::specs::Units::unit), using(crate::proofs::UnitTurns::unit_turns, crate::proofs::Taking::sayings))]
pub fn unit_to<T: Taker>(alloc: Global, tokens: &Tokens, taker: &mut T) -> Result<(), SyntaxFault>
    requires { T.took taker.old [] }
    ensures { SaysOf tokens.now (spec.unit tokens.now) (T.took taker.new) result }
{
    let mut heads = 0;
    let mut at = 0;
    for _turn in 0..tokens.list.len() {
        if at as usize >= tokens.list.len() {
            return ends(tokens, heads, at);
        }
        match item(alloc, tokens, at) {
            Ok((x, after)) => {
                if closes_none(heads, &x) {
                    return Err(SyntaxFault::S1(span(tokens, at, at).place));
                }
                heads = opens(heads, &x);
                match taker.take(x) {
                    Ok(()) => at = after,
                    Err(Memory) => return Err(SyntaxFault::Memory),
                }
            }
            Err(ExprFault::S1) => return Err(SyntaxFault::S1(span(tokens, at, at).place)),
            Err(ExprFault::S2) => return Err(SyntaxFault::S2(span(tokens, at, at).place)),
            Err(ExprFault::Memory) => return Err(SyntaxFault::Memory),
        }
    }
    ends(tokens, heads, at)
}

/// The unit of a source text, exactly where the grammar derives one ([basic.link]). Otherwise the first item that is too
/// deep, or where nothing begins, or that is a `}` that closes no namespace, decides: `S2` at its first character where it
/// is too deep, and else `S1` there. Where all items read and a namespace is left open, it is `S1` just past the last
/// character. Or `Memory`, of which nothing is said.
#[tactic(auto, using(crate::proofs::Whole::whole, crate::proofs::Whole::refused))]
pub fn unit(alloc: Global, tokens: &Tokens) -> Result<Unit, SyntaxFault>
    ensures { Says tokens.now (spec.unit tokens.now) result }
{
    let mut items = Items::new(alloc);
    match unit_to(alloc, tokens, &mut items) {
        Ok(()) => Ok(Unit { items }),
        Err(fault) => Err(fault),
    }
}
