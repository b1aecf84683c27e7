//! String literals ([lex.string]).

ghost use Rattle.std.specs.Prelude.{◌≡◌, ◌++◌, chars, take, drop, IfOk, OnOk, encode_utf8_all, Ok, Err};
ghost use Rattle.cxx_tokens.specs.Cuts.{IsCut};
ghost use Rattle.cxx_tokens.specs.Gives.{Fails, GivesQuoted};
ghost use Rattle.cxx_tokens.specs.Literals as spec;
ghost use Rattle.cxx_tokens.specs.Literals.{Quoted as QuotedText};

use crate::escape::{Escape, escape_at};
use crate::fault::LexFault;
use crate::run::{Class, run};
use crate::text::{Cut, front, split_first};
use cxx_base::{Bytes, Memory, Place};
use std::alloc::Global;

/// The bytes that a string means, and what follows it.
#[derive(Debug, Drop)]
pub struct Quoted<'a> {
    pub bytes: Bytes,
    pub cut: Cut<'a>,
}

// Why no escape stands behind a backslash: its line ends, or there is none such.
fn no_escape(place: Place, text: &str) -> LexFault
    ensures { Fails {A = QuotedText} result (Err (spec.no_escape place (chars text.now))) }
{
    match split_first(text) {
        None | Some(('\n', _)) => LexFault::L4(place),
        Some(_) => LexFault::L2(place),
    }
}

// Puts the bytes of the first characters of a text at the end.
fn push_front(bytes: &mut Bytes, text: &str, count: usize, rest: &str) -> Result<(), Memory>
    requires { chars rest.now ≡ drop count (chars text.now) }
    ensures { OnOk result (bytes.new ≡ bytes.old ++ encode_utf8_all (take count (chars text.now))) }
{
    bytes.extend(front(text, count, rest).as_bytes())
}

/// The string behind its first quote, with the second one.
pub fn string_at(alloc: Global, place: Place, text: &str) -> Result<Quoted<'_>, LexFault>
    ensures quoted { GivesQuoted result (spec.string_at place (chars text.now)) }
    ensures cut { IfOk result (λ found. IsCut text.now found.cut) }
{
    let mut bytes = Bytes::new(alloc);
    let mut length = 0;
    let mut rest = text;
    while let Some((c, after)) = split_first(rest) {
        if c == '"' {
            let cut = Cut {
                length: length + 1,
                rest: after,
            };
            return Ok(Quoted { bytes, cut });
        }
        if c == '\n' {
            break;
        }
        if c == '\\' {
            match escape_at(after) {
                None => return Err(no_escape(place, after)),
                Some(escape) => {
                    bytes.push(escape.byte)?;
                    length += 1 + escape.cut.length;
                    rest = escape.cut.rest;
                }
            }
        } else {
            let plain = run(Class::Plain, after);
            let count = 1 + plain.length;
            push_front(&mut bytes, rest, count, plain.rest)?;
            length += count;
            rest = plain.rest;
        }
    }
    Err(LexFault::L4(place))
}
