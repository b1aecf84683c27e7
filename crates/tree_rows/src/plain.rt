//! Types in words, as `enum 1 int scoped const * *const & [2]`.

use cxx_base::{EntityNo, IntKind};
use cxx_tree::{BasicType, CxxType, Layer, Layers};
use row_edge::RowFault;
use std::alloc::Global;

fn kind(word: &str) -> Option<IntKind> {
    match word {
        "bool" => Some(IntKind::Bool),
        "char" => Some(IntKind::Char),
        "schar" => Some(IntKind::SChar),
        "uchar" => Some(IntKind::UChar),
        "short" => Some(IntKind::Short),
        "ushort" => Some(IntKind::UShort),
        "int" => Some(IntKind::Int),
        "uint" => Some(IntKind::UInt),
        "long" => Some(IntKind::Long),
        "ulong" => Some(IntKind::ULong),
        "llong" => Some(IntKind::LongLong),
        "ullong" => Some(IntKind::ULongLong),
        _ => None,
    }
}

// What a type is made of, of which the words behind it may say more.
fn basic(word: &str) -> Option<BasicType> {
    match word {
        "void" => Some(BasicType::Void),
        "nullptr" => Some(BasicType::Nullptr),
        "info" => Some(BasicType::Info),
        "string_view" => Some(BasicType::StringView),
        "access_context" => Some(BasicType::AccessContext),
        "member_offset" => Some(BasicType::MemberOffset),
        "info_vector" => Some(BasicType::InfoVector),
        "class" => Some(BasicType::Class(EntityNo(0))),
        "enum" => Some(BasicType::Enum {
            entity: EntityNo(0),
            underlying: IntKind::Int,
            scoped: false,
            written: false,
        }),
        kind_name => Some(BasicType::Int(kind(kind_name)?)),
    }
}

// A class or an enumeration with a word of it: its number, its underlying kind, or a mark.
fn with_word(of: BasicType, word: &str) -> Option<BasicType> {
    match of {
        BasicType::Class(_) => Some(BasicType::Class(EntityNo(word.parse::<u32>().ok()?))),
        BasicType::Enum {
            entity,
            underlying,
            scoped,
            written,
        } => {
            let number = word.parse::<u32>();
            Some(BasicType::Enum {
                entity: match number {
                    Ok(n) => EntityNo(n),
                    Err(_) => entity,
                },
                underlying: kind(word).unwrap_or(underlying),
                scoped: scoped || word == "scoped",
                written: written || word == "written",
            })
        }
        _ => None,
    }
}

fn bound(word: &str) -> Option<u64> {
    let (number, _) = word.strip_prefix('[')?.split_once(']')?;
    number.parse::<u64>().ok()
}

/// The layer that a word says, as `*`, `*const`, `&` or `[2]`.
pub fn layer_of(word: &str) -> Option<Layer> {
    match word {
        "*" => Some(Layer::Pointer { is_const: false }),
        "*const" => Some(Layer::Pointer { is_const: true }),
        "&" => Some(Layer::Reference),
        other => Some(Layer::Array(bound(other)?)),
    }
}

// What a type is made of, whether it is const, and its layers, as the words behind the first say them. A word that says nothing makes it none.
fn with_words(
    alloc: Global,
    of: BasicType,
    words: &str,
) -> Result<(BasicType, bool, Layers), RowFault> {
    let mut basic = of;
    let mut is_const = false;
    let mut layers = Layers::none();
    for word in words.split_whitespace() {
        if word == "const" {
            is_const = true;
        } else if let Some(layer) = layer_of(word) {
            layers = layers.over(alloc, layer)?;
        } else {
            match with_word(basic, word) {
                Some(more) => basic = more,
                None => return Err(RowFault::Unread),
            }
        }
    }
    Ok((basic, is_const, layers))
}

/// The type that words say.
pub fn plain(alloc: Global, line: &str) -> Result<CxxType, RowFault> {
    let (first, rest) = line.split_once(' ').unwrap_or((line, ""));
    let Some(basic) = basic(first) else {
        return Err(RowFault::Unread);
    };
    let (basic, is_const, layers) = with_words(alloc, basic, rest)?;
    Ok(CxxType {
        basic,
        is_const,
        layers,
    })
}

// Layers with those that words say over them.
fn with_layers(alloc: Global, layers: Layers, words: &str) -> Result<Layers, RowFault> {
    let mut layers = layers;
    for word in words.split_whitespace() {
        match layer_of(word) {
            Some(layer) => layers = layers.over(alloc, layer)?,
            None => return Err(RowFault::Unread),
        }
    }
    Ok(layers)
}

/// The layers that words say, so many times over each other.
pub fn layered(alloc: Global, times: u64, words: &str) -> Result<Layers, RowFault> {
    let mut layers = Layers::none();
    for _ in 0..times {
        layers = with_layers(alloc, layers, words)?;
    }
    Ok(layers)
}

fn show_run(out: &mut String, layer: Layer, count: u64) -> Result<(), RowFault> {
    match layer {
        Layer::Pointer { is_const: true } => out.push_str(" *const")?,
        Layer::Pointer { is_const: false } => out.push_str(" *")?,
        Layer::Reference => out.push_str(" &")?,
        Layer::Array(n) => write!(out, " [{n}]")?,
    }
    if count > 1 {
        write!(out, "x{count}")?;
    }
    Ok(())
}

/// How many layers there are, and the first eight runs of equal ones, from the outermost on.
pub fn show_layers(out: &mut String, layers: Layers) -> Result<(), RowFault> {
    let len = layers.len();
    write!(out, "{len}")?;
    let mut layers = layers;
    for _ in 0..8 {
        let Some((layer, count)) = layers.outermost_run() else {
            return Ok(());
        };
        show_run(out, layer, count)?;
        layers = layers.under_run()?;
    }
    if layers.len() > 0 {
        out.push_str(" ..")?;
    }
    Ok(())
}
