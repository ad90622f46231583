//! Rendering catches.
ghost use Rattle.std.specs.Prelude.{◌≡◌, ◌++◌, IfOk, OnOk, string_bytes};
ghost use Rattle.camp_notation.specs.Catches.{catch_text, catches_text};

use crate::contexts::{append_contexted, append_set};
use crate::lists::append_list;
use crate::patches::append_named;
use crate::words::append_separator;
use camp_catch::{Catch, Conflictor};
use camp_prim::Named;
use camp_share::Shared;
use std::alloc::{AllocError, Global};

/// Renders a catch: a plain one as `[p]`, a conflictor as `([p^], {:p}, :q)`, with its effect, its conflicts
/// and its identity. Known primitives are rendered by their labels alone.
pub fn catch_text(alloc: Global, known: &[Named], j: &Catch) -> Result<String, AllocError>
    ensures exact { IfOk result (λ text. string_bytes text ≡ catch_text known.now j.now) }
{
    let mut text = String::new(alloc);
    append_catch(&mut text, known, j)?;
    Ok(text)
}

/// Renders a list of catches, as `[[p], ([p^], {:p}, :q)]`.
pub fn catches_text(
    alloc: Global,
    known: &[Named],
    list: &[Shared<Catch>],
) -> Result<String, AllocError>
    ensures exact { IfOk result (λ text. string_bytes text ≡ catches_text known.now list.now) }
{
    let mut text = String::new(alloc);
    append_catches(&mut text, known, list)?;
    Ok(text)
}

fn append_catches(
    text: &mut String,
    known: &[Named],
    list: &[Shared<Catch>],
) -> Result<(), AllocError>
    ensures { OnOk result (string_bytes text.new ≡ string_bytes text.old ++ catches_text known.now list.now) }
{
    text.push('[')?;
    for (at, j) in list.iter().enumerate() {
        append_separator(text, at)?;
        append_catch(text, known, j)?;
    }
    text.push(']')
}

fn append_catch(text: &mut String, known: &[Named], j: &Catch) -> Result<(), AllocError>
    ensures { OnOk result (string_bytes text.new ≡ string_bytes text.old ++ catch_text known.now j.now) }
{
    match j {
        Catch::Plain(a) => append_plain_catch(text, known, a),
        Catch::Conflictor(k) => append_conflictor(text, known, k),
    }
}

fn append_plain_catch(text: &mut String, known: &[Named], a: &Named) -> Result<(), AllocError>
    ensures { OnOk result (string_bytes text.new ≡ string_bytes text.old ++ catch_text known.now (Catch.Plain a.now)) }
{
    text.push('[')?;
    append_named(text, known, a)?;
    text.push(']')
}

fn append_conflictor(text: &mut String, known: &[Named], k: &Conflictor) -> Result<(), AllocError>
    ensures { OnOk result
        (string_bytes text.new ≡ string_bytes text.old ++ catch_text known.now (Catch.Conflictor k.now)) }
{
    text.push('(')?;
    append_list(text, known, k.effect.items())?;
    text.push_str(", ")?;
    append_set(text, known, &k.conflicts)?;
    text.push_str(", ")?;
    append_contexted(text, known, &k.identity)?;
    text.push(')')
}
