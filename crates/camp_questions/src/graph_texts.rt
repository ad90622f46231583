//! Graphs as text in DOT.
ghost use Rattle.std.specs.Prelude.{◌≡◌, ◌++◌, IfOk, OnOk, codes, string_bytes};
ghost use Rattle.std.specs.List.{flat_map};
ghost use Rattle.camp_questions.specs.GraphTexts.{arrow_text, conflict_style, conflict_text, graph_text, is_pair_among, node_text};

use crate::{Node, Picture};
use camp_base::Name;
use std::alloc::{AllocError, Global};
use std::fmt::Write;

/// Renders a graph in DOT, which Graphviz draws: an arrow leads from a patch to each of its direct
/// dependencies, and a line joins two that are in conflict, bold if it is unresolved and dashed if it is
/// resolved.
pub fn graph_text(alloc: Global, picture: &Picture) -> Result<String, AllocError>
    ensures exact { IfOk result (λ text. string_bytes text ≡ graph_text picture.now) }
{
    let mut text = String::new(alloc);
    text.push_str(
        "digraph {\n  rankdir=LR;\n  node [shape=box, style=rounded, height=0.3];\n  edge [color=gray50, arrowsize=0.6];\n",
    )?;
    append_nodes(&mut text, picture.patches())?;
    let unsettled = picture.unsettled().pairs();
    append_conflicts(&mut text, unsettled, picture.conflicts().pairs())?;
    text.push_str("}\n")?;
    Ok(text)
}

fn append_nodes(text: &mut String, nodes: &[Node]) -> Result<(), AllocError>
    ensures { OnOk result (string_bytes text.new ≡ string_bytes text.old ++ flat_map node_text nodes.now) }
{
    for node in nodes {
        append_node(text, node)?;
    }
    Ok(())
}

fn append_node(text: &mut String, node: &Node) -> Result<(), AllocError>
    ensures { OnOk result (string_bytes text.new ≡ string_bytes text.old ++ node_text node.now) }
{
    writeln!(text, "  \"{}\";", node.name)?;
    append_needs(text, &node.name, node.needs.as_slice())
}

fn append_needs(text: &mut String, name: &Name, needs: &[Name]) -> Result<(), AllocError>
    ensures { OnOk result
        (string_bytes text.new ≡ string_bytes text.old ++ flat_map (λ on. arrow_text name.now on (codes ";")) needs.now) }
{
    for on in needs {
        append_arrow(text, name, on, ";")?;
    }
    Ok(())
}

fn append_conflicts(
    text: &mut String,
    unsettled: &[(Name, Name)],
    pairs: &[(Name, Name)],
) -> Result<(), AllocError>
    ensures { OnOk result (string_bytes text.new ≡ string_bytes text.old ++ flat_map (conflict_text unsettled.now) pairs.now) }
{
    for pair in pairs {
        append_conflict(text, unsettled, pair)?;
    }
    Ok(())
}

fn append_conflict(
    text: &mut String,
    unsettled: &[(Name, Name)],
    pair: &(Name, Name),
) -> Result<(), AllocError>
    ensures { OnOk result (string_bytes text.new ≡ string_bytes text.old ++ conflict_text unsettled.now pair.now) }
{
    let style = conflict_style(is_among(unsettled, pair));
    append_arrow(text, &pair.0, &pair.1, style)
}

/// Returns the attributes of an unresolved or a resolved conflict.
fn conflict_style(is_open: bool) -> &'static str
    ensures { result.now ≡ conflict_style is_open }
{
    if is_open {
        " [dir=none, constraint=false, color=red, style=bold];"
    } else {
        " [dir=none, constraint=false, color=rosybrown2, style=dashed];"
    }
}

fn is_among(pairs: &[(Name, Name)], pair: &(Name, Name)) -> bool
    ensures { result ≡ is_pair_among pairs.now pair.now }
{
    pairs.contains(pair)
}

fn append_arrow(
    text: &mut String,
    name: &Name,
    other: &Name,
    behind: &str,
) -> Result<(), AllocError>
    ensures { OnOk result
        (string_bytes text.new ≡ string_bytes text.old ++ arrow_text name.now other.now behind.now) }
{
    writeln!(text, "  \"{name}\" -> \"{other}\"{behind}")
}
