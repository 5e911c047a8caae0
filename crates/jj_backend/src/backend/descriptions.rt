//! Descriptions of conflicts for users: one line for each present term.
ghost use Rattle.std.specs.Prelude.{◌≡◌, ◌++◌, map, OnOk, string_bytes};
ghost use Rattle.std.specs.Option.{option_copied, option_map};
ghost use Rattle.jj_backend.specs.MergedTreeValues.{file_kind, kind_and_id, value_string, label_string, newline, line, lines};

use super::TreeValue;
use super::merged_tree_value::{AsTreeValue, term_value};
use jj_ids::object_id::{Id, IdKind, ObjectId};
use jj_merges::merge::EverySecond;
use std::alloc::{AllocError, Global};

fn push_id<K: IdKind>(
    alloc: Global,
    text: &mut String,
    kind: &str,
    id: &Id<K>,
) -> Result<(), AllocError>
    ensures { OnOk result (string_bytes text.new ≡ string_bytes text.old
        ++ kind_and_id kind.now id.now) }
{
    let hex = id.hex(alloc)?;
    text.push_str(kind)?;
    text.push_str(" with id ")?;
    text.push_str(hex.as_str())
}

fn file_kind(executable: bool) -> &'static str
    ensures { result.now ≡ file_kind executable }
{
    if executable {
        "executable file"
    } else {
        "file"
    }
}

fn push_value(alloc: Global, text: &mut String, value: &TreeValue) -> Result<(), AllocError>
    ensures { OnOk result (string_bytes text.new
        ≡ string_bytes text.old ++ value_string value.now) }
{
    match value {
        TreeValue::File { id, executable, .. } => {
            push_id(alloc, text, file_kind(*executable), id)
        }
        TreeValue::Symlink(id) => push_id(alloc, text, "symlink", id),
        TreeValue::Tree(id) => push_id(alloc, text, "tree", id),
        TreeValue::GitSubmodule(id) => push_id(alloc, text, "Git submodule", id),
    }
}

// Appends a label in parentheses; appends nothing for an empty label.
fn push_label(text: &mut String, label: &str) -> Result<(), AllocError>
    ensures { OnOk result (string_bytes text.new
        ≡ string_bytes text.old ++ label_string label.now) }
{
    if label.is_empty() {
        return Ok(());
    }
    text.push_str(" (")?;
    text.push_str(label)?;
    text.push_str(")")
}

// Appends nothing for an absent term.
fn push_line(
    alloc: Global,
    text: &mut String,
    done: &str,
    value: Option<&TreeValue>,
    label: &str,
) -> Result<(), AllocError>
    ensures { OnOk result (string_bytes text.new
        ≡ string_bytes text.old ++ line done.now (option_copied value.entry) label.now) }
{
    match value {
        Some(value) => {
            text.push_str(done)?;
            push_value(alloc, text, value)?;
            push_label(text, label)?;
            text.push_str("\n")
        }
        None => Ok(()),
    }
}

// Pairs each term with the label at the same index; a term beyond the labels has none.
pub(super) fn push_lines<T: AsTreeValue>(
    alloc: Global,
    text: &mut String,
    done: &str,
    terms: EverySecond<'_, Option<T>>,
    labels: EverySecond<'_, String>,
) -> Result<(), AllocError>
    ensures { OnOk result (string_bytes text.new ≡ string_bytes text.old
        ++ lines done.now (map (option_map T.value_of) terms.entry)
        (map string_bytes labels.entry)) }
{
    let mut labels = labels;
    for term in terms {
        let label = match labels.next() {
            Some(label) => label.as_str(),
            None => "",
        };
        push_line(alloc, text, done, term_value(term), label)?;
    }
    Ok(())
}
