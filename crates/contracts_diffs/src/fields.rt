//! A tokenizer of one's own: fields of tables, such as files of comma-separated values.
ghost use Rattle.std.specs.Prelude.{◌≡◌, ℕ, ◌≤◌, ◌++◌, List, length, map, All, IfOk};
ghost use Rattle.jj_diff.specs.Inputs.{side};
ghost use Rattle.jj_diff.specs.Hunks.{row_of, matched_start, AllMatch};
ghost use Rattle.jj_diff.specs.Tokens.{ends_where};
ghost use Rattle.jj_diff.specs.Tokenizers.{splitting_tokens};
ghost use Rattle.contracts_diffs.specs.Fields.{AreWholeFields, EndsInField, ends_field};
ghost use Rattle.contracts_diffs.specs.Lines.{HasEqualParts};

use jj_diff::diff::{CompareBytesExactly, ContentDiff, Tokenizer};
use std::alloc::{AllocError, Global};

/// Fields that end with the separator, or with the line.
#[derive(Copy, Clone, Debug, Drop)]
pub struct Fields {
    pub separator: u8,
}

impl Tokenizer for Fields {
    ghost is_end = { λ fields. ends_where (ends_field fields.separator) };

    fn is_end(&self, text: &[u8], end: usize) -> bool {
        end == text.len() || text[end - 1] == self.separator || text[end - 1] == b'\n'
    }

    ghost tokens = { λ fields. splitting_tokens (ends_field fields.separator) };
}

/// Compares two tables field by field.
#[tactic(auto, using(crate::proofs::WholeFields::field_steps))]
pub fn compare_fields<'a>(
    alloc: Global,
    left: &'a [u8],
    right: &'a [u8],
    separator: u8,
) -> Result<ContentDiff<'a>, AllocError>
    // The left parts of the hunks are the left table, and the right parts are the right one.
    ensures left { IfOk result (λ d. side 0 (map row_of d.hunks.items) ≡ left.now) }
    ensures right { IfOk result (λ d. side 1 (map row_of d.hunks.items) ≡ right.now) }
    // The two parts of a hunk that matches are equal.
    ensures matching { IfOk result (λ d. All (HasEqualParts (λ text. text)) d.hunks.items) }
    // No hunk cuts a field: each one ends with a field, or with the table.
    ensures fields { IfOk result
        (λ d. AreWholeFields separator left.now right.now d.hunks.items) }
    // Fields that both tables start with match.
    ensures before { IfOk result (λ d. (fields xs ys : List ℕ) → EndsInField separator fields
        → left.now ≡ fields ++ xs → right.now ≡ fields ++ ys
        → length fields ≤ matched_start d.hunks.items) }
    // Equal tables have no hunk that differs.
    ensures identity { IfOk result (λ d. left.now ≡ right.now → AllMatch d.hunks.items) }
{
    let fields = Fields { separator };
    let compared = ContentDiff::for_tokenizer(
        alloc,
        &[left, right],
        &fields,
        &CompareBytesExactly,
    )?;
    Ok(compared)
}
