//! Comparisons by tokenizers of a caller, and hunks that a caller makes; worked by hand.
ghost use Rattle.std.specs.Prelude.{ℕ, ◌==◌};
ghost use Rattle.std.specs.Char.{is_ascii_uppercase};
ghost use Rattle.jj_diff.specs.Tokens.{ends_where};
ghost use Rattle.jj_diff.specs.Tokenizers.{splitting_tokens};

use crate::hunk_tests::write_hunks;
use jj_diff::diff::{CompareBytesExactly, ContentDiff, DiffHunk, Lines, Tokenizer};
use std::alloc::{AllocError, Global};
use std::test::Fail;

// Fields that end with a comma, or with the input.
#[derive(Copy, Clone, Debug, Drop)]
struct Fields;

impl Tokenizer for Fields {
    ghost is_end = { λ tokenizer. ends_where (λ before after. before == 44) };

    fn is_end(&self, text: &[u8], end: usize) -> bool {
        end == text.len() || text[end - 1] == b','
    }

    ghost tokens = { λ tokenizer. splitting_tokens (λ before after. before == 44) };
}

// Words of names in camel case: each starts with an upper-case letter.
#[derive(Copy, Clone, Debug, Drop)]
struct CamelCase;

impl Tokenizer for CamelCase {
    ghost is_end = { λ tokenizer. ends_where (λ before after. is_ascii_uppercase after) };

    fn is_end(&self, text: &[u8], end: usize) -> bool {
        end == text.len() || text[end].is_ascii_uppercase()
    }

    ghost tokens = { λ tokenizer. splitting_tokens (λ before after. is_ascii_uppercase after) };
}

fn show<T: Tokenizer>(
    alloc: Global,
    tokenizer: &T,
    left: &str,
    right: &str,
) -> Result<Vec<u8>, AllocError> {
    let inputs = [left.as_bytes(), right.as_bytes()];
    let compared = ContentDiff::for_tokenizer(alloc, &inputs, tokenizer, &CompareBytesExactly)?;
    write_hunks(alloc, &compared.hunks)
}

#[test]
fn tokenizers_of_a_caller(rt: HostRuntime) -> Result<(), Fail> {
    let alloc = rt.alloc();
    let ends = Fields.find_ends(alloc, b"a,,bc")?;
    assert_eq!(rt; ends.as_slice(), [2, 3, 5].as_slice());
    let fields = show(alloc, &Fields, "1,ann b,x", "1,ann c,x")?;
    assert_eq!(rt; fields.as_slice(), b"=1,<ann b,>ann c,=x".as_slice());
    let last = show(alloc, &Fields, "a,b", "a,b,")?;
    assert_eq!(rt; last.as_slice(), b"=a,<b>b,".as_slice());
    let names = show(alloc, &CamelCase, "getUserName", "getUserId")?;
    assert_eq!(rt; names.as_slice(), b"=getUser<Name>Id".as_slice());
    let none = show(alloc, &CamelCase, "username", "userid")?;
    assert_eq!(rt; none.as_slice(), b"<username>userid".as_slice());
    Ok(())
}

#[test]
fn lines_refined_by_fields(rt: HostRuntime) -> Result<(), Fail> {
    let alloc = rt.alloc();
    let inputs = [b"a,b\n1,2\n".as_slice(), b"a,b\n1,3\n".as_slice()];
    let mut compared = ContentDiff::for_tokenizer(alloc, &inputs, &Lines, &CompareBytesExactly)?;
    compared.refine_changed_regions(alloc, &Fields, &CompareBytesExactly)?;
    let text = write_hunks(alloc, &compared.hunks)?;
    assert_eq!(rt; text.as_slice(), b"=a,b\n1,<2\n>3\n".as_slice());
    Ok(())
}

#[test]
fn hunks_of_a_caller(rt: HostRuntime) -> Result<(), Fail> {
    let alloc = rt.alloc();
    let same = vec![in alloc; b"a".as_slice(), b"a".as_slice()]?;
    let changed = vec![in alloc; b"b".as_slice(), b"".as_slice()]?;
    let mut hunks = Vec::new(alloc);
    hunks.push(DiffHunk::matching(same))?;
    hunks.push(DiffHunk::different(changed))?;
    let text = write_hunks(alloc, &hunks)?;
    assert_eq!(rt; text.as_slice(), b"=a<b>".as_slice());
    Ok(())
}
