//! Sets of expressions, and the errors of those that spell none. Expected values are by hand.
use crate::callers::paths_in;
use jj_filesets::fileset::FilesetParseError;
use jj_paths::repo_path::RepoPath;
use std::alloc::Global;
use std::test::Fail;

const PATHS: &[&str] = &[
    "src/lib.rs",
    "src/a/b.rs",
    "tests/t.rs",
    "a b",
    "README.md",
    "all",
];

// The paths in the set, each with `;`, or the error.
fn described(alloc: Global, expression: &str) -> Result<String, Fail> {
    let mut paths = Vec::new(alloc);
    for path in PATHS {
        paths.push(RepoPath::from_internal_string(alloc, path)?)?;
    }
    match paths_in(alloc, expression, &paths) {
        Ok(found) => listed(alloc, &found),
        Err(error) => Ok(error.to_string(alloc)?),
    }
}

fn listed(alloc: Global, paths: &[RepoPath<'_>]) -> Result<String, Fail> {
    let mut line = String::new(alloc);
    for path in paths {
        line.push_str(path.as_internal_file_string())?;
        line.push(';')?;
    }
    Ok(line)
}

// Each expression, and its set or its error.
static SETS: [(&str, &str); 33] = [
    ("src/** & ~tests", "src/lib.rs;src/a/b.rs;"),
    ("all() ~ src", "tests/t.rs;a b;README.md;all;"),
    ("none()", ""),
    ("all", "all;"),
    ("tests | src & *.md", "tests/t.rs;"),
    ("(tests | src) & **/*.rs ~ src/a", "src/lib.rs;tests/t.rs;"),
    ("~src ~ tests | src/a", "src/a/b.rs;a b;README.md;all;"),
    ("~~README.md", "README.md;"),
    ("s*", "src/lib.rs;src/a/b.rs;"),
    ("glob:s*", ""),
    ("file:src | file:'a b'", "a b;"),
    (r#"prefix:"src" & "\x61 b" | root:"a\x20b""#, "a b;"),
    (
        r#""""#,
        "src/lib.rs;src/a/b.rs;tests/t.rs;a b;README.md;all;",
    ),
    ("{}", "src/lib.rs;src/a/b.rs;tests/t.rs;a b;README.md;all;"),
    (
        r#"prefix-glob:"""#,
        "src/lib.rs;src/a/b.rs;tests/t.rs;a b;README.md;all;",
    ),
    (r#"glob:"""#, ""),
    ("all( \t) & ./src/", "src/lib.rs;src/a/b.rs;"),
    (".", "src/lib.rs;src/a/b.rs;tests/t.rs;a b;README.md;all;"),
    ("glob:./src/*.rs", "src/lib.rs;"),
    (
        "../src",
        "at 0: expected a path relative to the root, as a/b",
    ),
    (
        "src | /a",
        "at 6: expected a path relative to the root, as a/b",
    ),
    (
        "glob:/*",
        "at 5: expected a path relative to the root, as a/b",
    ),
    ("", "at 0: expected an operand"),
    ("src &", "at 5: expected an operand"),
    (
        "src ( tests",
        "at 4: expected an operator; a path with blanks is in quotes",
    ),
    ("all(src)", "at 4: expected no arguments"),
    (
        "some()",
        "at 0: unknown function; a path with parentheses is in quotes",
    ),
    (
        "cwd:src",
        "at 0: unknown kind of pattern; a path with a colon is in quotes",
    ),
    ("src | (tests", "at 6: unclosed parenthesis"),
    ("src)", "at 3: unopened parenthesis"),
    (r#""\q""#, "at 2: invalid escape"),
    ("a//b", "at 0: expected a path relative to the root, as a/b"),
    ("src | file: tests", "at 11: expected a string"),
];

#[test]
fn sets(rt: HostRuntime) -> Result<(), Fail> {
    let alloc = rt.alloc();
    for (expression, expected) in SETS.iter() {
        let found = described(alloc, expression)?;
        assert_eq!(rt; found.as_str(), *expected, "{expression}");
    }
    Ok(())
}
