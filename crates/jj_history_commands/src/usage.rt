//! Strings that `--help` prints.

/// The name of the program.
pub const NAME: &str = "jj-history";

/// The form of a command line.
pub const SYNOPSIS: &str = "usage: jj-history DATABASE COMMAND [OPERAND..]\n";

/// The commands, one a line.
pub const HELP: &str = "
Keeps the history of a Git repository in an SQLite database, and answers questions about it.

  git fast-export --all --show-original-ids --use-done-feature | jj-history repo.db import
  jj-history repo.db log -r main

  import                      reads a stream of git fast-export, and continues an earlier import
  log [-r REV].. [FILESET]    draws the commits and their ancestors, of all refs without REV,
                              and with FILESET those that change such files
  heads                       the commits of refs that are no ancestors of others
  refs                        the refs, each after its commit
  bases A B ..                the merge bases of A and a merge of the others
  show REV                    a commit
  files REV [FILESET]         the paths of its files
  cat REV PATH                the content of a file
  diff A B [FILESET]          a patch from A to B, or the changed paths with --name-status
                              before A
  merge A B                   merges B into A, and names the merge MERGE. `--style S` before A,
                              with S diff, snapshot or git, is that of conflict markers
  check                       reads all commits, trees and files that the refs reach
  batch                       reads questions, a line each: a command above that only reads, and its
                              operands after TABs; prints for each a line with `ok` or `error` and a
                              number of bytes, that many bytes, and a line feed

  -h, --help                  this help
  -V, --version               the version

REV is a ref, in full or as `main`, or at least 4 digits of an ID. Commits are printed by their IDs
in Git, and by those of the database where they have none. FILESET is an expression of jj-filesets,
as 'src/** & ~tests'.

Status: 0, 1 after a fault, 2 after a wrong argument.

";
