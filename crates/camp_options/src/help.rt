//! The texts of `--help` and `--version`.

/// The version of camp, as `--version` of both programs prints it.
pub const VERSION: &str = "0.1.0";

pub(crate) const SUMMARY: &str =
    "Reads a script from standard input and writes its answers to standard output. --help has the language.";

pub(crate) const USAGE: &str = "camp [OPTIONS] < SCRIPT";

pub(crate) const REFERENCE: &str =
    "Reads a script from standard input and writes its answers to standard output. A script is a list of
commands, each on a line. They work on branches, which are lists of named patches; a patch changes
files of lines. At first there is one branch, main, without patches. Outside the bodies of edits,
lines of spaces and tabs alone are skipped, and so are lines whose first word begins with #.

The script

record main start add notes
record main hello edit notes 1
+hello
end
tree main

is answered by

ok 1
ok 2
tree 1
file notes 1
=hello

Commands, each with an example:
  branch NEW FROM               make a branch that is a copy       branch work main
  record BRANCH NAME add PATH   record an empty file that is new   record main start add notes
  record BRANCH NAME remove PATH
                                record that it goes, once empty    record main gone remove notes
  record BRANCH NAME edit PATH LINE
                                record lines put in place of others
                                                                   record main hello edit notes 1
  record BRANCH NAME group      record 1 to 64 changes as one patch; below it add PATH, remove PATH
                                or edit PATH LINE with its lines, and done
                                                                   record main all group
  pull FROM TO                  bring to TO all that it lacks      pull work main
  pull FROM TO NAME ..          bring these patches                pull work main hello
  obliterate BRANCH NAME ..     take these patches out             obliterate main hello
  tree BRANCH                   show the files                     tree main
  conflicts BRANCH              show the patches in conflict       conflicts main
  names BRANCH                  show the patches in their order    names main
  client                        what follows is of the next client, in a thread of its own

LINE counts from 1: the old lines begin at LINE. To append, LINE is the number of lines of
the file plus 1. Below an edit come the old lines, each after a -, then the new ones, each after
a +, and then end. Nothing comes before the sign, and no blanks before or after end.

A name has 1 to 40 of a-z, 0-9 and -, and does not begin with -. A path has 1 to 200 printing ASCII
characters without spaces; its parts between / are not empty, not . and not .. .

Limits of a script: 63 clients; 65536 commands that write for each of them, and for what comes
before the first; 4096 bytes in a line of an edit. A line ends with LF alone. A CR before it is a byte
of the line: a command with one is refused, with bad name, bad path, bad number, bad edit, bad group,
wrong number of words or unknown command. Take the CR out.

Answers:
  ok NUMBER                     the call was accepted, as the one of this number
  tree FILES                    then each file as: file PATH LINES, and its lines after =
  conflicts PAIRS               then each pair of patches that are in conflict
  names COUNT                   then each name
  refused NUMBER ..             the call was not accepted, and nothing has changed; see below. The
                                commands after it go on
  busy LOST                     the call lost LOST times to other clients; ask it again, or run with a
                                greater --tries, or with --serial
  full                          the client has no room for one more accepted call; a script within its
                                limits is never answered so
  client NUMBER                 what follows answers the calls of this client
  history COUNT                 with --history: each accepted call, after its number and its client

Refusals, and what to do:
  4 BRANCH                      there is no such branch: make it with branch
  5 BRANCH                      there is a branch of this name: take another name
  6 NAME                        some branch has a patch of this name: take another name
  7 NAME                        the branch has no such patch: see names
  8                             there is nothing to pull: TO has it all
  9                             too large: 65535 lines in a side of an edit, 1000000 lines in a file and,
                                without --limits, 256 branches and 4096 changes in a branch are the most
  10                            the change does not fit the files: see tree; correct path, LINE or lines
  11 PATCH ON                   PATCH depends on ON: pull ON too, or obliterate PATCH too
  12 NAME                       both branches have this patch, and in one of them it can't be moved before
                                what only that one has, or the two have it in forms that do not agree:
                                obliterate it and what depends on it in one of them, and pull again
  13 LEFT RIGHT                 the two do not merge: pull without RIGHT, or obliterate LEFT first
  14 BRANCH                     the two branches are one: name another

A conflict is not a refusal. Patches in conflict have no effect; record a patch that says what the lines
are to be, or obliterate one of the two.

Exit status:
  0  the script was run, whatever was refused
  1  the script has a fault, and nothing was run; standard error says camp: line LINE: FAULT
  2  the command line is refused
  3  memory ran out, or input or output failed; standard error says which

More: docs/language.md has the whole language and its faults, and examples/ has scripts to run. A
conversation (camp_shell) gives the cause of a fault or a refusal: ask it why.";
