//! The text of `names --help`.

/// The text of `names --help`.
pub(crate) const HELP: &str =
    "Serves a table of names to up to eight clients at once, over the store in a folder.

Usage: names FOLDER
       names --help

FOLDER has the store that this makes: lcrvm init --threads 8 --pages 16 --words 4096 FOLDER

It reads lines CLIENT COMMAND from standard input, as they come, up to its end; CLIENT is 0 to 7. Each client is
served by a thread, its commands in their order. A reply is printed at once when the change is durable, and when what
it tells is durable: who has read it knows that a kill takes nothing of it away. Each line of a reply has the number
of its client in front:

  create NAME [ATTRIBUTES]  created, or refused BadName, BadAttributes, Exists or Full
  rename NAME NEW           renamed, or refused BadName, NoName or Exists
  remove NAME               removed, or refused BadName or NoName
  find NAME                 attributes ATTRIBUTES, or refused BadName or NoName
  list                      name NAME for each name, and then listed N

A name has 1 to 31 bytes, attributes have 0 to 31, and neither has a blank. Each command is refused NoTable where the
store holds no table of names, and `refused: ` and why where the transaction is refused. Another line, and one of more
than 255 bytes, is replied to by `line K: not understood`, in its place among those of its client. Client 0 has those
that name no client, and their reply has no number in front.

Status:
  0  each line was understood, and the input has ended
  1  standard input or standard output failed, or there was no memory; standard error says which
  2  a line was not understood; or nothing was done, as there is not one FOLDER
  3  the store was not opened, or a device failed; `device fault` is printed last, and why on standard error
";
