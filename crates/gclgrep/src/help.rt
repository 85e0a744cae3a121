/// The words that the program takes, for a message.
pub const USAGE: &str =
    "usage: gclgrep [-o | -c | -l | -q] [-hNs] [-m N] [-d NAME=QUERY] [-D FILE] [-t N] QUERY [FILE]..; see docs/GREP.md";

/// What `--help` writes.
pub const HELP: &str = "usage: gclgrep [OPTION].. QUERY [FILE]..
Searches files for a structured query, and writes the lines that its answers meet.

  -o, --only-answers            write each answer by itself
  -c, --count                   write how many answers each file has
  -l, --files-with-answers      write the names of the files that have an answer
  -q, --quiet                   write nothing, and end at the first answer
  -h, --no-filename             write no names in front of lines
  -N, --no-line-number          write no line numbers
  -m N, --max-count N           take the first N answers of each file
  -d NAME=QUERY, --define NAME=QUERY
                                $NAME stands for (QUERY) in what follows
  -D FILE, --definitions FILE   read such definitions from a file, one on a line
  -t N, --threads N             search up to N files side by side, 1 to 16; without it 4
  -s, --no-messages             say nothing of files that cannot be read, and make no notes
      --help, --version

Without FILE, or with -, standard input is searched.
The status is 0 where there is an answer, 1 where there is none, and 2 where something was wrong.
";

/// What `--version` writes.
pub const VERSION: &str = "gclgrep 1\n";
