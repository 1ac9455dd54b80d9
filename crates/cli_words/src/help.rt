//! What help says: of the program, of each subcommand and of each option.

/// What help says of an option.
#[derive(Clone, Copy)]
pub(crate) struct OptionHelp<'a> {
    /// The name of its value.
    pub(crate) value_name: &'a str,
    /// The line of `-h`.
    pub(crate) short: &'a str,
    /// The lines of `--help`.
    pub(crate) long: &'a str,
}

/// The heading of the options that give the problem.
pub(crate) const PROBLEM: &str = "Problem";

/// The heading of the options that name further files that are read.
pub(crate) const INPUT: &str = "Input";

/// The heading of the options that name files that are written.
pub(crate) const OUTPUT: &str = "Output";

/// The heading of the options that bound a search, a check or a board.
pub(crate) const SEARCH: &str = "Search";

/// What `-h` begins with.
pub(crate) const ABOUT: &str =
    "Finds, checks and judges the county groupings of legislative districts in North Carolina";

/// What `--help` begins with.
pub(crate) const LONG_ABOUT: &str = "\
Finds, checks and judges the county groupings of legislative districts in North Carolina.

You give the counties, their borders and the number of seats. `solve` finds the best grouping with a
certificate, `check` tests the certificate, and `list` shows every grouping that is as good. `judge`
looks at a grouping that you have, and `audit` at a plan's districts. `size` needs no borders: it
shows how many seats each county's people suit. `share`, `piece` and `worker` are for a proof that
several computers or processes share.

*Lawful* means here that the groups meet the conditions, and no more. You may use a lawful grouping
only if it is best: look for `answer best`.";

/// What `--help` ends with.
pub(crate) const AFTER_HELP: &str = "\
Example:
  countygroups solve --geo nc2020geo.pl --segment nc000012020.pl --chamber 50 \\
      --adjacency county_adjacency2023.txt --certificate senate.certificate --out senate.grouping

`countygroups help` is this text, `countygroups COMMAND --help` tells all of a command, and
`countygroups COMMAND -h` has one line for each option.

Exit status:
  0  an answer, help or the version
  1  a fault of the grouping, a greater one, a finding, no lawful grouping, or a text that is no
     certificate
  2  the words are no command
  3  the steps of `solve` or `piece` or the budget of `check`, `list` or `share` ran out, `list`
     stays open, or `share` has pieces left
  4  a file, the problem, the board, a text that `worker` reads, or the number of a grouping or of a
     piece was refused
  5  a file could not be read or stored, memory was refused, or the answer could not be written

A file's name is its path. For one file that is read, `-` is standard input. Without any word a
case is read from standard input: the words on its first line, then each file after a line
`file NAME`.";

/// What `solve --help` ends with.
pub(crate) const AFTER_SOLVE: &str = "\
The best grouping has the most groups of one county, then the most of two, and so on. A text of a
proof, the certificate, shows that no lawful grouping is better: store it with --certificate.

A step takes 0.9 to 4 microseconds, so the default 10,000,000 steps take at most about 40 seconds.
If the steps run out, give more, or store with --events what was proved by then. The proof goes on
from there on a board of the grouping of --out to which `share` or `piece` gives these events.

Examples:
  countygroups solve --geo nc2020geo.pl --segment nc000012020.pl --chamber 50 \\
      --adjacency county_adjacency2023.txt --certificate senate.certificate --out senate.grouping
  countygroups solve --people estimates.csv --chamber 50 --adjacency county_adjacency2023.txt

Exit status:
  0  the grouping is the best one; it, its certificate and its table are stored
  1  no grouping is lawful; the certificate of it is stored
  2  the words are no command
  3  the steps ran out; a lawful grouping that was found is stored, its table and its events
  4  a file or the problem was refused
  5  a file could not be read or stored, memory was refused, or the answer could not be written";

/// What `check --help` ends with.
pub(crate) const AFTER_CHECK: &str = "\
It goes through the whole proof again, with the files that you give, and trusts nothing in it.
If the proof holds, no lawful grouping is better than the certificate's.

Example:
  countygroups check --geo nc2020geo.pl --segment nc000012020.pl --chamber 50 \\
      --adjacency county_adjacency2023.txt --certificate senate.certificate

Exit status:
  0  the certificate proves that its grouping is the best one; the table of it is stored
  1  it proves that no grouping is lawful, or the text is no certificate of these files
  2  the words are no command
  3  the budget ran out
  4  a file or the problem was refused
  5  a file could not be read or stored, memory was refused, or the answer could not be written";

/// What `judge --help` ends with.
pub(crate) const AFTER_JUDGE: &str = "\
*Lawful* means here that the groups meet the conditions. You may use a lawful grouping only if it is
best, too. With --certificate it asks whether the grouping is best. If the certificate proves that a
grouping with the same counts is best, the report says `answer best` in place of `answer lawful`.
Else standard error says why not.

With --table it stores the table of a lawful grouping, which joins to shapes by GEOID.

Example:
  countygroups judge --geo nc2020geo.pl --segment nc000012020.pl --chamber 50 \\
      --adjacency county_adjacency2023.txt --grouping senate2023.grouping

Exit status:
  0  the grouping is lawful
  1  it isn't, and this is its first fault, or the certificate's grouping has greater counts
  2  the words are no command
  4  a file or the problem was refused
  5  a file could not be read or stored, memory was refused, or the answer could not be written";

/// What `list --help` ends with.
pub(crate) const AFTER_LIST: &str = "\
It shows the groups that every best grouping has, and for each region of the other counties the
alternatives that best groupings choose from. With --number and --out it stores one grouping too:
they are numbered from 1, in the order of their lists of groups. With --which the last line tells
which number the grouping of a file has: its sets count, and its seats don't.

With --groupings it stores one table of all best groupings, which joins to shapes by GEOID.

Example:
  countygroups list --geo nc2020geo.pl --segment nc000012020.pl --chamber 50 \\
      --adjacency county_adjacency2023.txt --certificate senate.certificate

Exit status:
  0  these are all best groupings; with --which, the file's grouping is one of them
  1  no grouping is lawful, the text is no certificate of these files, or the grouping of --which
     isn't one of the best
  2  the words are no command
  3  the budget ran out, or the certificate doesn't show which other groupings are best
  4  a file, the problem or the number was refused
  5  a file could not be read or stored, memory was refused, or the answer could not be written";

/// What `size --help` ends with.
pub(crate) const AFTER_SIZE: &str = "\
It shows the people of all counties, the fewest and the most that a district may have, and for each
county its people and the numbers of seats that they suit.

Examples:
  countygroups size --geo nc2020geo.pl --segment nc000012020.pl --chamber 120
  countygroups size --people estimates.csv --chamber 120

Exit status:
  0  the table
  2  the words are no command
  4  a file or the problem was refused
  5  a file could not be read or stored, memory was refused, or the answer could not be written";

/// What `audit --help` ends with.
pub(crate) const AFTER_AUDIT: &str = "\
It tells each district that crosses two groups or has too many or too few people, each group with
another number of districts than seats, and each block that is unknown, named twice or in no
district. Whether districts are contiguous or compact, and the Voting Rights Act, are not looked at.

The blocks are read from the census files. If you give --people beside them, the counties and their
people are those of that table.

With --districts it stores a table of all districts: their people, and their groups and counties.

Example:
  countygroups audit --geo ncgeo2020.pl --segment nc000012020.pl --chamber 50 \\
      --adjacency county_adjacency2023.txt --grouping senate.grouping --assignments plan.csv

Exit status:
  0  nothing was found
  1  something was found, or the grouping isn't lawful
  2  the words are no command
  4  a file or the problem was refused
  5  a file could not be read or stored, memory was refused, or the answer could not be written";

/// What `share --help` ends with.
pub(crate) const AFTER_SHARE: &str = "\
A board cuts the proof that the grouping is the best one into pieces. Solvers prove them with
`piece`. What `piece` prints, in any order, is the text of events. The answer has one line for each
event. If no piece is left, their proofs are joined to one certificate, which `check` tests like any
other.

With --depth the board is plain, and --limit must be given. Without --depth it is wide: a piece that
is too hard is split, and the longest group of the grouping is the limit if --limit isn't given.

Example:
  countygroups share --geo nc2020geo.pl --segment nc000012020.pl --chamber 50 \\
      --adjacency county_adjacency2023.txt --grouping senate.grouping --events senate.events \\
      --certificate senate.certificate

Exit status:
  0  the proofs are joined; if --certificate names a file, the certificate is stored
  2  the words are no command
  3  pieces are left, or the budget is too small to open the board
  4  a file, the problem or the board was refused
  5  a file could not be read or stored, memory was refused, or the answer could not be written";

/// What `piece --help` ends with.
pub(crate) const AFTER_PIECE: &str = "\
The board is that of `share`. If --events is given, the board takes these events first.

It prints an event for `share`: `result` with a proof of the piece, `better` with a better grouping,
or `wider` if the limit must grow. If the steps run out, it prints `part` with what it proved of the
piece, or `open` if it began no branch.

Example:
  countygroups piece --geo nc2020geo.pl --segment nc000012020.pl --chamber 50 \\
      --adjacency county_adjacency2023.txt --grouping senate.grouping --round 1 --number 1

Exit status:
  0  a result for `share`: `result`, `better` or `wider`
  2  the words are no command
  3  the steps ran out, or opening the board would take more than 10,000,000
  4  a file, the problem or the board was refused, or no piece waits under the number
  5  a file could not be read or stored, memory was refused, or the answer could not be written";

/// What `worker --help` ends with.
pub(crate) const AFTER_WORKER: &str = "\
It reads texts from /dev/stdin: `round` with its target, and `open` with the state of a piece. For
each piece it prints what `piece` prints and a line `end`, at once. It keeps its lists of groups
from piece to piece. The pieces are those of wide rounds.

Example:
  countygroups worker --geo nc2020geo.pl --segment nc000012020.pl --chamber 50 \\
      --adjacency county_adjacency2023.txt

Exit status:
  0  the texts ended
  2  the words are no command
  4  a file, the problem or a text was refused
  5  a file could not be read or stored, memory was refused, or the answer could not be written";

/// How the words of `solve` stand.
pub(crate) const USAGE_SOLVE: &str = "\
countygroups solve --geo <FILE> --segment <FILE> --chamber <SEATS> --adjacency <FILE>
           [OPTIONS]
       countygroups solve --people <FILE> --chamber <SEATS> --adjacency <FILE> [OPTIONS]";

/// How the words of `check` stand.
pub(crate) const USAGE_CHECK: &str = "\
countygroups check --geo <FILE> --segment <FILE> --chamber <SEATS> --adjacency <FILE>
           --certificate <FILE> [OPTIONS]
       countygroups check --people <FILE> --chamber <SEATS> --adjacency <FILE>
           --certificate <FILE> [OPTIONS]";

/// How the words of `judge` stand.
pub(crate) const USAGE_JUDGE: &str = "\
countygroups judge --geo <FILE> --segment <FILE> --chamber <SEATS> --adjacency <FILE>
           --grouping <FILE> [OPTIONS]
       countygroups judge --people <FILE> --chamber <SEATS> --adjacency <FILE>
           --grouping <FILE> [OPTIONS]";

/// How the words of `list` stand.
pub(crate) const USAGE_LIST: &str = "\
countygroups list --geo <FILE> --segment <FILE> --chamber <SEATS> --adjacency <FILE>
           --certificate <FILE> [OPTIONS]
       countygroups list --people <FILE> --chamber <SEATS> --adjacency <FILE>
           --certificate <FILE> [OPTIONS]";

/// How the words of `size` stand.
pub(crate) const USAGE_SIZE: &str = "\
countygroups size --geo <FILE> --segment <FILE> --chamber <SEATS> [OPTIONS]
       countygroups size --people <FILE> --chamber <SEATS> [OPTIONS]";

/// How the words of `audit` stand.
pub(crate) const USAGE_AUDIT: &str = "\
countygroups audit --geo <FILE> --segment <FILE> --chamber <SEATS> --adjacency <FILE>
           --grouping <FILE> --assignments <FILE> [OPTIONS]";

/// How the words of `share` stand.
pub(crate) const USAGE_SHARE: &str = "\
countygroups share --geo <FILE> --segment <FILE> --chamber <SEATS> --adjacency <FILE>
           --grouping <FILE> --events <FILE> [OPTIONS]
       countygroups share --people <FILE> --chamber <SEATS> --adjacency <FILE>
           --grouping <FILE> --events <FILE> [OPTIONS]";

/// How the words of `piece` stand.
pub(crate) const USAGE_PIECE: &str = "\
countygroups piece --geo <FILE> --segment <FILE> --chamber <SEATS> --adjacency <FILE>
           --grouping <FILE> --round <NUMBER> --number <NUMBER> [OPTIONS]
       countygroups piece --people <FILE> --chamber <SEATS> --adjacency <FILE>
           --grouping <FILE> --round <NUMBER> --number <NUMBER> [OPTIONS]";

/// How the words of `worker` stand.
pub(crate) const USAGE_WORKER: &str = "\
countygroups worker --geo <FILE> --segment <FILE> --chamber <SEATS> --adjacency <FILE>
           [OPTIONS]
       countygroups worker --people <FILE> --chamber <SEATS> --adjacency <FILE> [OPTIONS]";

/// What help says of `--geo`.
pub(crate) const GEO: OptionHelp<'static> = OptionHelp {
    value_name: "FILE",
    short: "The census geographic header, as nc2020geo.pl",
    long: "The geographic header of the Census Bureau's PL 94-171 files, as nc2020geo.pl. Give\n\
        --segment with it.",
};

/// What help says of `--segment`.
pub(crate) const SEGMENT: OptionHelp<'static> = OptionHelp {
    value_name: "FILE",
    short: "The census data segment 1, as nc000012020.pl",
    long: "Data segment 1 of the Census Bureau's PL 94-171 files, as nc000012020.pl. Give --geo\n\
        with it.",
};

/// What help says of `--people`.
pub(crate) const PEOPLE: OptionHelp<'static> = OptionHelp {
    value_name: "FILE",
    short: "A table of the counties' people, in place of --geo and --segment",
    long: "A table of the counties and their people, in place of --geo and --segment: use it for\n\
        estimates and projections. Each line has a county's code of five digits, its people\n\
        and, if you like, its name, with commas or pipes between them. Lines of other states\n\
        are passed over.",
};

/// What help says of `--people` of `audit`.
pub(crate) const AUDIT_PEOPLE: OptionHelp<'static> = OptionHelp {
    value_name: "FILE",
    short: "A table of the counties' people, beside --geo and --segment",
    long: "A table of the counties and their people. With it the problem takes the counties and\n\
        their people from this table, while the blocks are still read from --geo and\n\
        --segment.",
};

/// What help says of `--chamber`.
pub(crate) const CHAMBER: OptionHelp<'static> = OptionHelp {
    value_name: "SEATS",
    short: "The number of seats, 1 to 1000",
    long: "The number of seats of the chamber, 1 to 1000: 50 for the Senate, 120 for the House.",
};

/// What help says of `--state`.
pub(crate) const STATE: OptionHelp<'static> = OptionHelp {
    value_name: "CODE",
    short: "The state's FIPS code, 0 to 99",
    long: "The state's FIPS code, 0 to 99. North Carolina's is 37.",
};

/// What help says of `--tolerance`.
pub(crate) const TOLERANCE: OptionHelp<'static> = OptionHelp {
    value_name: "TOLERANCE",
    short: "How far a group may be from the ideal population, as 5%, 0.05 or 1/20",
    long: "How far a group may be from the ideal population, as 5%, 0.05 or 1/20. In lowest terms\n\
        the fraction has a part of at most 500, a whole of at most 1000, and is at most a half.\n\
        If you don't give it, it is 1/20, five percent.",
};

/// What help says of `--part`.
pub(crate) const PART: OptionHelp<'static> = OptionHelp {
    value_name: "PART",
    short: "The same as --tolerance PART/OF, 0 to 500",
    long: "--part PART and --of OF are the same as --tolerance PART/OF. PART is 0 to 500.",
};

/// What help says of `--of`.
pub(crate) const WHOLE: OptionHelp<'static> = OptionHelp {
    value_name: "OF",
    short: "The same as --tolerance PART/OF, 1 to 1000",
    long: "--part PART and --of OF are the same as --tolerance PART/OF. OF is 1 to 1000, and at\n\
        least twice PART.",
};

/// What help says of `--adjacency`.
pub(crate) const ADJACENCY: OptionHelp<'static> = OptionHelp {
    value_name: "FILE",
    short: "The Census Bureau's county adjacency file",
    long: "Which counties border each other: the Census Bureau's county adjacency file, as\n\
        county_adjacency2023.txt.",
};

/// What help says of `--links`.
pub(crate) const LINKS: OptionHelp<'static> = OptionHelp {
    value_name: "FILE",
    short: "Borders to add and to cut",
    long: "Borders that you add to those of --adjacency, and borders that you cut: a line for\n\
        each, with + or - and the codes of two counties between pipes.",
};

/// What help says of `--withdrawn`.
pub(crate) const WITHDRAWN: OptionHelp<'static> = OptionHelp {
    value_name: "FILE",
    short: "Sets of counties that belong to no group, with their seats",
    long: "Sets of counties that are taken out first, each with its seats, as for districts that\n\
        the Voting Rights Act requires. They belong to no group.",
};

/// What help says of `--grouping` of `judge` and `audit`.
pub(crate) const GROUPING: OptionHelp<'static> = OptionHelp {
    value_name: "FILE",
    short: "The groups, each with its seats",
    long: "The grouping: a line for each group, with its seats and the codes of its counties\n\
        between pipes, as `solve --out` writes it.",
};

/// What help says of `--grouping` of a board.
pub(crate) const TARGET: OptionHelp<'static> = OptionHelp {
    value_name: "FILE",
    short: "The groups that are to be proved best, each with its seats",
    long: "The grouping that is to be proved best, as `solve --out` writes it.",
};

/// What help says of `--certificate` of `judge`.
pub(crate) const JUDGE_CERTIFICATE: OptionHelp<'static> = OptionHelp {
    value_name: "FILE",
    short: "A certificate that may show that the grouping is best",
    long: "A certificate that may show that the grouping is best, as `solve --certificate` writes\n\
        it.",
};

/// What help says of `--certificate` of `check` and `list`.
pub(crate) const CERTIFICATE: OptionHelp<'static> = OptionHelp {
    value_name: "FILE",
    short: "The certificate",
    long: "The certificate, as `solve --certificate` or `share --certificate` writes it.",
};

/// What help says of `--which`.
pub(crate) const WHICH: OptionHelp<'static> = OptionHelp {
    value_name: "FILE",
    short: "A grouping whose number in the list is asked for",
    long: "A grouping whose number in the list is asked for. It can't stand beside --number and\n\
        --out.",
};

/// What help says of `--assignments`.
pub(crate) const ASSIGNMENTS: OptionHelp<'static> = OptionHelp {
    value_name: "FILE",
    short: "The district of each census block",
    long: "The plan: the district of each census block, a block assignment file.",
};

/// What help says of `--events` of `share`.
pub(crate) const SHARE_EVENTS: OptionHelp<'static> = OptionHelp {
    value_name: "FILE",
    short: "The events, as `piece` prints them",
    long: "The events, as `piece` and `worker` print them, or as `solve --events` writes them.",
};

/// What help says of `--events` of `piece`.
pub(crate) const PIECE_EVENTS: OptionHelp<'static> = OptionHelp {
    value_name: "FILE",
    short: "The events that the board takes first",
    long: "The events that the board takes first, as `share` would read them.",
};

/// What help says of `--record`.
pub(crate) const RECORD: OptionHelp<'static> = OptionHelp {
    value_name: "FILE",
    short: "Where to write the record of the run",
    long: "Where to write the record of the run, if its status is 0, 1 or 3: the words, the files\n\
        that were read and stored with their SHA-256, the status and the answer. It is stored\n\
        last.",
};

/// What help says of `--json`.
pub(crate) const JSON: OptionHelp<'static> = OptionHelp {
    value_name: "",
    short: "Print the answer as one JSON object",
    long: "Print the answer as one JSON object on one line. Reports, lists and size tables have the\n\
        names of the counties.",
};

/// What help says of `--names`.
pub(crate) const NAMES: OptionHelp<'static> = OptionHelp {
    value_name: "",
    short: "Print the names of the counties behind their codes",
    long: "Print the names of the counties behind their codes. With --json this changes nothing,\n\
        because the object has the names.",
};

/// What help says of `--table`.
pub(crate) const TABLE: OptionHelp<'static> = OptionHelp {
    value_name: "FILE",
    short: "Where to write the table of the counties and their groups, as CSV",
    long: "Where to write the table of the counties and their groups, as CSV. It joins to shapes\n\
        by GEOID.",
};

/// What help says of `--certificate` of `solve` and `share`.
pub(crate) const STORED_CERTIFICATE: OptionHelp<'static> = OptionHelp {
    value_name: "FILE",
    short: "Where to write the certificate",
    long: "Where to write the certificate, which `check` tests.",
};

/// What help says of `--out` of `solve`.
pub(crate) const OUT: OptionHelp<'static> = OptionHelp {
    value_name: "FILE",
    short: "Where to write the grouping",
    long: "Where to write the grouping, which `judge` and `audit` read.",
};

/// What help says of `--events` of `solve`.
pub(crate) const SOLVE_EVENTS: OptionHelp<'static> = OptionHelp {
    value_name: "FILE",
    short: "Where to write what was proved, if the steps run out",
    long: "Where to write what was proved as events, if the steps run out. `share` and `piece` go\n\
        on from there.",
};

/// What help says of `--number` of `list`.
pub(crate) const NUMBER: OptionHelp<'static> = OptionHelp {
    value_name: "NUMBER",
    short: "Which grouping --out stores, from 1",
    long: "Which grouping of the list --out stores, from 1. Give --out with it.",
};

/// What help says of `--out` of `list`.
pub(crate) const LIST_OUT: OptionHelp<'static> = OptionHelp {
    value_name: "FILE",
    short: "Where to write the grouping of --number",
    long: "Where to write the grouping of --number. Give --number with it.",
};

/// What help says of `--groupings`.
pub(crate) const GROUPINGS: OptionHelp<'static> = OptionHelp {
    value_name: "FILE",
    short: "Where to write the table of all best groupings, as CSV",
    long: "Where to write the table of all best groupings, as CSV. It joins to shapes by GEOID.",
};

/// What help says of `--districts`.
pub(crate) const DISTRICTS: OptionHelp<'static> = OptionHelp {
    value_name: "FILE",
    short: "Where to write the table of the districts, as CSV",
    long: "Where to write the table of all districts, as CSV: their people, groups and counties.",
};

/// What help says of `--steps`.
pub(crate) const STEPS: OptionHelp<'static> = OptionHelp {
    value_name: "STEPS",
    short: "The most steps of the search",
    long: "The most steps of the search, or of the search of one piece. A step takes 0.9 to 4\n\
        microseconds, so 10,000,000 steps take at most about 40 seconds.",
};

/// What help says of `--budget`.
pub(crate) const BUDGET: OptionHelp<'static> = OptionHelp {
    value_name: "STEPS",
    short: "The most steps of the check",
    long: "The most steps of the check of the certificate.",
};

/// What help says of `--budget` of `share`.
pub(crate) const SHARE_BUDGET: OptionHelp<'static> = OptionHelp {
    value_name: "STEPS",
    short: "The most steps of the test of an event",
    long: "The most steps of the test of one event.",
};

/// What help says of `--limit`.
pub(crate) const LIMIT: OptionHelp<'static> = OptionHelp {
    value_name: "COUNTIES",
    short: "The most counties of a group in the first round, 0 to 65535",
    long: "The most counties of a group in the first round, 0 to 65535.",
};

/// What help says of `--depth`.
pub(crate) const DEPTH: OptionHelp<'static> = OptionHelp {
    value_name: "BRANCHINGS",
    short: "The most branchings above a piece, 0 to 255 (with --limit)",
    long: "The most branchings above a piece, 0 to 255. Give --limit with it.",
};

/// What help says of `--round`.
pub(crate) const ROUND: OptionHelp<'static> = OptionHelp {
    value_name: "NUMBER",
    short: "The number of the round",
    long: "The number of the round, as `share` prints it.",
};

/// What help says of `--number` of `piece`.
pub(crate) const PIECE: OptionHelp<'static> = OptionHelp {
    value_name: "NUMBER",
    short: "The number of the piece",
    long: "The number of the piece in the round, as `share` prints it.",
};
