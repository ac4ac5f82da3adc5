//! The text of the help.
ghost use Rattle.vx_commands.specs.Help.{help_text};
ghost use Rattle.vx_text.specs.Text.{Adds};

use vx_base::Sink;
use vx_text::TextOut;

const WHAT: &[u8] =
    b"vx serves the segments of columnar files, tells how large fields are, skips\nfiles, prints their rows, and writes them.\n\n";

const USAGE: &[u8] = b"usage: vx COMMAND\n\n";

const COMMANDS: &[u8] = b"commands\n";

const SERVE: &[u8] =
    b"  serve NAME    opens the file NAME, reads a script from standard input, and\n";

const SERVE_MORE: &[u8] = b"                prints the file's footer and one reply for each step\n";

const SIZE: &[u8] = b"      --size N      the file has N bytes: its size is not asked\n";

const INITIAL: &[u8] =
    b"      --initial N   the first read asks for the last N bytes, 65535 at least\n";

const DTYPE: &[u8] = b"      --dtype D     the rows have the type D: the file's own is not read\n";

const META: &[u8] = b"      --meta        the values of the metadata are read and printed\n";

const DISTANCE: &[u8] =
    b"      --distance D  reads at most D bytes apart are merged, with --max M into\n                    one of at most M bytes\n";

const READS: &[u8] = b"      --reads K     one call asks for at most K ranges, 1 to 1024\n";

const CACHE: &[u8] = b"      --cache N     the N segments used last are kept, 1 to 65536\n";

const SIZES: &[u8] =
    b"  sizes NAME    prints how many bytes each field of the file NAME takes\n      --dtype D     the rows have the type D: the file's own is not read\n";

const PRUNE: &[u8] =
    b"  prune NAME P  prints whether the file NAME can be skipped, since no row of it\n                satisfies the predicate P; a --dtype stands in front of P\n";

const SCAN: &[u8] =
    b"  scan NAME     prints the type of the rows of the file NAME, and the rows\n      --dtype D     the rows have the type D: the file's own is not read\n";

const SCAN_FILTER: &[u8] =
    b"      --filter P    only the rows that satisfy the predicate P; it stands last\n";

const DEMO: &[u8] =
    b"  demo V ..     serves a file of the values V, numbers of 32 bits, which it\n                writes to memory\n";

const WRITE: &[u8] =
    b"  write         reads a type and rows, a line each, from standard input, and\n                writes their file to standard output\n";

const WRITE_OPTIONS: &[u8] =
    b"      --no-dtype    the type is left out; with --no-stats the statistics are\n";

const WRITE_BLOCKS: &[u8] =
    b"      --block N     blocks have N rows, 8192 where it is not said\n      --target N    blocks are gathered to N bytes, 1048576 where it is not said\n";

const WRITE_MORE: &[u8] =
    b"      --meta K HEX  bytes in hexadecimal under the key K of the metadata\n      --v2          the file is of the second version\n";

const GEN: &[u8] =
    b"  gen SEED ROWS writes ROWS rows that follow from SEED, at most 1000000, to memory,\n                and prints how large their file is and what opening it reads\n";

const TEXTS: &[u8] = b"  --help        prints this text\n  --version     prints the version\n";

const OPTIONS: &[u8] = b"options stand in any order, each at most once but --meta of write\n\n";

const SCRIPT: &[u8] = b"script, a step a line\n";

const REGISTER: &[u8] =
    b"  r SEGMENT     registers a request for a segment; requests are numbered from 0\n";

const POLL: &[u8] = b"  p NUMBER      polls the request of a number\n";

const DROP: &[u8] = b"  d NUMBER      drops the request of a number\n";

const DRIVE: &[u8] = b"  go            reads for each request that was polled and waits\n\n";

const PREDICATES: &[u8] = b"predicates, each node in front of its operands\n";

const NODES: &[u8] =
    b"  root   field PATH   lit TYPE VALUE   cast TYPE P   add P P   eq|ne|lt|le|gt|ge P P\n  and P P   or P P   not P   isnull P   notnull P\n\n";

const STATUSES: &[u8] = b"exit statuses, each with a line on standard error but 0\n";

const STATUSES_2: &[u8] =
    b"  0  all was printed                    6  the input could not be read\n  2  the arguments are no command       7  the output could not be written\n";

const STATUSES_3: &[u8] =
    b"  3  a line of the input is wrong       8  the file could not be opened\n  4  the file is refused                9  the input is too long\n";

const STATUSES_4: &[u8] = b"  5  the file could not be read        70  out of memory\n\n";

const EXAMPLE: &[u8] = b"example\n  printf 'r 0\\np 0\\n' | vx demo 1 2 3 4\n";

/// Adds what the program is, and how it is called.
pub(crate) fn put_help<S: Sink>(text: &mut TextOut, out: &mut S)
    ensures { Adds help_text text.old (S.state out.old) text.new (S.state out.new) }
{
    text.word(out, WHAT);
    text.word(out, USAGE);
    text.word(out, COMMANDS);
    text.word(out, SERVE);
    text.word(out, SERVE_MORE);
    text.word(out, SIZE);
    text.word(out, INITIAL);
    text.word(out, DTYPE);
    text.word(out, META);
    text.word(out, DISTANCE);
    text.word(out, READS);
    text.word(out, CACHE);
    text.word(out, SIZES);
    text.word(out, PRUNE);
    text.word(out, SCAN);
    text.word(out, SCAN_FILTER);
    text.word(out, DEMO);
    text.word(out, WRITE);
    text.word(out, WRITE_OPTIONS);
    text.word(out, WRITE_BLOCKS);
    text.word(out, WRITE_MORE);
    text.word(out, GEN);
    text.word(out, TEXTS);
    text.word(out, OPTIONS);
    text.word(out, SCRIPT);
    text.word(out, REGISTER);
    text.word(out, POLL);
    text.word(out, DROP);
    text.word(out, DRIVE);
    text.word(out, PREDICATES);
    text.word(out, NODES);
    text.word(out, STATUSES);
    text.word(out, STATUSES_2);
    text.word(out, STATUSES_3);
    text.word(out, STATUSES_4);
    text.word(out, EXAMPLE);
}
