// The parser of the command line, from a table of its commands.
ghost use Rattle.std.specs.Prelude.{◌≡◌, IfOk, map};
ghost use Rattle.clap.specs.Words.{App, Shape, app_of, new_app};
ghost use Rattle.mt_args.specs.CommandLines.{bare, program, IsRuledBy, Parses};
ghost use Rattle.mt_args.specs.Tables.{app_at, rule_at, top_at, with_rules, with_subcommands};

use clap::{Arg, ArgAction, Command as Parser};
use std::alloc::{AllocError, Global};

/// How an argument stands on the command line. A value has the name by which help calls it.
#[derive(Clone, Copy)]
enum Form {
    /// `--ID`
    Flag,
    /// `--ID NAME`
    Value(&'static str),
    /// `[NAME]`
    Optional(&'static str),
    /// `NAME`
    Required(&'static str),
    /// `[NAME..]`
    Any(&'static str),
    /// `NAME..`
    Several(&'static str),
}

/// An argument: by which id it is read back, how it stands, and what help says of it.
#[derive(Clone, Copy)]
struct Argument {
    id: &'static str,
    form: Form,
    help: &'static str,
}

/// A command: its name, what help says of it, and its arguments in their order.
#[derive(Clone, Copy)]
struct Entry {
    name: &'static str,
    about: &'static str,
    examples: Option<&'static str>,
    arguments: &'static [Argument],
}

/// The device's file, which `check`, `dump`, `explain`, `migrate` and `run` need.
const DEVICE: Argument = Argument {
    id: "file",
    form: Form::Required("FILE"),
    help: "The device's file",
};

/// How long a file is waited for, of each command on a device in a file.
const WAIT: Argument = Argument {
    id: "wait",
    form: Form::Value("SECONDS"),
    help: "How long to wait for a file that is open in another program, 0 to 3600; 0 if it is not given",
};

/// What ends a script, of each command that runs one.
const STOP: Argument = Argument {
    id: "stop",
    form: Form::Flag,
    help: "A script ends at the first line that is refused with anything but 9 and 14",
};

/// `try [--stop] [SCRIPT]`
const TRY: Entry = Entry {
    name: "try",
    about: "Run one script over a device in memory and print its transcript",
    examples: None,
    arguments: &[
        STOP,
        Argument {
            id: "script",
            form: Form::Optional("SCRIPT"),
            help: "The script's file; without it, standard input",
        },
    ],
};

/// `schedule [FILE]`
const SCHEDULE: Entry = Entry {
    name: "schedule",
    about: "Run events of several transactions over a device in memory and print their answers",
    examples: None,
    arguments: &[Argument {
        id: "file",
        form: Form::Optional("FILE"),
        help: "The schedule's file; without it, standard input",
    }],
};

/// `check [--pages] [--wait SECONDS] FILE`
const CHECK: Entry = Entry {
    name: "check",
    about: "Report what the log of a device holds, without a write",
    examples: Some(CHECK_EXAMPLES),
    arguments: &[
        Argument {
            id: "pages",
            form: Form::Flag,
            help: "Look at each page too, as a restart would find it",
        },
        WAIT,
        DEVICE,
    ],
};

/// `format [--wait SECONDS] FILE PAGES AREA RELATIONS [COUNTER..]`
const FORMAT: Entry = Entry {
    name: "format",
    about: "Make a device with an empty base",
    examples: Some(FORMAT_EXAMPLES),
    arguments: &[
        WAIT,
        Argument {
            id: "file",
            form: Form::Required("FILE"),
            help: "The device's file, made or replaced",
        },
        Argument {
            id: "pages",
            form: Form::Required("PAGES"),
            help: "Pages of 4096 bytes, 16 to 4000",
        },
        Argument {
            id: "area",
            form: Form::Required("AREA"),
            help: "MiB of each of the two log areas, 4 to 64",
        },
        Argument {
            id: "relations",
            form: Form::Required("RELATIONS"),
            help: "Relations, 1 to 64",
        },
        Argument {
            id: "counter",
            form: Form::Any("COUNTER"),
            help: "A counter from LOW to HIGH that begins at START: cLOW:HIGH:START",
        },
    ],
};

/// `dump [--wait SECONDS] FILE`
const DUMP: Entry = Entry {
    name: "dump",
    about: "Open a device, as after a crash, and print its rows and counters",
    examples: Some(DUMP_EXAMPLES),
    arguments: &[WAIT, DEVICE],
};

/// `explain [--wait SECONDS] FILE`
const EXPLAIN: Entry = Entry {
    name: "explain",
    about: "Print the log of a device as a history, without a write",
    examples: Some(EXPLAIN_EXAMPLES),
    arguments: &[WAIT, DEVICE],
};

/// `migrate [--wait SECONDS] FILE RELATIONS [COUNTER..]`
const MIGRATE: Entry = Entry {
    name: "migrate",
    about: "Carry a device of format 1 over to format 2",
    examples: Some(MIGRATE_EXAMPLES),
    arguments: &[
        WAIT,
        DEVICE,
        Argument {
            id: "relations",
            form: Form::Required("RELATIONS"),
            help: "Relations more, 0 or so many that the sum is at most 64",
        },
        Argument {
            id: "counter",
            form: Form::Any("COUNTER"),
            help: "A counter more, from LOW to HIGH, that begins at START: cLOW:HIGH:START",
        },
    ],
};

/// `run [--frames N] [--wait SECONDS] [--stop] FILE WORKERS SCRIPT..`
const RUN: Entry = Entry {
    name: "run",
    about: "Open a device, serve scripts to it and print their transcripts",
    examples: Some(RUN_EXAMPLES),
    arguments: &[
        Argument {
            id: "frames",
            form: Form::Value("N"),
            help: "Pages that the kernel keeps in frames, 32 to 4096; 256 if it is not given",
        },
        WAIT,
        STOP,
        DEVICE,
        Argument {
            id: "workers",
            form: Form::Required("WORKERS"),
            help: "The most scripts that are served at once, 1 to 16",
        },
        Argument {
            id: "script",
            form: Form::Several("SCRIPT"),
            help: "The scripts' files, at most 64; - is standard input",
        },
    ],
};

/// The commands, in the order in which help lists them.
const COMMANDS: [Entry; 8] = [TRY, SCHEDULE, CHECK, FORMAT, DUMP, EXPLAIN, MIGRATE, RUN];

const EXAMPLES: &str = "Examples:
  mtk try bank.script
  printf 'begin\\ninsert 0 a x\\ncommit\\n' | mtk try
  printf 'begin 1\\ncall 1 add 0 1\\nstep 1\\n' | mtk schedule
  mtk format bank.mtk 64 4 2 c0:10:5
  mtk check --pages bank.mtk
  mtk run bank.mtk 1 bank.script
  mtk dump bank.mtk
  mtk explain bank.mtk";

const CHECK_EXAMPLES: &str = "Example:
  mtk check --pages bank.mtk

prints
  format 2
  epoch 1
  area 0
  batches 1
  records 0
  commits 0
  pages ok";

const FORMAT_EXAMPLES: &str = "Example:
  mtk format bank.mtk 64 4 2 c0:10:5 c-1000:1000:0

makes a device of 64 pages and two log areas of 4 MiB, with 2 relations and 2 counters: the first
goes from 0 to 10 and begins at 5, the second from -1000 to 1000 and begins at 0";

const DUMP_EXAMPLES: &str = "Example:
  mtk dump bank.mtk

prints, of two relations with one row and of one counter
  depth 0
  free 59
  row 0 61 78
  counter 0 5

Keys and values are hexadecimal digits, two of each byte, and an empty value is a dash. The device is
opened as after a crash, and so written to: unfinished transactions are undone.";

const EXPLAIN_EXAMPLES: &str = "Example:
  mtk explain bank.mtk

prints a line for each record of the log, with the number of its batch and that batch's offset in the file
  batch 2 at 270341 txn 1 op 1 page 2 from 31 length 1 with image
  batch 2 at 270341 txn 1 op 1 add 0 1

and then what a restart would do, in its order: put unfinished operations back, and undo those of
unfinished transactions
  restart txn 1 op 1 undone by add 0 -1";

const MIGRATE_EXAMPLES: &str = "Example:
  mtk migrate old.mtk 1 c-5:5:0

carries a device of format 1 over to format 2, with one relation more, and one counter more that goes
from -5 to 5 and begins at 0. Its rows and counters stay. If it is cut off, the device is of format 1 as
before, or of format 2 and done. It prints nothing, and a device of format 2 is refused 20 WrongFormat.";

const RUN_EXAMPLES: &str = "Example:
  printf 'begin\\ninsert 0 a x\\ncommit\\n' | mtk run bank.mtk 1 -

prints
  session 1
  begun
  done
  committed 1

All scripts are read before the first one runs. Each is a session of its own. One worker serves them one
after the other; more workers serve them at once, and the sessions are printed when all are done.";

/// `mtk` without its commands.
fn bare<'a>(alloc: Global) -> Parser<'a>
    ensures { app_of result ≡ bare }
{
    Parser::new(alloc, "mtk")
        .version("0.1.0")
        .about("A multilevel transaction kernel with escrow counters")
        .after_help(EXAMPLES)
        .no_binary_name(true)
        .subcommand_required(true)
}

/// The parser whose usage lines begin with the program's name.
fn named<'a>(parser: Parser<'a>) -> Result<Parser<'a>, AllocError>
    ensures { IfOk result (λ named. app_of named ≡ app_of parser.entry) }
{
    parser.bin_name("mtk")
}

/// An argument of the table, for the parser.
fn argument_of<'a>(alloc: Global, argument: &Argument) -> Arg<'a>
    ensures { IsRuledBy (rule_at argument.now) result }
{
    let arg = Arg::new(alloc, argument.id).help(argument.help);
    match argument.form {
        Form::Flag => arg.long(argument.id).action(ArgAction::SetTrue),
        Form::Value(name) => arg.long(argument.id).value_name(name),
        Form::Optional(name) => arg.value_name(name),
        Form::Required(name) => arg.value_name(name).required(true),
        Form::Any(name) => arg.value_name(name).action(ArgAction::Append),
        Form::Several(name) => arg
            .value_name(name)
            .required(true)
            .action(ArgAction::Append),
    }
}

/// The parser with these arguments after those that it has.
fn with_arguments<'a>(
    alloc: Global,
    mut parser: Parser<'a>,
    arguments: &[Argument],
) -> Result<Parser<'a>, AllocError>
    ensures { (app : App) → Parses app parser.entry →
        IfOk result (Parses (with_rules app (map rule_at arguments.now))) }
{
    for argument in arguments {
        parser = parser.arg(argument_of(alloc, argument))?;
    }
    Ok(parser)
}

/// The parser of a command without its arguments.
fn without_arguments<'a>(alloc: Global, entry: &Entry) -> Parser<'a>
    ensures { Parses (new_app entry.now.name.now) result }
{
    let parser = Parser::new(alloc, entry.name).about(entry.about);
    match entry.examples {
        Some(examples) => parser.after_help(examples),
        None => parser,
    }
}

/// The parser of a command.
fn parser_of<'a>(alloc: Global, entry: &Entry) -> Result<Parser<'a>, AllocError>
    ensures { IfOk result (Parses (app_at entry.now)) }
{
    with_arguments(alloc, without_arguments(alloc, entry), entry.arguments)
}

/// The parser with these commands after those that it has.
fn with_commands<'a>(
    alloc: Global,
    mut parser: Parser<'a>,
    entries: &[Entry],
) -> Result<Parser<'a>, AllocError>
    ensures { (app : App) → app_of parser.entry ≡ app →
        IfOk result (λ r. app_of r ≡ with_subcommands app (map top_at entries.now)) }
{
    for entry in entries {
        let command = parser_of(alloc, entry)?;
        parser = parser.subcommand(command)?;
    }
    Ok(parser)
}

/// The program's command line.
pub(crate) fn parser<'a>(alloc: Global) -> Result<Parser<'a>, AllocError>
    ensures { IfOk result (λ parser. app_of parser ≡ program) }
{
    let program = named(bare(alloc))?;
    with_commands(alloc, program, &COMMANDS)
}
