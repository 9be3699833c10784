//! The commands of the program, as `clap` reads them.
ghost use Rattle.std.specs.Prelude.{◌≡◌, IfOk, map};
ghost use Rattle.clap.specs.Simple.{App, app_of, with_subcommand};
ghost use Rattle.command_words.specs.Program.{IsCommand, IsReadByRule, ReadsKinds, bare_program, command_app, command_apps, operand_rule, program, word_rule};

use crate::Topic;
use clap::builder::ValueParser;
use clap::{Arg, ArgAction, Command};
use std::alloc::{AllocError, Global};

/// A command over files, as `check KIND FILE`.
struct Form<'a> {
    name: &'a str,
    topic: Topic,
    words: &'a [Word<'a>],
}

/// An operand of a command, or an option with a value.
struct Word<'a> {
    id: &'a str,
    /// An option is `--` and its id.
    is_option: bool,
    required: bool,
    /// Whether it is given once or any number of times.
    action: ArgAction,
    /// What its values are called.
    shown: &'a [&'a str],
    parser: ValueParser<'a>,
    /// Its value where it isn't given.
    default: &'a [&'a str],
}

/// An operand that has to be there, but for its id and what its value is called.
const OPERAND: Word = Word {
    id: "",
    is_option: false,
    required: true,
    action: ArgAction::Set,
    shown: &[],
    parser: ValueParser::String,
    default: &[],
};

/// The kind of recovery.
const KIND: Word = Word {
    id: "kind",
    shown: &["KIND"],
    parser: ValueParser::Names(&["undo", "intentions", "escrow"]),
    ..OPERAND
};

const FILE: Word = Word {
    id: "path",
    shown: &["FILE"],
    ..OPERAND
};

const SCRIPT: Word = Word {
    id: "path",
    shown: &["SCRIPT"],
    ..OPERAND
};

const HISTORY: Word = Word {
    id: "path",
    shown: &["HISTORY"],
    ..OPERAND
};

const JOBS: Word = Word {
    id: "path",
    shown: &["JOBS"],
    ..OPERAND
};

const OBJECTS: Word = Word {
    id: "path",
    shown: &["OBJECTS"],
    ..OPERAND
};

/// The path of a store that is there.
const STORE: Word = Word {
    id: "path",
    shown: &["DATABASE"],
    ..OPERAND
};

/// The path of a store that is made, or gets more objects.
const DATABASE: Word = Word {
    id: "database",
    shown: &["DATABASE"],
    ..OPERAND
};

/// The key of a transaction.
const KEY: Word = Word {
    id: "key",
    shown: &["KEY"],
    ..OPERAND
};

const FAMILY: Word = Word {
    id: "family",
    shown: &["FAMILY"],
    ..OPERAND
};

const SIZE: Word = Word {
    id: "size",
    shown: &["SIZE"],
    ..OPERAND
};

const ITEMS: Word = Word {
    id: "items",
    required: false,
    action: ArgAction::Append,
    shown: &["ITEM"],
    ..OPERAND
};

/// The requested and the held operation.
const PAIR: Word = Word {
    id: "pair",
    required: false,
    shown: &["P", "Q"],
    ..OPERAND
};

/// The files of the objects' types.
const TYPES: Word = Word {
    id: "types",
    action: ArgAction::Append,
    shown: &["TYPE"],
    ..OPERAND
};

/// The histories that follow the first.
const THEN: Word = Word {
    id: "then",
    is_option: true,
    required: false,
    action: ArgAction::Append,
    shown: &["HISTORY"],
    ..OPERAND
};

const WORKERS: Word = Word {
    id: "workers",
    is_option: true,
    shown: &["N"],
    parser: ValueParser::Signed(1, 16),
    ..OPERAND
};

const TRIES: Word = Word {
    id: "tries",
    is_option: true,
    required: false,
    shown: &["K"],
    parser: ValueParser::Signed(1, 100),
    default: &["3"],
    ..OPERAND
};

const SEED: Word = Word {
    id: "seed",
    is_option: true,
    shown: &["S"],
    parser: ValueParser::Unsigned(0, u64::MAX),
    ..OPERAND
};

/// The commands, but for `serve`.
static FORMS: [Form; 13] = [
    Form {
        name: "check",
        topic: Topic::Check,
        words: &[KIND, FILE],
    },
    Form {
        name: "explain",
        topic: Topic::Explain,
        words: &[KIND, FILE, PAIR],
    },
    Form {
        name: "make",
        topic: Topic::Make,
        words: &[FAMILY, SIZE, ITEMS],
    },
    Form {
        name: "tables",
        topic: Topic::Tables,
        words: &[FILE],
    },
    Form {
        name: "run",
        topic: Topic::Run,
        words: &[SCRIPT, TYPES],
    },
    Form {
        name: "audit",
        topic: Topic::Audit,
        words: &[HISTORY, TYPES, THEN],
    },
    Form {
        name: "work",
        topic: Topic::Work,
        words: &[JOBS, TYPES, WORKERS, TRIES],
    },
    Form {
        name: "stress",
        topic: Topic::Stress,
        words: &[JOBS, TYPES, WORKERS, TRIES, SEED],
    },
    Form {
        name: "create",
        topic: Topic::Create,
        words: &[DATABASE, OBJECTS, TYPES],
    },
    Form {
        name: "extend",
        topic: Topic::Extend,
        words: &[DATABASE, OBJECTS, TYPES],
    },
    Form {
        name: "history",
        topic: Topic::History,
        words: &[STORE],
    },
    Form {
        name: "prepared",
        topic: Topic::Prepared,
        words: &[STORE],
    },
    Form {
        name: "outcome",
        topic: Topic::Outcome,
        words: &[STORE, KEY],
    },
];

/// The program with its commands, but for `serve`.
pub(crate) fn program<'a>(alloc: Global) -> Result<Command<'a>, AllocError>
    ensures { (kinds : _) × ReadsKinds kinds × IfOk result (λ command. app_of command ≡ program kinds) }
{
    let forms = forms();
    let mut program = bare_program(alloc)?;
    for form in forms {
        program = with_command(program, command(alloc, form))?;
    }
    Ok(program)
}

/// The commands, but for `serve`.
fn forms<'a>() -> &'a [Form<'a>]
    ensures { (kinds : _) × ReadsKinds kinds × (map command_app result.now ≡ command_apps kinds) }
{
    FORMS.as_slice()
}

/// The program without its commands.
fn bare_program<'a>(alloc: Global) -> Result<Command<'a>, AllocError>
    ensures { IfOk result (λ command. app_of command ≡ bare_program) }
{
    Command::new(alloc, "colock")
        .override_help(Topic::Program.text())
        .no_binary_name(true)
        .subcommand_required(true)
        .bin_name("colock")
}

/// The program with one more command.
fn with_command<'a>(
    program: Command<'a>,
    command: Result<Command<'a>, AllocError>,
) -> Result<Command<'a>, AllocError>
    ensures { (a : App) → IfOk command.entry (IsCommand a)
        → IfOk result (λ whole. app_of whole ≡ with_subcommand (app_of program.entry) a.top) }
{
    program.subcommand(command?)
}

/// The command of this form.
fn command<'a>(alloc: Global, form: &'a Form<'a>) -> Result<Command<'a>, AllocError>
    ensures { IfOk result (IsCommand (command_app form.now)) }
{
    let words = form.words;
    let mut command = Command::new(alloc, form.name).override_help(form.topic.text());
    for word in words {
        command = command.arg(arg(alloc, word))?;
    }
    Ok(command)
}

fn arg<'a>(alloc: Global, word: &'a Word<'a>) -> Arg<'a>
    ensures { IsReadByRule (word_rule word.now) result }
{
    let bare = operand(alloc, word);
    if word.is_option {
        bare.long(word.id)
    } else {
        bare
    }
}

/// What an operand and an option have in common.
fn operand<'a>(alloc: Global, word: &'a Word<'a>) -> Arg<'a>
    ensures { IsReadByRule (operand_rule word.now) result }
{
    Arg::new(alloc, word.id)
        .required(word.required)
        .action(word.action)
        .value_names(word.shown)
        .value_parser(word.parser)
        .default_values(word.default)
}
