//! The program's words for `clap`, with their help.
ghost use Rattle.std.specs.Prelude.{◌≡◌, IfOk, false, codes};
ghost use Rattle.clap.specs.Words.{app_of, rule_of};
ghost use Rattle.clap.specs.declared.builder.command.Command.TheViews.{out-Command};
ghost use Rattle.siuwbren_words.specs.Parser.{option_rule, flag_rule, letter_rule, place_rule, free_rule};
ghost use Rattle.siuwbren_words.specs.Parser.{checkout_app, checkin_source, checkin_app, plan_source, plan_app};
ghost use Rattle.siuwbren_words.specs.Parser.{rehearse_app, audit_app};
ghost use Rattle.siuwbren_words.specs.Parser.{quiet_rule, update_rule, checkout_source, checkout_report, checkout_progress};
ghost use Rattle.siuwbren_words.specs.Parser.{top_app, repository_app, siuwbren_app};

use clap::{Arg, ArgAction, Command};
use std::alloc::{AllocError, Global};

const CHECKOUT_END: &str = "\
Example, in a clone without files, and in a repository, of its index, of a release, and with a journal
for siuwbren audit:
  siuwbren checkout -u --commit HEAD .
  siuwbren checkout /tmp/tree
  siuwbren checkout --commit v1.0 --workers 4 --report json /tmp/release
  siuwbren checkout --journal /tmp/run /tmp/again

Status: 0 if all is written, 1 if some path failed, 2 for wrong words, 3 if the repository is refused,
4 if output failed, 5 out of memory, 6 for a read fault, 7 if TREE isn't empty. See siuwbren(1).";

const CHECKIN_END: &str = "\
Example, after which git commit commits the files:
  siuwbren checkin -u

Status: 0 if each path is looked at, 1 if some path failed, 2 for wrong words, 3 if the repository is
refused, 4 if output failed, 5 out of memory, 6 for a read fault, 7 if TREE has no file of the index.
See siuwbren(1).";

const PLAN_END: &str = "\
Example, of a commit in a bare repository:
  siuwbren plan --git-dir /srv/project.git --commit v1.0 --report json";

const REHEARSE_END: &str = "\
Example, whose line is the same on each machine:
  siuwbren rehearse 0 2000";

const AUDIT_END: &str = "\
Example:
  siuwbren checkout --journal /tmp/run /tmp/tree
  siuwbren audit /tmp/run

Status: 0 if each event is legal, 1 if one isn't, 3 if FILE is no journal, 4 if output failed, 5 out of
memory, 6 for a read fault. See siuwbren(1).";

/// An option with a value.
fn option<'a>(alloc: Global, name: &'a str, value: &'a str, help: &'a str) -> Arg<'a>
    ensures rule { rule_of result ≡ option_rule name.entry.now }
    ensures local { result.global ≡ false }
{
    Arg::new(alloc, name)
        .long(name)
        .value_name(value)
        .help(help)
}

/// A flag by its long name.
fn flag<'a>(alloc: Global, name: &'a str, help: &'a str) -> Arg<'a>
    ensures rule { rule_of result ≡ flag_rule name.entry.now }
    ensures local { result.global ≡ false }
{
    Arg::new(alloc, name)
        .long(name)
        .action(ArgAction::SetTrue)
        .help(help)
}

/// A word that has to be there.
fn place<'a>(alloc: Global, name: &'a str, value: &'a str, help: &'a str) -> Arg<'a>
    ensures rule { rule_of result ≡ place_rule name.entry.now }
    ensures local { result.global ≡ false }
{
    Arg::new(alloc, name)
        .value_name(value)
        .required(true)
        .help(help)
}

/// A word that may be missing.
fn free_place<'a>(alloc: Global, name: &'a str, value: &'a str, help: &'a str) -> Arg<'a>
    ensures rule { rule_of result ≡ free_rule name.entry.now }
    ensures local { result.global ≡ false }
{
    Arg::new(alloc, name).value_name(value).help(help)
}

fn git_dir<'a>(alloc: Global) -> Arg<'a>
    ensures rule { rule_of result ≡ option_rule (codes "git-dir") }
    ensures local { result.global ≡ false }
{
    option(
        alloc,
        "git-dir",
        "DIR",
        "The repository's git folder, or its worktree [default: the one that git finds]",
    )
}

/// `-z`.
fn nul<'a>(alloc: Global) -> Arg<'a>
    ensures rule { rule_of result ≡ letter_rule (codes "nul") 122 }
    ensures local { result.global ≡ false }
{
    Arg::new(alloc, "nul")
        .short('z')
        .action(ArgAction::SetTrue)
        .help("End lines with NUL, and quote no path")
}

/// `-q`.
fn quiet<'a>(alloc: Global) -> Arg<'a>
    ensures rule { rule_of result ≡ quiet_rule }
    ensures local { result.global ≡ false }
{
    flag(alloc, "quiet", "Say only of failures on standard error").short('q')
}

/// `-u`.
fn update_index<'a>(alloc: Global) -> Arg<'a>
    ensures rule { rule_of result ≡ update_rule }
    ensures local { result.global ≡ false }
{
    flag(
        alloc,
        "update-index",
        "Make the repository's index that of the files: TREE is its worktree",
    )
    .short('u')
}

/// A command with its texts for help, which a parse doesn't look at.
fn with_texts<'a>(command: Command<'a>, about: &'a str, usage: &'a str, end: &'a str) -> Command<'a>
    ensures app { app_of result ≡ app_of command.entry }
    ensures local { (out-Command result).has_globals ≡ (out-Command command.entry).has_globals }
{
    command.about(about).override_usage(usage).after_help(end)
}

/// What is checked out, and by how many workers.
fn checkout_source<'a>(alloc: Global) -> Result<Command<'a>, AllocError>
    ensures app { IfOk result (λ command. app_of command ≡ checkout_source) }
    ensures local { IfOk result (λ command. (out-Command command).has_globals ≡ false) }
{
    let dir = git_dir(alloc);
    let bare = Command::new(alloc, "checkout");
    let first = bare.arg(dir)?;
    let commit = option(
        alloc,
        "commit",
        "REV",
        "A commit, tag or tree to check out [default: the index]",
    );
    let second = first.arg(commit)?;
    let workers = option(
        alloc,
        "workers",
        "N",
        "1 to 16 [default: by checkout.workers]",
    );
    second.arg(workers)
}

/// And how that is reported.
fn checkout_report<'a>(alloc: Global) -> Result<Command<'a>, AllocError>
    ensures app { IfOk result (λ command. app_of command ≡ checkout_report) }
    ensures local { IfOk result (λ command. (out-Command command).has_globals ≡ false) }
{
    let source = checkout_source(alloc)?;
    let report = option(
        alloc,
        "report",
        "FORM",
        "text, json or none [default: text]",
    );
    let first = source.arg(report)?;
    let nul = nul(alloc);
    let second = first.arg(nul)?;
    let journal = option(
        alloc,
        "journal",
        "FILE",
        "Write all that happened, in order, into a new file",
    );
    second.arg(journal)
}

/// And what else is said of it.
fn checkout_progress<'a>(alloc: Global) -> Result<Command<'a>, AllocError>
    ensures app { IfOk result (λ command. app_of command ≡ checkout_progress) }
    ensures local { IfOk result (λ command. (out-Command command).has_globals ≡ false) }
{
    let report = checkout_report(alloc)?;
    let shown = flag(
        alloc,
        "progress",
        "Show progress, also where no terminal is",
    );
    let first = report.arg(shown)?;
    let hidden = flag(alloc, "no-progress", "Show no progress");
    let second = first.arg(hidden)?;
    let quiet = quiet(alloc);
    second.arg(quiet)
}

fn checkout<'a>(alloc: Global) -> Result<Command<'a>, AllocError>
    ensures app { IfOk result (λ command. app_of command ≡ checkout_app) }
    ensures local { IfOk result (λ command. (out-Command command).has_globals ≡ false) }
{
    let options = checkout_progress(alloc)?;
    let told = with_texts(
        options,
        "Write the files of the index, or of a commit, into a folder",
        "siuwbren checkout [OPTIONS] TREE",
        CHECKOUT_END,
    );
    let update = update_index(alloc);
    let first = told.arg(update)?;
    let tree = place(alloc, "tree", "TREE", "The folder to fill: absent or empty");
    first.arg(tree)
}

/// What is checked in where.
fn checkin_source<'a>(alloc: Global) -> Result<Command<'a>, AllocError>
    ensures app { IfOk result (λ command. app_of command ≡ checkin_source) }
    ensures local { IfOk result (λ command. (out-Command command).has_globals ≡ false) }
{
    let dir = git_dir(alloc);
    let bare = Command::new(alloc, "checkin");
    let first = bare.arg(dir)?;
    let empty = flag(
        alloc,
        "allow-empty",
        "Take all paths for deleted if no file is there",
    );
    first.arg(empty)
}

fn checkin<'a>(alloc: Global) -> Result<Command<'a>, AllocError>
    ensures app { IfOk result (λ command. app_of command ≡ checkin_app) }
    ensures local { IfOk result (λ command. (out-Command command).has_globals ≡ false) }
{
    let source = checkin_source(alloc)?;
    let told = with_texts(
        source,
        "Keep the files of a folder as objects and a new index",
        "siuwbren checkin [OPTIONS] [TREE]",
        CHECKIN_END,
    );
    let update = update_index(alloc);
    let first = told.arg(update)?;
    let tree = free_place(
        alloc,
        "tree",
        "TREE",
        "The folder with the files [default: the top of the worktree]",
    );
    first.arg(tree)
}

/// What is planned.
fn plan_source<'a>(alloc: Global) -> Result<Command<'a>, AllocError>
    ensures app { IfOk result (λ command. app_of command ≡ plan_source) }
    ensures local { IfOk result (λ command. (out-Command command).has_globals ≡ false) }
{
    let dir = git_dir(alloc);
    let bare = Command::new(alloc, "plan");
    let first = bare.arg(dir)?;
    let commit = option(
        alloc,
        "commit",
        "REV",
        "A commit, tag or tree to plan for [default: the index]",
    );
    first.arg(commit)
}

fn plan<'a>(alloc: Global) -> Result<Command<'a>, AllocError>
    ensures app { IfOk result (λ command. app_of command ≡ plan_app) }
    ensures local { IfOk result (λ command. (out-Command command).has_globals ≡ false) }
{
    let source = plan_source(alloc)?;
    let told = with_texts(
        source,
        "Show what a checkout of the index, or of a commit, would do",
        "siuwbren plan [OPTIONS]",
        PLAN_END,
    );
    let report = option(alloc, "report", "FORM", "text or json [default: text]");
    let first = told.arg(report)?;
    let nul = nul(alloc);
    first.arg(nul)
}

fn rehearse<'a>(alloc: Global) -> Result<Command<'a>, AllocError>
    ensures app { IfOk result (λ command. app_of command ≡ rehearse_app) }
    ensures local { IfOk result (λ command. (out-Command command).has_globals ≡ false) }
{
    let bare = Command::new(alloc, "rehearse");
    let told = with_texts(
        bare,
        "Check out a made-up repository in memory",
        "siuwbren rehearse SEED PATHS",
        REHEARSE_END,
    );
    let seed = place(alloc, "seed", "SEED", "A number");
    let first = told.arg(seed)?;
    let paths = place(alloc, "paths", "PATHS", "How many paths, up to 99999");
    first.arg(paths)
}

fn audit<'a>(alloc: Global) -> Result<Command<'a>, AllocError>
    ensures app { IfOk result (λ command. app_of command ≡ audit_app) }
    ensures local { IfOk result (λ command. (out-Command command).has_globals ≡ false) }
{
    let bare = Command::new(alloc, "audit");
    let told = with_texts(
        bare,
        "Say whether the rules of a checkout allow a journal",
        "siuwbren audit FILE",
        AUDIT_END,
    );
    let file = place(alloc, "file", "FILE", "A journal");
    told.arg(file)
}

/// The program without its commands. The words don't begin with its name.
fn top<'a>(alloc: Global) -> Command<'a>
    ensures { app_of result ≡ top_app }
{
    Command::new(alloc, "siuwbren")
        .version("0.1.0")
        .about("Checks out a Git repository into an empty folder")
        .override_usage("siuwbren [-C DIR] COMMAND")
        .no_binary_name(true)
        .subcommand_required(true)
}

/// The program with the commands that read a repository.
fn repository_commands<'a>(alloc: Global) -> Result<Command<'a>, AllocError>
    ensures { IfOk result (λ command. app_of command ≡ repository_app) }
{
    let checkout = checkout(alloc)?;
    let bare = top(alloc);
    let first = bare.subcommand(checkout)?;
    let checkin = checkin(alloc)?;
    let second = first.subcommand(checkin)?;
    let plan = plan(alloc)?;
    second.subcommand(plan)
}

/// The program's parser.
pub fn siuwbren<'a>(alloc: Global) -> Result<Command<'a>, AllocError>
    ensures { IfOk result (λ command. app_of command ≡ siuwbren_app) }
{
    let rehearse = rehearse(alloc)?;
    let repository = repository_commands(alloc)?;
    let first = repository.subcommand(rehearse)?;
    let audit = audit(alloc)?;
    first.subcommand(audit)
}
