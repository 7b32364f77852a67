//! What help and the version say, and how the program is used.

ghost use Rattle.std.specs.Prelude.{◌≡◌};
ghost use Rattle.am_cli.specs.Help.{help_text, version, program_help, script_help, trace_help, draw_help, world_help, serve_help, explore_help, judge_help, import_help, threads_help, help_help, usage_text};

use crate::topics::Topic;

/// The version of the program.
pub(crate) fn version() -> &'static str
    ensures { result.now ≡ version }
{
    "1.0.0"
}

fn program_help() -> &'static [u8]
    ensures { result.now ≡ program_help }
{
    b"Usage: automount_cli COMMAND [OPTION]...

Plays scripts of autofs events on a model of the kernel's autofs over shared
mounts and of the daemon that serves it. It mounts nothing. All commands but
threads and help read standard input, and all write to standard output.

Commands:
  script   reads a script, plays it, and writes the answer of each event
  trace    the same, with each event and what is seen of it; --plain for diff
  draw     reads a script, and writes a picture of what happens, an SVG
             --from N, --to N  draw the events from one number to another
  world    reads a script, and writes the world that it leaves; --namespace N
  serve    reads lines, and answers each as it comes: events and questions
  explore  reads a scene, and tries all orders of its threads; --most N states
  judge    reads a trace, and writes whether it is lawful
  import   reads mountinfo, and writes a script that builds its mounts
  threads  runs threads over one world; --walkers N, --workers N, --rounds N
  help     writes this, or what a COMMAND does; so do --help and -h

--version and -V write the version.
Exit status: 0 done; 1 a fault, a trace that breaks a law, or a question that
doesn't come out as asked; 2 no command line; 3 not all orders were seen.
Example: echo events | automount_cli world
"
}

fn script_help() -> &'static [u8]
    ensures { result.now ≡ script_help }
{
    b"Usage: automount_cli script < FILE

Reads a script, plays it, and writes the answer of each event, a line each.
All lines that were read are answered before more is read, so that a program
at the other end of two pipes can choose each event by the answers before it.

Options:
  -h, --help  write this

Exit status: 0 the script was played to its end; 1 a fault, told on standard
error with its line.
Example: echo events | automount_cli script
"
}

fn trace_help() -> &'static [u8]
    ensures { result.now ≡ trace_help }
{
    b"Usage: automount_cli trace [--plain] < FILE

Reads a script, plays it as script does, and writes its trace: each event after
the number of its line, its answer after =, with how many lines stand below it,
and what is observed, a line each, after two blanks.

Options:
  --plain     leave out the numbers of lines, so that diff compares two traces
  -h, --help  write this

Exit status: 0 the trace was written to its end; 1 a fault, told on standard
error with its line.
Example: echo events | automount_cli trace
"
}

fn draw_help() -> &'static [u8]
    ensures { result.now ≡ draw_help }
{
    b"Usage: automount_cli draw [--from N] [--to N] < FILE

Reads a script, whole, plays it, and writes a picture of what happens, an SVG;
of a script without events nothing.

Options:
  --from N    the first event that is drawn, from 1; 1 if left out
  --to N      the last one, from 1; if left out the last of the script
  -h, --help  write this

Exit status: 0 the picture was written to its end; 1 a fault, told on standard
error with its line.
Example: automount_cli draw --to 40 < FILE > FILE.svg
"
}

fn world_help() -> &'static [u8]
    ensures { result.now ≡ world_help }
{
    b"Usage: automount_cli world [--namespace N] < FILE

Reads a script, whole, plays it, and writes the world that it leaves: the
mounts of each namespace as /proc/PID/mountinfo has them, and what else there
is in comments.

Options:
  --namespace N  the mounts of this namespace, and nothing else
  -h, --help     write this

Exit status: 0 the world was written to its end; 1 a fault, told on standard
error with its line.
Example: automount_cli world --namespace 0 < FILE
"
}

fn serve_help() -> &'static [u8]
    ensures { result.now ≡ serve_help }
{
    b"Usage: automount_cli serve

Reads lines, and answers each before it waits for the next: by no line or more,
and then by a line that is just a dot. The lines up to events are the head of a
script. Behind it a line is an event, a question or a command; one that is none
of these is answered by its fault, and nothing has changed.

  ?trace             what the last event showed
  ?world, ?world N   the world as it is, or the mounts of one namespace
  ?next JOB          what a job does next
  ?waiting W         the token on which a walker waits
  ?kind NS PATH      how a mount takes part in propagation
  ?lawful            whether all that was observed is lawful
  !save, !back       keeps a copy of the world, and comes back to it
  !reset             another head begins

Options:
  -h, --help  write this

Exit status: 0 the input came to its end; 1 a fault of a stream, told on
standard error with its line.
Example: echo '!reset' | automount_cli serve
"
}

fn explore_help() -> &'static [u8]
    ensures { result.now ≡ explore_help }
{
    b"Usage: automount_cli explore [--most N] [--prefix CHOICES] < SCENE

Reads a scene, whole: a script, and behind its events threads and questions.
Tries all orders in which the threads' events can come, and writes for each
question whether some order meets it, with the events of a shortest one.

  thread NAME .. end     the events of a thread, a line each, in their order
  serve daemon [fail N]  the daemon takes part; its acts may fail with error N
  sometimes, never       before what is asked: NAME waiting, that this thread
                         waits without end; NAME N ANSWER, that its event
                         number N is answered so; or a LINE, that the world's
                         text has such a line at the end, * is any word
  always LINE            that it has one at each end

Options:
  --most N          the most states of one search; 1000000 if left out
  --prefix CHOICES  orders alone that begin with these choices, each its number
                    among those that there are, from 1: as 3,1,12
  -h, --help        write this

Exit status: 0 each came out as asked, by an order or by none; 1 one didn't, or
a fault, told on standard error; 3 else, where a search was cut.
Example: automount_cli explore --most 5000 < FILE
"
}

fn judge_help() -> &'static [u8]
    ensures { result.now ≡ judge_help }
{
    b"Usage: automount_cli judge < TRACE

Reads a trace, whole, and writes lawful, or the line at which a law of traces
is broken first, and which law.

Options:
  -h, --help  write this

Exit status: 0 the trace is lawful; 1 it breaks a law, or a fault, told on
standard error with its line and column.
Example: automount_cli trace < FILE | automount_cli judge
"
}

fn import_help() -> &'static [u8]
    ensures { result.now ≡ import_help }
{
    b"Usage: automount_cli import < MOUNTINFO

Reads the mountinfo of one or more mount namespaces, whole, each after a line
# namespace, and writes a script that builds the same mounts.

Options:
  -h, --help  write this

Exit status: 0 the script was written to its end; 1 a fault, told on standard
error with its line and column.
Example: automount_cli import < /proc/self/mountinfo
"
}

fn threads_help() -> &'static [u8]
    ensures { result.now ≡ threads_help }
{
    b"Usage: automount_cli threads [--walkers N] [--workers N] [--rounds N]

Reads nothing. Has walkers, workers of the daemon and an expirer run as
threads over one world, and writes how many rounds all walkers made.

Options:
  --walkers N  how many walk, from 1 to 16; 4 if left out
  --workers N  how many serve them, from 1 to 16; 2 if left out
  --rounds N   how often each walks, from 1 to 1000; 10 if left out
  -h, --help   write this

Exit status: 0 all rounds were made and written; 1 out of memory, or they
weren't written, told on standard error.
Example: automount_cli threads --walkers 2 --rounds 100
"
}

fn help_help() -> &'static [u8]
    ensures { result.now ≡ help_help }
{
    b"Usage: automount_cli help [COMMAND]

Reads nothing, and writes what the program does, or what one command does.

Options:
  -h, --help  write this

Exit status: 0 it was written to its end; 1 it wasn't, told on standard error.
Example: automount_cli help draw
"
}

/// What a command does, or the program.
pub(crate) fn help_text(topic: Option<Topic>) -> &'static [u8]
    ensures { result.now ≡ help_text topic }
{
    match topic {
        None => program_help(),
        Some(Topic::Script) => script_help(),
        Some(Topic::Trace) => trace_help(),
        Some(Topic::Draw) => draw_help(),
        Some(Topic::World) => world_help(),
        Some(Topic::Serve) => serve_help(),
        Some(Topic::Explore) => explore_help(),
        Some(Topic::Judge) => judge_help(),
        Some(Topic::Import) => import_help(),
        Some(Topic::Threads) => threads_help(),
        Some(Topic::Help) => help_help(),
    }
}

/// The command lines that there are.
pub(crate) fn usage() -> &'static [u8]
    ensures { result.now ≡ usage_text }
{
    b"usage: automount_cli script|serve|judge|import < FILE
       automount_cli trace [--plain] < FILE
       automount_cli draw [--from N] [--to N] < FILE
       automount_cli world [--namespace N] < FILE
       automount_cli explore [--most N] [--prefix CHOICES] < FILE
       automount_cli threads [--walkers N] [--workers N] [--rounds N]
       automount_cli help [COMMAND]
       automount_cli --version
"
}
