// What the arguments ask for: the command, the options behind it, and the arguments that it is about.
use text::args;

#[derive(Clone, Copy, PartialEq, Eq)]
enum Command {
    Run,
    Check,
    Explain,
}

// Whether the status is to be told, on descriptor 3; and how `run` shows what is left: that alone, and all of it.
#[derive(Clone, Copy)]
pub struct Options {
    pub tell: bool,
    pub quiet: bool,
    pub all: bool,
}

// What is to be done, by the numbers of the arguments: run the listings from one on, check one against the next, explain one whose base register another one is.
#[derive(Clone, Copy)]
pub enum Task {
    Run(Options, usize),
    Check(usize, usize),
    Explain(usize, Option<usize>),
}

// The task is missing where the arguments are not as they should be.
#[derive(Clone, Copy)]
pub struct Asked {
    pub tell: bool,
    pub task: Option<Task>,
}

fn first_word(rt: HostRuntime) -> Option<Command> {
    let mut word = [0; 8];
    let n = args::whole(rt, 1, &mut word);
    match &word[..n] {
        b"run" => Some(Command::Run),
        b"check" => Some(Command::Check),
        b"explain" => Some(Command::Explain),
        _ => None,
    }
}

// The options with that of a word, if it is one. Only `run` has more than --tell.
fn with(o: Options, word: &[u8], run: bool) -> Option<Options> {
    match word {
        b"--tell" => Some(Options { tell: true, ..o }),
        b"--quiet" if run => Some(Options { quiet: true, ..o }),
        b"--all" if run => Some(Options { all: true, ..o }),
        _ => None,
    }
}

// The options, and the number of the first argument behind them.
fn options_of(rt: HostRuntime, run: bool) -> (Options, usize) {
    let mut o = Options {
        tell: false,
        quiet: false,
        all: false,
    };
    let count = args::count(rt);
    for i in 2..count {
        let mut word = [0; 8];
        let n = args::whole(rt, i, &mut word);
        match with(o, &word[..n], run) {
            Some(more) => o = more,
            None => return (o, i),
        }
    }
    (o, count)
}

// Whether an argument begins as an option does. `run` takes no such word before its files, so that an option that is misspelt is no file.
fn dashed(rt: HostRuntime, i: usize) -> bool {
    let mut word = [0; 2];
    args::beginning(rt, i, &mut word) == 2 && word == *b"--"
}

fn task_of(rt: HostRuntime, command: Command, o: Options, first: usize) -> Option<Task> {
    let left = args::count(rt).saturating_sub(first);
    // There are fewer arguments than numbers.
    let behind = first.wrapping_add(1);
    match (command, left) {
        (Command::Run, 1..) if !dashed(rt, first) => Some(Task::Run(o, first)),
        (Command::Check, 2) => Some(Task::Check(first, behind)),
        (Command::Explain, 1) => Some(Task::Explain(first, None)),
        (Command::Explain, 2) => Some(Task::Explain(first, Some(behind))),
        _ => None,
    }
}

pub fn read(rt: HostRuntime) -> Asked {
    let command = first_word(rt);
    let (o, first) = options_of(rt, command == Some(Command::Run));
    Asked {
        tell: o.tell,
        task: command.and_then(|c| task_of(rt, c, o, first)),
    }
}
