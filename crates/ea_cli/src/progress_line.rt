//! The line that shows how far a command is.
use ea_base::Watch;
use ea_options::Command;
use std::io::IsTerminal;
use std::time::Instant;

/// How many seconds are between two lines, at least.
const PAUSE: u64 = 1;

/// A network with fewer nodes is prepared in less than about half a second, without a line.
const LONG_TO_PREPARE: u32 = 100_000;

/// Whether a command shows how far it is.
pub fn tells_progress(command: &Command<'_>) -> bool {
    match command {
        Command::Run { options, .. }
        | Command::Pairs { options, .. }
        | Command::Rank { options, .. }
        | Command::Check { options, .. } => options.progress,
        Command::Stored | Command::Explain { .. } | Command::Formats => false,
    }
}

/// When a command began, and when a line was last told of it.
#[derive(Clone, Copy)]
struct Times {
    began: Instant,
    told: Instant,
}

/// Writes to standard error how many problems are done: a line, at most one in a second, and one before a large network is
/// prepared. On a terminal each is written over the one before. A line that can't be written is left out.
#[derive(Drop)]
pub struct Line<'a> {
    rt: &'a HostRuntime,
    /// None if nothing is shown, or the clock can't be read.
    times: Option<Times>,
    is_terminal: bool,
    /// Whether a line is on the terminal.
    is_shown: bool,
    problems: usize,
    nodes: usize,
    walks: usize,
}

impl<'a> Line<'a> {
    /// Begins with a command; it shows nothing if that isn't asked for.
    pub fn begin(rt: &'a HostRuntime, is_asked: bool) -> Line<'a> {
        let times = match Instant::now(rt) {
            Ok(now) if is_asked => Some(Times {
                began: now,
                told: now,
            }),
            _ => None,
        };
        Line {
            rt,
            times,
            is_terminal: rt.stderr().is_terminal(),
            is_shown: false,
            problems: 0,
            nodes: 0,
            walks: 0,
        }
    }

    /// Shows how many of all problems are done.
    fn tell(&mut self, done: usize, of: usize, seconds: u64) {
        let rt = self.rt;
        let _ = if self.is_terminal {
            self.is_shown = true;
            eprint!(rt; "\r\x1b[Kearliest: {done} of {of} problems, {seconds} s")
        } else {
            eprintln!(rt; "earliest: {done} of {of} problems, {seconds} s")
        };
    }

    /// Shows that a network is being prepared.
    fn tell_preparing(&mut self, nodes: u32) {
        let rt = self.rt;
        let _ = if self.is_terminal {
            self.is_shown = true;
            eprint!(rt; "\r\x1b[Kearliest: preparing a network of {nodes} nodes")
        } else {
            eprintln!(rt; "earliest: preparing a network of {nodes} nodes")
        };
    }

    /// Takes the line off the terminal.
    pub fn clear(&mut self) {
        if self.is_shown {
            self.is_shown = false;
            let _ = eprint!(self.rt; "\r\x1b[K");
        }
    }

    /// Shows what was checked.
    pub fn tell_checked(&self) {
        let (problems, nodes, walks) = (self.problems, self.nodes, self.walks);
        let _ = eprintln!(self.rt;
            "earliest: checked: problems {problems}, nodes {nodes}, walks {walks}"
        );
    }
}

impl Watch for Line<'_> {
    fn did(&mut self, done: usize, of: usize) {
        let Some(times) = self.times else {
            return;
        };
        let Ok(now) = Instant::now(self.rt) else {
            return;
        };
        if now.duration_since(times.told).as_secs() >= PAUSE {
            let began = times.began;
            self.times = Some(Times { began, told: now });
            self.tell(done, of, now.duration_since(began).as_secs());
        }
    }

    fn checked(&mut self, nodes: usize, walks: usize) {
        self.problems = self.problems.saturating_add(1);
        self.nodes = self.nodes.saturating_add(nodes);
        self.walks = self.walks.saturating_add(walks);
    }

    fn prepares(&mut self, nodes: u32) {
        let Some(times) = self.times else {
            return;
        };
        if nodes < LONG_TO_PREPARE {
            return;
        }
        if let Ok(told) = Instant::now(self.rt) {
            self.times = Some(Times { told, ..times });
            self.tell_preparing(nodes);
        }
    }
}
