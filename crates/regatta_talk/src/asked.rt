//! What lines ask for, by who answers them.
ghost use Rattle.std.specs.Prelude.{◌≡◌};
ghost use Rattle.regatta_talk.specs.Replies.{asked_line, next_apart};

use regatta_terms::{Command, Line, LineFault, Role, Sail};

/// Whether the session answers more lines.
#[derive(Clone, Copy, Debug, PartialEq, Eq)]
pub enum Next {
    /// The session goes on.
    Go,
    /// QUIT has ended it.
    End,
}

/// A line that the desk answers.
#[derive(Clone, Copy, Debug, PartialEq, Eq)]
pub enum DeskLine {
    /// Do this command.
    Do(Command),
    /// Reply with this boat's rank and net points.
    Rank(Sail),
}

/// A line that asks nothing of the board: whoever reads it answers it.
#[derive(Clone, Copy, Debug, PartialEq, Eq)]
pub enum ApartLine {
    /// Take the commands of the lines after this one in that role.
    SetRole(Role),
    /// End the session.
    Quit,
    /// The line can't be read.
    Fault(LineFault),
}

impl ApartLine {
    /// Whether lines after it are answered.
    pub fn next(self) -> Next
        ensures { result ≡ next_apart self }
    {
        match self {
            ApartLine::Quit => Next::End,
            ApartLine::SetRole(_) | ApartLine::Fault(_) => Next::Go,
        }
    }
}

/// What a line asks for, by who answers it.
#[derive(Clone, Copy, Debug, PartialEq, Eq)]
pub enum AskedLine {
    /// The desk, under its lock.
    Desk(DeskLine),
    /// SHOW: the pass, from what is published.
    Show,
    /// Nobody else has to be asked.
    Apart(ApartLine),
}

impl AskedLine {
    /// What a line asks for.
    pub fn of(line: Result<Line, LineFault>) -> AskedLine
        ensures { result ≡ asked_line line }
    {
        match &line {
            Ok(Line::Do(command)) => AskedLine::Desk(DeskLine::Do(*command)),
            Ok(Line::Rank(sail)) => AskedLine::Desk(DeskLine::Rank(*sail)),
            Ok(Line::Show) => AskedLine::Show,
            Ok(Line::SetRole(next)) => AskedLine::Apart(ApartLine::SetRole(*next)),
            Ok(Line::Quit) => AskedLine::Apart(ApartLine::Quit),
            Err(fault) => AskedLine::Apart(ApartLine::Fault(*fault)),
        }
    }
}
