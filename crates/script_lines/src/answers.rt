// What the lines answer, as text.
use model::{Refusal, Refused, Search, SearchStatus, number};
use std::fmt;

#[derive(Clone, Copy)]
pub enum Answer<'a> {
    // A word alone, as `opened` or `set`.
    Done(&'static str),
    // A word and a number, as `lent 16`.
    Counted(&'static str, usize),
    // A word, and the words of a cache or of a path.
    Words(&'static str, &'a [u32]),
    Refused(Refusal),
    // Opening a cache alone has a line at fault.
    RefusedAt(Refused),
    Stepped {
        status: SearchStatus,
        tickets: usize,
    },
    // How many of some steps waited, and the tickets of all.
    Solved {
        status: SearchStatus,
        waits: usize,
        tickets: usize,
    },
    // The same of a whole search, and its path if that was written.
    Planned {
        status: SearchStatus,
        waits: usize,
        tickets: usize,
        path: Option<&'a [u32]>,
    },
    Record(&'a Search),
}

impl fmt::Display for Answer<'_> {
    fn fmt<W: fmt::Write>(&self, f: &mut fmt::Formatter<W>) -> fmt::Result {
        match *self {
            Answer::Done(word) => write!(f, "{word}"),
            Answer::Counted(word, n) => write!(f, "{word} {n}"),
            Answer::Words(word, words) => write!(f, "{word}{}", Spaced(words)),
            Answer::Refused(refusal) => write!(f, "refused {}", number(refusal)),
            Answer::RefusedAt(Refused { refusal, line }) => {
                write!(f, "refused {} {line}", number(refusal))
            }
            Answer::Stepped { status, tickets } => write!(f, "{} {tickets}", Standing(status)),
            Answer::Solved {
                status,
                waits,
                tickets,
            } => write!(f, "{} {waits} {tickets}", Standing(status)),
            Answer::Planned {
                status,
                waits,
                tickets,
                path,
            } => {
                write!(f, "{} {waits} {tickets}", Standing(status))?;
                match path {
                    Some(path) => write!(f, "{}", Spaced(path)),
                    None => write!(f, " -"),
                }
            }
            Answer::Record(record) => write_record(record, f),
        }
    }
}

// How a search stands.
#[derive(Clone, Copy)]
struct Standing(SearchStatus);

impl fmt::Display for Standing {
    fn fmt<W: fmt::Write>(&self, f: &mut fmt::Formatter<W>) -> fmt::Result {
        match self.0 {
            SearchStatus::Incomplete => write!(f, "waiting"),
            SearchStatus::Solved { total_cost, moves } => write!(f, "solved {total_cost} {moves}"),
            SearchStatus::Impossible => write!(f, "none"),
        }
    }
}

// Words, each behind a space.
#[derive(Clone, Copy)]
struct Spaced<'a>(&'a [u32]);

impl fmt::Display for Spaced<'_> {
    fn fmt<W: fmt::Write>(&self, f: &mut fmt::Formatter<W>) -> fmt::Result {
        for word in self.0 {
            write!(f, " {word}")?;
        }
        Ok(())
    }
}

// A number that may be absent.
#[derive(Clone, Copy)]
struct Held(Option<u32>);

impl fmt::Display for Held {
    fn fmt<W: fmt::Write>(&self, f: &mut fmt::Formatter<W>) -> fmt::Result {
        match self.0 {
            Some(n) => write!(f, "{n}"),
            None => write!(f, "-"),
        }
    }
}

// At most the first 64 of each list.
fn write_record<W: fmt::Write>(record: &Search, f: &mut fmt::Formatter<W>) -> fmt::Result {
    write!(f, "record ")?;
    write_entries(record, f)?;
    write!(f, " ")?;
    write_goals(record, f)?;
    match record.best_solution {
        Some(best) => write!(f, " {}:{}", best.entry, best.node)?,
        None => write!(f, " -")?,
    }
    write!(f, " {}", u8::from(record.exhausted))
}

fn write_entries<W: fmt::Write>(record: &Search, f: &mut fmt::Formatter<W>) -> fmt::Result {
    if record.tree_count == 0 {
        return write!(f, "-");
    }
    let count = record.tree_count as usize;
    for (i, entry) in record.trees.iter().enumerate().take(count) {
        let known = Held(entry.last_known_closed_len);
        let node = Held(entry.solution);
        write!(f, "{}{}:{known}:{node}", comma_before(i), entry.tree)?;
    }
    Ok(())
}

fn write_goals<W: fmt::Write>(record: &Search, f: &mut fmt::Formatter<W>) -> fmt::Result {
    if record.goal_count == 0 {
        return write!(f, "-");
    }
    let count = record.goal_count as usize;
    for (i, goal) in record.goal_keys.iter().enumerate().take(count) {
        write!(f, "{}{goal}", comma_before(i))?;
    }
    Ok(())
}

// Behind each but the last of a list, and so before each but the first.
fn comma_before(i: usize) -> &'static str {
    if i == 0 { "" } else { "," }
}
