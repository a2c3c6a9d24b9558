// The names that a line begins with.

#[derive(Clone, Copy)]
pub enum Name {
    Chart,
    Past,
    // The lines on the words of a direction.
    Book,
    As,
    Lend,
    Poke,
    Words,
    Sum,
    // The calls with a record.
    Open,
    Step,
    Lent,
    Solve,
    Plan,
    Retrace,
    // The lines on a record.
    Record,
    Copy,
    Entry,
    Wanted,
    Best,
    Entries,
    Wanteds,
    Finished,
}

pub fn read_name(name: &[u8]) -> Option<Name> {
    Some(match name {
        b"chart" => Name::Chart,
        b"past" => Name::Past,
        b"book" => Name::Book,
        b"as" => Name::As,
        b"lend" => Name::Lend,
        b"poke" => Name::Poke,
        b"words" => Name::Words,
        b"sum" => Name::Sum,
        b"open" => Name::Open,
        b"step" => Name::Step,
        b"lent" => Name::Lent,
        b"solve" => Name::Solve,
        b"plan" => Name::Plan,
        b"retrace" => Name::Retrace,
        b"record" => Name::Record,
        b"copy" => Name::Copy,
        b"entry" => Name::Entry,
        b"wanted" => Name::Wanted,
        b"best" => Name::Best,
        b"entries" => Name::Entries,
        b"wanteds" => Name::Wanteds,
        b"finished" => Name::Finished,
        _ => return None,
    })
}
