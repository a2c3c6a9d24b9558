// The lines that set a part of a search record.
use crate::names::Name;
use model::{BestSolution, Search, TreeMemory};
use text::bytes::capped;
use text::fields::Field::{self, Hyphen, Number};

// The record as a line leaves it that has one of these forms. The first field is the number of the record.
pub fn set(name: Name, fields: &[Field], mut record: Search) -> Option<Search> {
    match (name, fields) {
        (Name::Entry, [_, Number(i), Number(slot), count, node]) => {
            *record.trees.get_mut(*i)? = TreeMemory {
                tree: capped(*slot),
                last_known_closed_len: held(*count)?,
                solution: held(*node)?,
            };
        }
        (Name::Wanted, [_, Number(i), Number(vertex)]) => {
            *record.goal_keys.get_mut(*i)? = capped(*vertex);
        }
        (Name::Best, [_, Hyphen]) => record.best_solution = None,
        (Name::Best, [_, Number(entry), Number(node)]) => {
            let (entry, node) = (capped(*entry), capped(*node));
            record.best_solution = Some(BestSolution { entry, node });
        }
        (Name::Entries, [_, Number(n)]) => record.tree_count = capped(*n),
        (Name::Wanteds, [_, Number(n)]) => record.goal_count = capped(*n),
        (Name::Finished, [_, Number(0)]) => record.exhausted = false,
        (Name::Finished, [_, Number(1)]) => record.exhausted = true,
        _ => return None,
    }
    Some(record)
}

// A number, or `-` for none.
fn held(field: Field) -> Option<Option<u32>> {
    match field {
        Number(n) => Some(Some(capped(n))),
        Hyphen => Some(None),
        Field::Other => None,
    }
}
