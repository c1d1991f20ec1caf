//! Kinds of notes as a table, counts, and the laws of passes.
use cb_pass::{FileMap, Meter, Note, NoteKind, one_pass, same_pass};

fn is_shared<T: Send + Sync>() {}

/// The first kind whose number or name is another.
fn wrong_kind() -> Option<NoteKind> {
    let rows = [
        (NoteKind::Missing, 1, "Missing"),
        (NoteKind::BadInclude, 2, "BadInclude"),
        (NoteKind::BadDefine, 3, "BadDefine"),
        (NoteKind::Redefined, 4, "Redefined"),
        (NoteKind::BadCondition, 5, "BadCondition"),
        (NoteKind::TooLong, 6, "TooLong"),
        (NoteKind::TooDeep, 7, "TooDeep"),
        (NoteKind::Budget, 8, "Budget"),
        (NoteKind::ErrorReached, 9, "ErrorReached"),
        (NoteKind::NoMain, 10, "NoMain"),
    ];
    for (kind, number, name) in rows {
        if kind.number() != number || kind.name() != name {
            return Some(kind);
        }
    }
    None
}

#[test]
fn kinds_have_numbers_and_names(rt: HostRuntime) {
    assert!(rt; wrong_kind().is_none());
}

/// Two counts of nothing together.
fn joined() -> u64 {
    let mut meter = Meter::new();
    meter.join(Meter::new());
    meter.value()
}

#[test]
fn counts_begin_at_zero(rt: HostRuntime) {
    one_pass();
    same_pass();
    is_shared::<FileMap>();
    is_shared::<Note>();
    is_shared::<Meter>();
    assert!(rt; joined() == 0);
}
