//! About how many octets of a record are to be copied. No promise rests on it: where there are more, their room grows.
use vf_attr::File;
use vf_base::Element;
use vf_disk::LEAST_SHARED;
use vf_tables::Change;
use vf_tree::octets_of;

/// What a list needs besides its strings, and what a string needs besides its octets; neither needs more.
const AROUND: usize = 16;

/// What the other fields of a change seldom pass.
const FIELDS: usize = 256;

fn room_of_elements(elements: &[Element]) -> usize {
    let mut room = AROUND;
    for element in elements {
        let octets = octets_of(element) as usize;
        if octets < LEAST_SHARED {
            room = room.saturating_add(octets);
        }
        room = room.saturating_add(AROUND);
    }
    room
}

fn room_of_file(file: &File) -> usize {
    let mut room = AROUND;
    for unit in file.tree.units() {
        room = room.saturating_add(room_of_elements(unit.as_slice()));
    }
    room
}

fn room_of(change: &Change) -> usize {
    match change {
        Change::PutFile { file } => room_of_file(file),
        Change::Stage { elements, .. } => room_of_elements(elements.as_slice()),
        Change::StageTask { elements, .. } => room_of_elements(elements.as_slice()),
        _ => 0,
    }
}

/// Room for the record of changes with a gate and a length, in octets.
pub(crate) fn room_for(changes: &[Change]) -> usize {
    let mut room = AROUND;
    for change in changes {
        room = room.saturating_add(room_of(change));
        room = room.saturating_add(FIELDS);
    }
    room
}
