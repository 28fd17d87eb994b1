//! Changes of a model that are drawn. Each fits what stands there, and after all of an act the tables are valid.
use super::drawn::{Draw, Sort};
use super::model::{Entry, Model, Record};
use vf_base::NoMemory;

/// Draws some changes, and makes them.
pub fn act(draw: &mut Draw, model: &mut Model, to: &mut Record) -> Result<(), NoMemory> {
    match draw.below(7) {
        0 => act_on_user(draw, model, to),
        1 | 2 => act_on_file(draw, model, to),
        3 | 4 => act_on_docket(draw, model, to),
        _ => act_on_task(draw, model, to),
    }
}

fn name_of(letter: u8) -> [u8; 3] {
    [0, 1, letter]
}

fn act_on_user(draw: &mut Draw, model: &mut Model, to: &mut Record) -> Result<(), NoMemory> {
    let key = name_of(draw.letter());
    let fields = draw.password()?;
    model.put_user(to, &key, &fields)
}

/// The document type and the version in the attributes of a file.
fn sort_of(file: &Entry) -> Sort {
    let fields = file.fields();
    let version = match fields {
        [.., a, b, c, d] => u32::from_be_bytes([*a, *b, *c, *d]),
        _ => 0,
    };
    Sort {
        kind: fields.get(1).copied().unwrap_or(0),
        version,
    }
}

/// Makes a file, or changes one; a file with a docket keeps its name.
fn act_on_file(draw: &mut Draw, model: &mut Model, to: &mut Record) -> Result<(), NoMemory> {
    let key = name_of(draw.letter());
    let Some(file) = model.files.find(&key) else {
        let kind = draw.kind();
        return put_file(draw, model, to, &key, Sort { kind, version: 1 });
    };
    let mut sort = sort_of(file);
    sort.version = sort.version.saturating_add(1);
    let is_free = !has_docket(model, &key);
    match draw.below(4) {
        0 if is_free => model.drop_file(to, &key),
        1 if is_free => rename(draw, model, to, &key, sort),
        2 => put_file(draw, model, to, &key, sort),
        _ => put_attributes(draw, model, to, &key, &key, sort),
    }
}

/// Whether a docket has the file: its fields begin with the file's name.
fn has_docket(model: &Model, name: &[u8]) -> bool {
    let dockets = model.dockets.as_slice();
    dockets
        .iter()
        .any(|docket| docket.fields().starts_with(name))
}

fn put_file(
    draw: &mut Draw,
    model: &mut Model,
    to: &mut Record,
    key: &[u8],
    sort: Sort,
) -> Result<(), NoMemory> {
    let fields = draw.attributes(sort)?;
    let units = draw.units(sort.kind)?;
    model.put_file(to, key, &fields, &units)
}

fn put_attributes(
    draw: &mut Draw,
    model: &mut Model,
    to: &mut Record,
    key: &[u8],
    new_key: &[u8],
    sort: Sort,
) -> Result<(), NoMemory> {
    let fields = draw.attributes(sort)?;
    model.put_attributes(to, key, new_key, &fields)
}

/// Gives a file a name that no file has, or its own.
fn rename(
    draw: &mut Draw,
    model: &mut Model,
    to: &mut Record,
    key: &[u8],
    sort: Sort,
) -> Result<(), NoMemory> {
    let new_key = name_of(draw.letter());
    if model.files.find(&new_key).is_some() {
        return put_attributes(draw, model, to, key, key, sort);
    }
    put_attributes(draw, model, to, key, &new_key, sort)
}

/// Drops a docket, or makes one of its file idle, a read, or a write with fewer pieces, as many, or one more.
fn act_on_docket(draw: &mut Draw, model: &mut Model, to: &mut Record) -> Result<(), NoMemory> {
    let letter = draw.letter();
    let key = [0, 1, draw.letter(), 0, 0, 0, letter];
    let Some(file) = model.files.find(&name_of(letter)) else {
        return Ok(());
    };
    let sort = sort_of(file);
    let pieces = model.dockets.pieces(&key);
    let more = pieces.saturating_add(1);
    let (direction, point) = match draw.below(6) {
        0 if model.dockets.find(&key).is_some() => return model.drop_docket(to, &key),
        0 | 1 => (0, 0),
        2 => (1, 0),
        3 => (2, draw.below(more)),
        _ => (2, more),
    };
    let fields = draw.regime(letter, sort, direction, point)?;
    model.put_docket(to, &key, &fields)?;
    if point == more {
        return model.stage(to, &key, draw.piece());
    }
    model.cut_stage(to, &key, point)
}

/// Drops a task, or makes or changes it: the activities 1 and 2 are gets, and 3 and 4 puts.
fn act_on_task(draw: &mut Draw, model: &mut Model, to: &mut Record) -> Result<(), NoMemory> {
    let activity = 1 + draw.below(4) as u8;
    let key = [0, 0, 0, activity];
    if draw.below(5) == 0 && model.tasks.find(&key).is_some() {
        return model.drop_task(to, &key);
    }
    if activity < 3 {
        return act_on_get(draw, model, to, &key);
    }
    act_on_put(draw, model, to, &key)
}

/// A get goes back to a checkpoint, comes to the next one, or is whole (2).
fn act_on_get(
    draw: &mut Draw,
    model: &mut Model,
    to: &mut Record,
    key: &[u8],
) -> Result<(), NoMemory> {
    let pieces = model.tasks.pieces(key);
    let more = pieces.saturating_add(1);
    let (phase, point) = match draw.below(4) {
        0 => (1, draw.below(more)),
        1 => (2, pieces),
        _ => (1, more),
    };
    let fields = draw.plan(1, point, phase)?;
    model.put_task(to, key, &fields)?;
    if phase == 2 || point == more {
        return model.stage_task(to, key, more, draw.piece());
    }
    model.cut_task(to, key, point)
}

/// A put gets other fields, and in some cases another piece in the place of its one.
fn act_on_put(
    draw: &mut Draw,
    model: &mut Model,
    to: &mut Record,
    key: &[u8],
) -> Result<(), NoMemory> {
    let point = draw.below(1_000_001);
    let phase = draw.below(4) as u8;
    let fields = draw.plan(2, point, phase)?;
    model.put_task(to, key, &fields)?;
    if model.tasks.pieces(key) > 0 {
        if draw.below(2) == 0 {
            return Ok(());
        }
        model.cut_task(to, key, 0)?;
    }
    model.stage_task(to, key, 0, draw.piece())
}
