/// What may be done to a file or its attributes (ISO 8571-2, actions), with its number.
#[derive(Clone, Copy, PartialEq, Eq)]
pub enum Action {
    Read = 0,
    Insert = 1,
    Replace = 2,
    Extend = 3,
    Erase = 4,
    ReadAttribute = 5,
    ChangeAttribute = 6,
    Delete = 7,
}

/// A set of actions: the sum of 2^i over its actions, i being the action's number.
#[derive(Clone, Copy, PartialEq, Eq)]
pub struct Actions {
    pub value: u8,
}

/// How an action on a file is shared with its other users (ISO 8571-2, concurrency control), with its number.
#[derive(Clone, Copy, PartialEq, Eq)]
pub enum Control {
    NotRequired = 0,
    Shared = 1,
    Exclusive = 2,
    NoAccess = 3,
}

/// A control for each action, in the order of the actions' numbers.
#[derive(Clone, Copy, PartialEq, Eq)]
pub struct Controls {
    pub each: [Control; 8],
}
