// The table of document 01's record, as reading looks for its fields.
use crate::fields::Line;

pub const FROM: Line = Line {
    tag: 1,
    size: 1,
    must: true,
    last: false,
};

pub const TO: Line = Line {
    tag: 2,
    size: 1,
    must: true,
    last: false,
};

pub const VALUE: Line = Line {
    tag: 3,
    size: 8,
    must: true,
    last: false,
};

pub const CLOCKS: Line = Line {
    tag: 4,
    size: 8,
    must: true,
    last: false,
};

pub const SLOT: Line = Line {
    tag: 5,
    size: 16,
    must: false,
    last: false,
};

pub const TOKEN: Line = Line {
    tag: 6,
    size: 16,
    must: false,
    last: true,
};
