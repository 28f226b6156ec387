// The table of kinds, in the order of document 01; F5h is of document 02.
use crate::Lengths::{Entries, OneOf};
use crate::{Kind, LENGTH_4A, LENGTH_4B, LENGTH_43, LENGTH_46, LENGTH_EB};

pub const KINDS: [Kind; 21] = [
    Kind {
        id: 0x1B,
        lengths: OneOf(0, 0),
    },
    Kind {
        id: 0x1E,
        lengths: OneOf(0, 0),
    },
    Kind {
        id: 0x26,
        lengths: OneOf(0, 0),
    },
    Kind {
        id: 0x54,
        lengths: OneOf(0, 0),
    },
    Kind {
        id: 0x21,
        lengths: OneOf(0, 1),
    },
    Kind {
        id: 0x24,
        lengths: OneOf(0, 1),
    },
    Kind {
        id: 0x27,
        lengths: OneOf(0, 1),
    },
    Kind {
        id: 0x2A,
        lengths: OneOf(0, 1),
    },
    Kind {
        id: 0x1F,
        lengths: OneOf(0, 1),
    },
    Kind {
        id: 0xF4,
        lengths: OneOf(1, 1),
    },
    Kind {
        id: 0x20,
        lengths: OneOf(2, 2),
    },
    Kind {
        id: 0x23,
        lengths: OneOf(0, 2),
    },
    Kind {
        id: 0x43,
        lengths: OneOf(LENGTH_43, LENGTH_43),
    },
    Kind {
        id: 0x46,
        lengths: OneOf(LENGTH_46, LENGTH_46),
    },
    Kind {
        id: 0x47,
        lengths: OneOf(168, 168),
    },
    Kind {
        id: 0x49,
        lengths: OneOf(93, 130),
    },
    Kind {
        id: 0x4A,
        lengths: OneOf(LENGTH_4A, LENGTH_4A),
    },
    Kind {
        id: 0x4B,
        lengths: OneOf(LENGTH_4B, LENGTH_4B),
    },
    Kind {
        id: 0xEB,
        lengths: OneOf(LENGTH_EB, LENGTH_EB),
    },
    Kind {
        id: 0x52,
        lengths: Entries {
            header: 0,
            width: 7,
            most: 75,
        },
    },
    Kind {
        id: 0xF5,
        lengths: Entries {
            header: 27,
            width: 30,
            most: 32,
        },
    },
];
