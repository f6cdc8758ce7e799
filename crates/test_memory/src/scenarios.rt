//! The scenarios. A new one is a new entry, and a file of what must be seen in the folder `expected`.

ghost use Rattle.std.specs.Prelude.{◌<◌, ◌≤◌, ◌↔◌, IsTrue, length};
ghost use Rattle.dns_names_wire.specs.Words.{value};

use crate::step::Step;
use dns_names_wire::encoder::{BinEncoder, NameEncoding};
use std::fmt;

/// Labels of the buffer, from one place to another.
#[derive(Clone, Copy)]
pub struct Labels {
    pub start: usize,
    pub end: usize,
}

impl Labels {
    /// Whether they stand before the offset, where an encoder can be asked for them.
    pub(crate) fn are_written(&self, encoder: &BinEncoder<'_>) -> bool
        ensures { IsTrue result ↔ ((self.now.start < (value encoder.now).offset) × (self.now.start ≤ self.now.end)
            × (self.now.end ≤ length (value encoder.now).bytes) × (self.now.end ≤ 65535)) }
    {
        self.start < encoder.offset()
            && self.start <= self.end
            && self.end <= encoder.len()
            && self.end <= 65535
    }
}

impl fmt::Display for Labels {
    fn fmt<W: fmt::Write>(&self, f: &mut fmt::Formatter<W>) -> fmt::Result {
        let start = self.start;
        let end = self.end;
        write!(f, "{start}..{end}")
    }
}

/// Calls that are made in turn on one encoder, which begins over no bytes.
#[derive(Clone, Copy)]
pub struct Scenario {
    pub name: &'static str,
    /// The labels of which each line says whether a candidate has them.
    pub watched: &'static [Labels],
    pub steps: &'static [Step],
}

/// Every scenario. `tools/test` makes each of their allocations fail in turn.
pub const SCENARIOS: &[Scenario] = &[
    NUMBERS,
    BYTES,
    MIDDLE,
    TEXT,
    PLACE,
    PLACE_OVER_THE_END,
    CANDIDATES,
    ITEMS,
    NAMES,
    TO_BYTES,
    TO_ASCII,
    RECORDS,
];

const NUMBERS: Scenario = Scenario {
    name: "numbers",
    watched: &[],
    steps: &[
        Step::U16(258),
        Step::U32(16909060),
        Step::U32(84281096),
        Step::I32(-2),
        Step::I32(-3),
        Step::U8(7),
    ],
};

const BYTES: Scenario = Scenario {
    name: "bytes",
    watched: &[],
    steps: &[
        Step::Bytes(&[1, 2, 3]),
        Step::Mode(NameEncoding::Uncompressed),
        Step::Bytes(&[4, 5, 6, 7, 8, 9]),
        Step::Bytes(&[10]),
    ],
};

/// Bytes that begin before the buffer's end and go past it.
const MIDDLE: Scenario = Scenario {
    name: "middle",
    watched: &[],
    steps: &[
        Step::Bytes(&[1, 2, 3, 4]),
        Step::Offset(2),
        Step::Bytes(&[0xA1, 0xA2, 0xA3, 0xA4, 0xA5, 0xA6, 0xA7, 0xA8, 0xA9]),
        Step::Offset(1),
        Step::Bytes(&[0xB1, 0xB2]),
    ],
};

const TEXT: Scenario = Scenario {
    name: "text",
    watched: &[],
    steps: &[
        Step::Text(b"abc"),
        Step::Text(b"defgh"),
        Step::Offset(5),
        Step::Text(b"ijklmnopqrst"),
        Step::U8(255),
    ],
};

const PLACE: Scenario = Scenario {
    name: "place",
    watched: &[],
    steps: &[
        Step::Place,
        Step::Bytes(&[1, 2, 3, 4, 5, 6]),
        Step::Place,
        Step::U8(7),
        Step::Fill(0x0809),
    ],
};

const PLACE_OVER_THE_END: Scenario = Scenario {
    name: "place_over_the_end",
    watched: &[],
    steps: &[
        Step::Bytes(&[1, 2, 3, 4, 5, 6, 7, 8]),
        Step::Offset(7),
        Step::Place,
        Step::Fill(0x0A0B),
        Step::U8(12),
    ],
};

const CANDIDATES: Scenario = Scenario {
    name: "candidates",
    watched: &[Labels { start: 0, end: 2 }, Labels { start: 2, end: 4 }],
    steps: &[
        Step::Bytes(&[1, 0x61, 1, 0x62]),
        Step::Store(Labels { start: 0, end: 2 }),
        Step::Store(Labels { start: 2, end: 4 }),
        Step::U8(0),
    ],
};

const ITEMS: Scenario = Scenario {
    name: "items",
    watched: &[],
    steps: &[Step::Items(&[1, 2, 3, 4, 5]), Step::Items(&[6])],
};

const NAMES: Scenario = Scenario {
    name: "names",
    watched: &[],
    steps: &[
        Step::Mode(NameEncoding::Uncompressed),
        Step::Name("a.bc."),
        Step::Name("D."),
        Step::Mode(NameEncoding::UncompressedLowercase),
        Step::Name("D."),
    ],
};

const TO_BYTES: Scenario = Scenario {
    name: "to_bytes",
    watched: &[],
    steps: &[Step::U8(1), Step::ToBytes("a.bc."), Step::U8(2)],
};

/// The second text has no name, and a text of its own in its error.
const TO_ASCII: Scenario = Scenario {
    name: "to_ascii",
    watched: &[],
    steps: &[
        Step::U8(1),
        Step::ToAscii("a.bc."),
        Step::ToAscii("\\8"),
        Step::U8(2),
    ],
};

/// Records that are undone if memory runs out in any of their fields.
const RECORDS: Scenario = Scenario {
    name: "records",
    watched: &[],
    steps: &[
        Step::Record("a.", "b.a."),
        Step::Record("a.", "b.a."),
        Step::Record("a.", "b.a."),
    ],
};
