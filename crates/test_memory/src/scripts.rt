//! The scripts. A new one is a new entry, and a file of what must be seen in the folder `expected`.

use crate::step::record_of;
use dns_names_wire::error::ProtoResult;
use dns_names_wire::name::Name;
use dns_names_wire::script::{Item, Part, Step};
use std::alloc::Global;

/// What a step of a script is made from.
#[derive(Clone, Copy)]
pub enum Line {
    Name(&'static str),
    /// So many steps, each of the root's name.
    Roots(usize),
    Bytes(&'static [u8]),
    Max(u16),
    Reserve,
    Fill(usize, u16),
    /// An NS record of this owner, with this name as its data.
    Record(&'static str, &'static str),
    /// Items, each of names alone.
    Items(&'static [&'static [&'static str]]),
}

impl Line {
    /// Returns how many steps it makes.
    pub(crate) fn count(self) -> usize {
        match self {
            Line::Roots(count) => count,
            _ => 1,
        }
    }
}

/// A script, which is run over no bytes.
#[derive(Clone, Copy)]
pub struct Script {
    pub name: &'static str,
    pub lines: &'static [Line],
}

/// Every script. `tools/test` makes each of their allocations fail in turn.
pub const SCRIPTS: &[Script] = &[
    SHARING, PLACED, UNDONE, RECORD, MANY, LONG, HOSTS, ROOTS, COUNTED,
];

/// Each name shares what it can with those before it.
// each growth of four names that share their suffixes is refused in turn
const SHARING: Script = Script {
    name: "script_sharing",
    lines: &[
        Line::Name("ra.rb.rc."),
        Line::Name("rb.rc."),
        Line::Name("rc."),
        Line::Name("z.ra.rb.rc."),
    ],
};

/// A place is filled once.
// each growth of two names after a placeholder that is filled is refused in turn
const PLACED: Script = Script {
    name: "script_place",
    lines: &[
        Line::Reserve,
        Line::Name("a."),
        Line::Name("b.a."),
        Line::Fill(0, 0x0162),
        Line::Fill(0, 0x0162),
    ],
};

/// An item is undone, and bytes stand where it stood.
// each growth of items of which one is undone is refused in turn
const UNDONE: Script = Script {
    name: "script_items",
    lines: &[
        Line::Max(10),
        Line::Items(&[&["a."], &["b."], &["x.", "yy."]]),
        Line::Max(20),
        Line::Bytes(&[1, 0x78, 0]),
        Line::Name("x."),
    ],
};

/// A record is undone whole, in whichever of its fields memory runs out. The placeholder before it keeps the first
/// allocation of the buffer small.
const RECORD: Script = Script {
    name: "script_record",
    lines: &[
        Line::Reserve,
        Line::Record("a.", "b.a."),
        Line::Name("b.a."),
    ],
};

/// Names of four bytes that share nothing.
const MANY: Script = Script {
    name: "script_many",
    lines: &[
        Line::Name("na."),
        Line::Name("nb."),
        Line::Name("nc."),
        Line::Name("nd."),
        Line::Name("ne."),
        Line::Name("nf."),
        Line::Name("ng."),
        Line::Name("nh."),
        Line::Name("ni."),
        Line::Name("nj."),
    ],
};

/// Labels of more bytes than a candidate holds without memory of its own.
const LONG: Script = Script {
    name: "script_long",
    lines: &[
        Line::Name("abcdefghijklmnopqrstuvwxyz0123456789.b."),
        Line::Name("c.abcdefghijklmnopqrstuvwxyz0123456789.b."),
        Line::Name("c.abcdefghijklmnopqrstuvwxyz0123456789.b."),
    ],
};

/// One name more than candidates are kept, which share nothing; and then the last and the first again.
// each growth of 65 names, and of the last and the first of them again, is refused in turn
const HOSTS: Script = Script {
    name: "script_hosts",
    lines: &[
        Line::Name("aa."),
        Line::Name("ab."),
        Line::Name("ac."),
        Line::Name("ad."),
        Line::Name("ae."),
        Line::Name("ba."),
        Line::Name("bb."),
        Line::Name("bc."),
        Line::Name("bd."),
        Line::Name("be."),
        Line::Name("ca."),
        Line::Name("cb."),
        Line::Name("cc."),
        Line::Name("cd."),
        Line::Name("ce."),
        Line::Name("da."),
        Line::Name("db."),
        Line::Name("dc."),
        Line::Name("dd."),
        Line::Name("de."),
        Line::Name("ea."),
        Line::Name("eb."),
        Line::Name("ec."),
        Line::Name("ed."),
        Line::Name("ee."),
        Line::Name("fa."),
        Line::Name("fb."),
        Line::Name("fc."),
        Line::Name("fd."),
        Line::Name("fe."),
        Line::Name("ga."),
        Line::Name("gb."),
        Line::Name("gc."),
        Line::Name("gd."),
        Line::Name("ge."),
        Line::Name("ha."),
        Line::Name("hb."),
        Line::Name("hc."),
        Line::Name("hd."),
        Line::Name("he."),
        Line::Name("ia."),
        Line::Name("ib."),
        Line::Name("ic."),
        Line::Name("id."),
        Line::Name("ie."),
        Line::Name("ja."),
        Line::Name("jb."),
        Line::Name("jc."),
        Line::Name("jd."),
        Line::Name("je."),
        Line::Name("ka."),
        Line::Name("kb."),
        Line::Name("kc."),
        Line::Name("kd."),
        Line::Name("ke."),
        Line::Name("la."),
        Line::Name("lb."),
        Line::Name("lc."),
        Line::Name("ld."),
        Line::Name("le."),
        Line::Name("ma."),
        Line::Name("mb."),
        Line::Name("mc."),
        Line::Name("md."),
        Line::Name("me."),
        Line::Name("me."),
        Line::Name("aa."),
    ],
};

/// The name that ends the script is the last one that is compressed.
// each growth of 120 names is refused in turn
const ROOTS: Script = Script {
    name: "script_roots",
    lines: &[Line::Name("a."), Line::Roots(118), Line::Name("a.")],
};

/// The name that ends the script is one too many to be compressed, if no name before it was refused. The placeholder keeps the
/// first allocation of the buffer small.
// a name that is refused for memory is not counted
const COUNTED: Script = Script {
    name: "script_counted",
    lines: &[
        Line::Reserve,
        Line::Name("a."),
        Line::Roots(119),
        Line::Name("a."),
    ],
};

/// The steps of a script.
pub(crate) fn steps(alloc: Global, lines: &[Line]) -> ProtoResult<Vec<Step>> {
    let mut count = 0usize;
    for line in lines {
        count = count.saturating_add(line.count());
    }
    let mut steps = Vec::with_capacity(alloc, count)?;
    for line in lines {
        for _ in 0..line.count() {
            steps.push(step(alloc, *line)?)?;
        }
    }
    Ok(steps)
}

fn step(alloc: Global, line: Line) -> ProtoResult<Step> {
    Ok(match line {
        Line::Name(text) => Step::Name(Name::from_ascii(alloc, text)?),
        Line::Roots(_) => Step::Name(Name::root(alloc)),
        Line::Bytes(bytes) => Step::Bytes(Vec::from_slice(alloc, bytes)?),
        Line::Max(size) => Step::Max(size),
        Line::Reserve => Step::Reserve,
        Line::Fill(place, value) => Step::Fill { place, value },
        Line::Record(owner, server) => Step::Record(record_of(alloc, owner, server)?),
        Line::Items(items) => Step::Items(items_of(alloc, items)?),
    })
}

fn items_of(alloc: Global, items: &[&[&str]]) -> ProtoResult<Vec<Item>> {
    let mut made = Vec::with_capacity(alloc, items.len())?;
    for names in items {
        made.push(Item {
            encoding: None,
            parts: parts(alloc, names)?,
        })?;
    }
    Ok(made)
}

fn parts(alloc: Global, names: &[&str]) -> ProtoResult<Vec<Part>> {
    let mut parts = Vec::with_capacity(alloc, names.len())?;
    for text in names {
        parts.push(Part::Name(Name::from_ascii(alloc, text)?))?;
    }
    Ok(parts)
}
