//! A zone, names and types that were asked of it, and what named 9.18, nsd 4.6 and knotd 3.2 answered. All sections but the last are those of
//! nsd with minimal responses, and at least one other server has the same. The last is that of knotd. named reports SERVFAIL for loops.

/// The zone `a.test.`, by its records in canonical order of their owners.
pub(crate) const ZONE: [&str; 65] = [
    "a.test. 300 SOA ns.a.test. h.a.test. 1 2 3 4 60",
    "a.test. 300 NS ns.a.test.",
    "a.test. 300 NS ns.other.test.",
    "a.test. 300 MX 10 mail.a.test.",
    "a.test. 300 MX 20 mail.other.test.",
    "a.test. 300 MX 30 *.w.a.test.",
    "*.a.test. 60 TXT x",
    "10.a.test. 60 CNAME 11.a.test.",
    "11.a.test. 60 CNAME 12.a.test.",
    "12.a.test. 60 CNAME 10.a.test.",
    "_sip._tcp.a.test. 60 SRV 1 2 5060 ns.sub.a.test.",
    "_sip._udp.a.test. 60 SRV 1 2 5060 mail.a.test.",
    "alias.a.test. 60 CNAME Ns.a.test.",
    "away.a.test. 60 CNAME www.other.test.",
    "*.b.a.test. 60 MX 5 ns.a.test.",
    "x.b.a.test. 60 TXT x",
    "b\\.c.a.test. 60 A 192.0.2.66",
    "cut.a.test. 60 CNAME x.sub.a.test.",
    "d.a.test. 30 DNAME b.a.test.",
    "deny.a.test. 60 CNAME no.e.a.test.",
    "e.e.a.test. 60 A 192.0.2.1",
    "l1.a.test. 60 CNAME l2.a.test.",
    "l2.a.test. 60 CNAME l3.a.test.",
    "l3.a.test. 60 CNAME l4.a.test.",
    "l4.a.test. 60 CNAME l5.a.test.",
    "l5.a.test. 60 CNAME l6.a.test.",
    "l6.a.test. 60 CNAME l7.a.test.",
    "l7.a.test. 60 CNAME l8.a.test.",
    "l8.a.test. 60 CNAME l9.a.test.",
    "l9.a.test. 60 CNAME la.a.test.",
    "la.a.test. 60 CNAME lb.a.test.",
    "lb.a.test. 60 CNAME lc.a.test.",
    "lc.a.test. 60 CNAME ld.a.test.",
    "ld.a.test. 60 CNAME le.a.test.",
    "le.a.test. 60 CNAME lf.a.test.",
    "lf.a.test. 60 CNAME lg.a.test.",
    "lg.a.test. 60 CNAME lh.a.test.",
    "lh.a.test. 60 CNAME li.a.test.",
    "li.a.test. 60 CNAME lj.a.test.",
    "lj.a.test. 60 CNAME ns.a.test.",
    "long.a.test. 60 DNAME aaaaaaaaaaaaaaaaaaaaaaaaaaaaaaaaaaaaaaaaaaaaaaaaaaaaaaaaaaaaaa.bbbbbbbbbbbbbbbbbbbbbbbbbbbbbbbbbbbbbbbbbbbbbbbbbbbbbbbbbbbbbb.cccccccccccccccccccccccccccccccccccccccccccccccccccccccccccccc.a.test.",
    "loop.a.test. 60 CNAME loop.a.test.",
    "mail.a.test. 60 A 192.0.2.25",
    "mail.a.test. 60 AAAA 2001:db8::25",
    "nodata.a.test. 60 CNAME mail.a.test.",
    "ns.a.test. 60 A 192.0.2.53",
    "q.a.test. 30 DNAME d.a.test.",
    "r.a.test. 30 DNAME r.a.test.",
    "*.s.a.test. 60 CNAME ns.a.test.",
    "sub.a.test. 60 NS ns.sub.a.test.",
    "sub.a.test. 60 NS ns.a.test.",
    "sub.a.test. 60 NS ns.sub2.a.test.",
    "sub.a.test. 60 NS ns.other.test.",
    "sub.a.test. 60 DS 1 13 2 abababababababababababababababababababababababababababababababab",
    "ns.sub.a.test. 60 A 192.0.2.3",
    "ns.sub.a.test. 60 AAAA 2001:db8::3",
    "sub2.a.test. 60 NS ns.sub2.a.test.",
    "ns.sub2.a.test. 60 A 192.0.2.4",
    "t.a.test. 60 CNAME x.d.a.test.",
    "u.a.test. 60 CNAME d.a.test.",
    "*.W.a.test. 60 A 192.0.2.4",
    "y.*.w.a.test. 60 A 192.0.2.5",
    "w1.a.test. 60 MX 5 q.w.a.test.",
    "*.z.a.test. 60 CNAME q.z.a.test.",
    "x.y.z.a.test. 60 A 192.0.2.6",
];

/// Names and types that were asked, with the response code, AA, and the records of the sections: `an`, `au` and `ad`.
pub(crate) const ROWS: [(&str, &str, &str); 59] = [
    (
        "a.test.",
        "A",
        "NOERROR aa\n\
         au a.test. 60 SOA ns.a.test. h.a.test. 1 2 3 4 60",
    ),
    (
        "a.test.",
        "SOA",
        "NOERROR aa\n\
         an a.test. 300 SOA ns.a.test. h.a.test. 1 2 3 4 60",
    ),
    (
        "A.TEST.",
        "MX",
        "NOERROR aa\n\
         an A.TEST. 300 MX 10 mail.A.TEST.\n\
         an A.TEST. 300 MX 20 mail.other.TEST.\n\
         an A.TEST. 300 MX 30 *.w.A.TEST.\n\
         ad mail.A.TEST. 60 A 192.0.2.25\n\
         ad mail.A.TEST. 60 AAAA 2001:db8::25\n\
         ad *.w.a.TEST. 60 A 192.0.2.4",
    ),
    (
        "q.a.test.",
        "DNAME",
        "NOERROR aa\n\
         an q.a.test. 30 DNAME d.a.test.",
    ),
    (
        "q.a.test.",
        "A",
        "NOERROR aa\n\
         au a.test. 60 SOA ns.a.test. h.a.test. 1 2 3 4 60",
    ),
    (
        "z9.a.test.",
        "TXT",
        "NOERROR aa\n\
         an z9.a.test. 60 TXT \"x\"",
    ),
    (
        "z9.a.test.",
        "A",
        "NOERROR aa\n\
         au a.test. 60 SOA ns.a.test. h.a.test. 1 2 3 4 60",
    ),
    (
        "p.z9.a.test.",
        "TXT",
        "NOERROR aa\n\
         an p.z9.a.test. 60 TXT \"x\"",
    ),
    (
        "p.q.a.test.",
        "MX",
        "NOERROR aa\n\
         an q.a.test. 30 DNAME d.a.test.\n\
         an p.q.a.test. 30 CNAME p.d.a.test.\n\
         an d.a.test. 30 DNAME b.a.test.\n\
         an p.d.a.test. 30 CNAME p.b.a.test.\n\
         an p.b.a.test. 60 MX 5 ns.a.test.\n\
         ad ns.a.test. 60 A 192.0.2.53",
    ),
    (
        "10.a.test.",
        "A",
        "NOERROR aa\n\
         an 10.a.test. 60 CNAME 11.a.test.\n\
         an 11.a.test. 60 CNAME 12.a.test.\n\
         an 12.a.test. 60 CNAME 10.a.test.",
    ),
    (
        "11.a.test.",
        "CNAME",
        "NOERROR aa\n\
         an 11.a.test. 60 CNAME 12.a.test.",
    ),
    (
        "alias.a.test.",
        "A",
        "NOERROR aa\n\
         an alias.a.test. 60 CNAME ns.a.test.\n\
         an ns.a.test. 60 A 192.0.2.53",
    ),
    (
        "ALIAS.a.test.",
        "AAAA",
        "NOERROR aa\n\
         an ALIAS.a.test. 60 CNAME ns.a.test.\n\
         au a.test. 60 SOA ns.a.test. h.a.test. 1 2 3 4 60",
    ),
    (
        "away.a.test.",
        "A",
        "NOERROR aa\n\
         an away.a.test. 60 CNAME www.other.test.",
    ),
    (
        "b\\.c.a.test.",
        "A",
        "NOERROR aa\n\
         an b\\.c.a.test. 60 A 192.0.2.66",
    ),
    (
        "b.c.a.test.",
        "A",
        "NOERROR aa\n\
         au a.test. 60 SOA ns.a.test. h.a.test. 1 2 3 4 60",
    ),
    (
        "cut.a.test.",
        "A",
        "NOERROR aa\n\
         an cut.a.test. 60 CNAME x.sub.a.test.\n\
         au sub.a.test. 60 NS ns.sub.a.test.\n\
         au sub.a.test. 60 NS ns.a.test.\n\
         au sub.a.test. 60 NS ns.sub2.a.test.\n\
         au sub.a.test. 60 NS ns.other.test.\n\
         ad ns.sub.a.test. 60 A 192.0.2.3\n\
         ad ns.sub.a.test. 60 AAAA 2001:db8::3\n\
         ad ns.a.test. 60 A 192.0.2.53\n\
         ad ns.sub2.a.test. 60 A 192.0.2.4",
    ),
    (
        "d.a.test.",
        "A",
        "NOERROR aa\n\
         au a.test. 60 SOA ns.a.test. h.a.test. 1 2 3 4 60",
    ),
    (
        "d.a.test.",
        "DNAME",
        "NOERROR aa\n\
         an d.a.test. 30 DNAME b.a.test.",
    ),
    (
        "x.d.a.test.",
        "TXT",
        "NOERROR aa\n\
         an d.a.test. 30 DNAME b.a.test.\n\
         an x.d.a.test. 30 CNAME x.b.a.test.\n\
         an x.b.a.test. 60 TXT \"x\"",
    ),
    (
        "x.d.a.test.",
        "A",
        "NOERROR aa\n\
         an d.a.test. 30 DNAME b.a.test.\n\
         an x.d.a.test. 30 CNAME x.b.a.test.\n\
         au a.test. 60 SOA ns.a.test. h.a.test. 1 2 3 4 60",
    ),
    (
        "X.y.D.a.test.",
        "MX",
        "NOERROR aa\n\
         an D.a.test. 30 DNAME b.a.test.\n\
         an X.y.D.a.test. 30 CNAME x.y.b.a.test.\n\
         an x.y.b.a.test. 60 MX 5 ns.a.test.\n\
         ad ns.a.test. 60 A 192.0.2.53",
    ),
    (
        "z.x.d.a.test.",
        "A",
        "NXDOMAIN aa\n\
         an d.a.test. 30 DNAME b.a.test.\n\
         an z.x.d.a.test. 30 CNAME z.x.b.a.test.\n\
         au a.test. 60 SOA ns.a.test. h.a.test. 1 2 3 4 60",
    ),
    (
        "deny.a.test.",
        "A",
        "NXDOMAIN aa\n\
         an deny.a.test. 60 CNAME no.e.a.test.\n\
         au a.test. 60 SOA ns.a.test. h.a.test. 1 2 3 4 60",
    ),
    (
        "e.a.test.",
        "A",
        "NOERROR aa\n\
         au a.test. 60 SOA ns.a.test. h.a.test. 1 2 3 4 60",
    ),
    (
        "no.e.a.test.",
        "A",
        "NXDOMAIN aa\n\
         au a.test. 60 SOA ns.a.test. h.a.test. 1 2 3 4 60",
    ),
    (
        "E.e.a.test.",
        "A",
        "NOERROR aa\n\
         an E.e.a.test. 60 A 192.0.2.1",
    ),
    (
        "b.a.test.",
        "MX",
        "NOERROR aa\n\
         au a.test. 60 SOA ns.a.test. h.a.test. 1 2 3 4 60",
    ),
    (
        "y.b.a.test.",
        "MX",
        "NOERROR aa\n\
         an y.b.a.test. 60 MX 5 ns.a.test.\n\
         ad ns.a.test. 60 A 192.0.2.53",
    ),
    (
        "x.b.a.test.",
        "MX",
        "NOERROR aa\n\
         au a.test. 60 SOA ns.a.test. h.a.test. 1 2 3 4 60",
    ),
    (
        "loop.a.test.",
        "A",
        "NOERROR aa\n\
         an loop.a.test. 60 CNAME loop.a.test.",
    ),
    (
        "yyyyyyyyyyyyyyyyyyyyyyyyyyyyyyyyyyyyyyyyyyyyyyyyyyyyyyyyyyyyyy.long.a.test.",
        "A",
        "YXDOMAIN aa\n\
         an long.a.test. 60 DNAME aaaaaaaaaaaaaaaaaaaaaaaaaaaaaaaaaaaaaaaaaaaaaaaaaaaaaaaaaaaaaa.bbbbbbbbbbbbbbbbbbbbbbbbbbbbbbbbbbbbbbbbbbbbbbbbbbbbbbbbbbbbbb.cccccccccccccccccccccccccccccccccccccccccccccccccccccccccccccc.a.test.",
    ),
    (
        "nodata.a.test.",
        "TXT",
        "NOERROR aa\n\
         an nodata.a.test. 60 CNAME mail.a.test.\n\
         au a.test. 60 SOA ns.a.test. h.a.test. 1 2 3 4 60",
    ),
    (
        "x.r.a.test.",
        "A",
        "NOERROR aa\n\
         an r.a.test. 30 DNAME r.a.test.\n\
         an x.r.a.test. 30 CNAME x.r.a.test.",
    ),
    (
        "q.s.a.test.",
        "A",
        "NOERROR aa\n\
         an q.s.a.test. 60 CNAME ns.a.test.\n\
         an ns.a.test. 60 A 192.0.2.53",
    ),
    (
        "q.s.a.test.",
        "AAAA",
        "NOERROR aa\n\
         an q.s.a.test. 60 CNAME ns.a.test.\n\
         au a.test. 60 SOA ns.a.test. h.a.test. 1 2 3 4 60",
    ),
    (
        "_sip._udp.a.test.",
        "SRV",
        "NOERROR aa\n\
         an _sip._udp.a.test. 60 SRV 1 2 5060 mail.a.test.\n\
         ad mail.a.test. 60 A 192.0.2.25\n\
         ad mail.a.test. 60 AAAA 2001:db8::25",
    ),
    (
        "sub.a.test.",
        "A",
        "NOERROR\n\
         au sub.a.test. 60 NS ns.sub.a.test.\n\
         au sub.a.test. 60 NS ns.a.test.\n\
         au sub.a.test. 60 NS ns.sub2.a.test.\n\
         au sub.a.test. 60 NS ns.other.test.\n\
         ad ns.sub.a.test. 60 A 192.0.2.3\n\
         ad ns.sub.a.test. 60 AAAA 2001:db8::3\n\
         ad ns.a.test. 60 A 192.0.2.53\n\
         ad ns.sub2.a.test. 60 A 192.0.2.4",
    ),
    (
        "SUB.a.test.",
        "DS",
        "NOERROR aa\n\
         an SUB.a.test. 60 DS 1 13 2 abababababababababababababababababababababababababababababababab",
    ),
    (
        "sub.a.test.",
        "NS",
        "NOERROR\n\
         au sub.a.test. 60 NS ns.sub.a.test.\n\
         au sub.a.test. 60 NS ns.a.test.\n\
         au sub.a.test. 60 NS ns.sub2.a.test.\n\
         au sub.a.test. 60 NS ns.other.test.\n\
         ad ns.sub.a.test. 60 A 192.0.2.3\n\
         ad ns.sub.a.test. 60 AAAA 2001:db8::3\n\
         ad ns.a.test. 60 A 192.0.2.53\n\
         ad ns.sub2.a.test. 60 A 192.0.2.4",
    ),
    (
        "x.sub.a.test.",
        "DS",
        "NOERROR\n\
         au sub.a.test. 60 NS ns.sub.a.test.\n\
         au sub.a.test. 60 NS ns.a.test.\n\
         au sub.a.test. 60 NS ns.sub2.a.test.\n\
         au sub.a.test. 60 NS ns.other.test.\n\
         ad ns.sub.a.test. 60 A 192.0.2.3\n\
         ad ns.sub.a.test. 60 AAAA 2001:db8::3\n\
         ad ns.a.test. 60 A 192.0.2.53\n\
         ad ns.sub2.a.test. 60 A 192.0.2.4",
    ),
    (
        "ns.sub.a.test.",
        "A",
        "NOERROR\n\
         au sub.a.test. 60 NS ns.sub.a.test.\n\
         au sub.a.test. 60 NS ns.a.test.\n\
         au sub.a.test. 60 NS ns.sub2.a.test.\n\
         au sub.a.test. 60 NS ns.other.test.\n\
         ad ns.sub.a.test. 60 A 192.0.2.3\n\
         ad ns.sub.a.test. 60 AAAA 2001:db8::3\n\
         ad ns.a.test. 60 A 192.0.2.53\n\
         ad ns.sub2.a.test. 60 A 192.0.2.4",
    ),
    (
        "sub2.a.test.",
        "A",
        "NOERROR\n\
         au sub2.a.test. 60 NS ns.sub2.a.test.\n\
         ad ns.sub2.a.test. 60 A 192.0.2.4",
    ),
    (
        "sub2.a.test.",
        "DS",
        "NOERROR aa\n\
         au a.test. 60 SOA ns.a.test. h.a.test. 1 2 3 4 60",
    ),
    (
        "t.a.test.",
        "A",
        "NOERROR aa\n\
         an t.a.test. 60 CNAME x.d.a.test.\n\
         an d.a.test. 30 DNAME b.a.test.\n\
         an x.d.a.test. 30 CNAME x.b.a.test.\n\
         au a.test. 60 SOA ns.a.test. h.a.test. 1 2 3 4 60",
    ),
    (
        "t.a.test.",
        "TXT",
        "NOERROR aa\n\
         an t.a.test. 60 CNAME x.d.a.test.\n\
         an d.a.test. 30 DNAME b.a.test.\n\
         an x.d.a.test. 30 CNAME x.b.a.test.\n\
         an x.b.a.test. 60 TXT \"x\"",
    ),
    (
        "u.a.test.",
        "DNAME",
        "NOERROR aa\n\
         an u.a.test. 60 CNAME d.a.test.\n\
         an d.a.test. 30 DNAME b.a.test.",
    ),
    (
        "q.w.a.test.",
        "A",
        "NOERROR aa\n\
         an q.w.a.test. 60 A 192.0.2.4",
    ),
    (
        "q.W.a.test.",
        "TXT",
        "NOERROR aa\n\
         au a.test. 60 SOA ns.a.test. h.a.test. 1 2 3 4 60",
    ),
    (
        "y.*.w.a.test.",
        "A",
        "NOERROR aa\n\
         an y.*.w.a.test. 60 A 192.0.2.5",
    ),
    (
        "z.*.w.a.test.",
        "A",
        "NXDOMAIN aa\n\
         au a.test. 60 SOA ns.a.test. h.a.test. 1 2 3 4 60",
    ),
    (
        "*.w.a.test.",
        "A",
        "NOERROR aa\n\
         an *.w.a.test. 60 A 192.0.2.4",
    ),
    (
        "q.z.a.test.",
        "A",
        "NOERROR aa\n\
         an q.z.a.test. 60 CNAME q.z.a.test.",
    ),
    (
        "y.z.a.test.",
        "A",
        "NOERROR aa\n\
         au a.test. 60 SOA ns.a.test. h.a.test. 1 2 3 4 60",
    ),
    (
        "y.y.z.a.test.",
        "A",
        "NXDOMAIN aa\n\
         au a.test. 60 SOA ns.a.test. h.a.test. 1 2 3 4 60",
    ),
    (
        "w1.a.test.",
        "MX",
        "NOERROR aa\n\
         an w1.a.test. 60 MX 5 q.w.a.test.\n\
         ad q.w.a.test. 60 A 192.0.2.4",
    ),
    (
        "l9.a.test.",
        "A",
        "NOERROR aa\n\
         an l9.a.test. 60 CNAME la.a.test.\n\
         an la.a.test. 60 CNAME lb.a.test.\n\
         an lb.a.test. 60 CNAME lc.a.test.\n\
         an lc.a.test. 60 CNAME ld.a.test.\n\
         an ld.a.test. 60 CNAME le.a.test.\n\
         an le.a.test. 60 CNAME lf.a.test.\n\
         an lf.a.test. 60 CNAME lg.a.test.\n\
         an lg.a.test. 60 CNAME lh.a.test.\n\
         an lh.a.test. 60 CNAME li.a.test.\n\
         an li.a.test. 60 CNAME lj.a.test.\n\
         an lj.a.test. 60 CNAME ns.a.test.\n\
         an ns.a.test. 60 A 192.0.2.53",
    ),
    ("other.test.", "A", "REFUSED"),
    ("test.", "SOA", "REFUSED"),
];
