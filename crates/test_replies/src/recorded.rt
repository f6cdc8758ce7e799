//! Requests, and what servers replied to them, as `diff/servers/replying.py` writes them.

/// The zone `a.test.`, by its records in canonical order of their owners.
pub(crate) const ZONE: [&str; 112] = [
    "a.test. 300 SOA ns.a.test. h.a.test. 1 2 3 4 30",
    "a.test. 300 NS ns.a.test.",
    "a.test. 300 NS ns.other.test.",
    "a.test. 300 MX 10 mail.a.test.",
    "a.test. 300 MX 20 mail.other.test.",
    "_s._tcp.a.test. 60 SRV 1 2 5060 mail.a.test.",
    "alias.a.test. 60 CNAME one.a.test.",
    "back.a.test. 60 CNAME d.a.test.",
    "big.a.test. 60 A 10.0.0.1",
    "big.a.test. 60 A 10.0.0.2",
    "big.a.test. 60 A 10.0.0.3",
    "big.a.test. 60 A 10.0.0.4",
    "big.a.test. 60 A 10.0.0.5",
    "big.a.test. 60 A 10.0.0.6",
    "big.a.test. 60 A 10.0.0.7",
    "big.a.test. 60 A 10.0.0.8",
    "big.a.test. 60 A 10.0.0.9",
    "big.a.test. 60 A 10.0.0.10",
    "big.a.test. 60 A 10.0.0.11",
    "big.a.test. 60 A 10.0.0.12",
    "big.a.test. 60 A 10.0.0.13",
    "big.a.test. 60 A 10.0.0.14",
    "big.a.test. 60 A 10.0.0.15",
    "big.a.test. 60 A 10.0.0.16",
    "big.a.test. 60 A 10.0.0.17",
    "big.a.test. 60 A 10.0.0.18",
    "big.a.test. 60 A 10.0.0.19",
    "big.a.test. 60 A 10.0.0.20",
    "big.a.test. 60 A 10.0.0.21",
    "big.a.test. 60 A 10.0.0.22",
    "big.a.test. 60 A 10.0.0.23",
    "big.a.test. 60 A 10.0.0.24",
    "big.a.test. 60 A 10.0.0.25",
    "big.a.test. 60 A 10.0.0.26",
    "big.a.test. 60 A 10.0.0.27",
    "big.a.test. 60 A 10.0.0.28",
    "big.a.test. 60 A 10.0.0.29",
    "big.a.test. 60 A 10.0.0.30",
    "big.a.test. 60 A 10.0.0.31",
    "big.a.test. 60 A 10.0.0.32",
    "big.a.test. 60 A 10.0.0.33",
    "big.a.test. 60 A 10.0.0.34",
    "big.a.test. 60 A 10.0.0.35",
    "big.a.test. 60 A 10.0.0.36",
    "big.a.test. 60 A 10.0.0.37",
    "big.a.test. 60 A 10.0.0.38",
    "big.a.test. 60 A 10.0.0.39",
    "big.a.test. 60 A 10.0.0.40",
    "d.a.test. 30 DNAME t.a.test.",
    "deep.a.test. 60 NS ns1.deep.a.test.",
    "deep.a.test. 60 NS ns2.deep.a.test.",
    "deep.a.test. 60 NS ns3.deep.a.test.",
    "deep.a.test. 60 NS ns4.deep.a.test.",
    "deep.a.test. 60 NS ns5.deep.a.test.",
    "deep.a.test. 60 NS ns6.deep.a.test.",
    "deep.a.test. 60 NS ns7.deep.a.test.",
    "deep.a.test. 60 NS ns8.deep.a.test.",
    "ns1.deep.a.test. 60 A 10.1.0.1",
    "ns1.deep.a.test. 60 AAAA 2001:db8::1:1",
    "ns2.deep.a.test. 60 A 10.1.0.2",
    "ns2.deep.a.test. 60 AAAA 2001:db8::1:2",
    "ns3.deep.a.test. 60 A 10.1.0.3",
    "ns3.deep.a.test. 60 AAAA 2001:db8::1:3",
    "ns4.deep.a.test. 60 A 10.1.0.4",
    "ns4.deep.a.test. 60 AAAA 2001:db8::1:4",
    "ns5.deep.a.test. 60 A 10.1.0.5",
    "ns5.deep.a.test. 60 AAAA 2001:db8::1:5",
    "ns6.deep.a.test. 60 A 10.1.0.6",
    "ns6.deep.a.test. 60 AAAA 2001:db8::1:6",
    "ns7.deep.a.test. 60 A 10.1.0.7",
    "ns7.deep.a.test. 60 AAAA 2001:db8::1:7",
    "ns8.deep.a.test. 60 A 10.1.0.8",
    "ns8.deep.a.test. 60 AAAA 2001:db8::1:8",
    "e.e.a.test. 60 TXT \"x\"",
    "gone.a.test. 60 CNAME nothing.a.test.",
    "into.a.test. 60 CNAME x.sub.a.test.",
    "long.a.test. 60 TXT \"xxxxxxxxxxxxxxxxxxxxxxxxxxxxxxxxxxxxxxxxxxxxxxxxxxxxxxxxxxxxxxxxxxxxxxxxxxxxxxxxxxxxxxxxxxxxxxxxxxxxxxxxxxxxxxxxxxxxxxxxxxxxxxxxxxxxxxxxxxxxxxxxxxxxxxxxxxxxxxxxxxxxxxxxxxxxxxxxxxxxxxxxxxxxxxxxxxxxxxxx\" \"yyyyyyyyyyyyyyyyyyyyyyyyyyyyyyyyyyyyyyyyyyyyyyyyyyyyyyyyyyyyyyyyyyyyyyyyyyyyyyyyyyyyyyyyyyyyyyyyyyyyyyyyyyyyyyyyyyyyyyyyyyyyyyyyyyyyyyyyyyyyyyyyyyyyyyyyyyyyyyyyyyyyyyyyyyyyyyyyyyyyyyyyyyyyyyyyyyyyyyyy\"",
    "long.a.test. 60 TXT \"zzzzzzzzzzzzzzzzzzzzzzzzzzzzzzzzzzzzzzzzzzzzzzzzzzzzzzzzzzzzzzzzzzzzzzzzzzzzzzzzzzzzzzzzzzzzzzzzzzzzzzzzzzzzzzzzzzzzzzzzzzzzzzzzzzzzzzzzzzzzzzzzzzzzzzzzzzzzzzzzzzzzzzzzzzzzzzzzzzzzzzzzzzzzzzzzzzzzzzzz\"",
    "loop.a.test. 60 CNAME loop.a.test.",
    "m.a.test. 60 MX 1 mail1.many.a.test.",
    "m.a.test. 60 MX 2 mail2.many.a.test.",
    "m.a.test. 60 MX 3 mail3.many.a.test.",
    "m.a.test. 60 MX 4 mail4.many.a.test.",
    "m.a.test. 60 MX 5 mail5.many.a.test.",
    "m.a.test. 60 MX 6 mail6.many.a.test.",
    "mail.a.test. 60 A 192.0.2.25",
    "mail.a.test. 60 AAAA 2001:db8::25",
    "mail1.many.a.test. 60 AAAA 2001:db8::1",
    "mail10.many.a.test. 60 AAAA 2001:db8::10",
    "mail11.many.a.test. 60 AAAA 2001:db8::11",
    "mail12.many.a.test. 60 AAAA 2001:db8::12",
    "mail2.many.a.test. 60 AAAA 2001:db8::2",
    "mail3.many.a.test. 60 AAAA 2001:db8::3",
    "mail4.many.a.test. 60 AAAA 2001:db8::4",
    "mail5.many.a.test. 60 AAAA 2001:db8::5",
    "mail6.many.a.test. 60 AAAA 2001:db8::6",
    "mail7.many.a.test. 60 AAAA 2001:db8::7",
    "mail8.many.a.test. 60 AAAA 2001:db8::8",
    "mail9.many.a.test. 60 AAAA 2001:db8::9",
    "ns.a.test. 60 A 192.0.2.53",
    "one.a.test. 60 CNAME two.a.test.",
    "out.a.test. 60 CNAME www.other.test.",
    "sub.a.test. 60 NS ns.sub.a.test.",
    "sub.a.test. 60 NS ns.other.test.",
    "sub.a.test. 60 DS 1 13 2 abababababababababababababababababababababababababababababababab",
    "ns.sub.a.test. 60 A 192.0.2.4",
    "ns.sub.a.test. 60 AAAA 2001:db8::4",
    "x.t.a.test. 60 A 192.0.2.3",
    "y.t.a.test. 60 CNAME x.d.a.test.",
    "z.t.a.test. 60 CNAME d.a.test.",
    "two.a.test. 60 CNAME mail.a.test.",
    "*.w.a.test. 60 TXT \"x\"",
];

/// What is asked, the octets of the request, and the reply.
pub(crate) const ROWS: [(&str, &str, &str); 83] = [
    (
        "A",
        "123401000001000000000000046d61696c016104746573740000010001",
        "NOERROR op0 qr aa rd\n\
         an mail.a.test. 60 A 192.0.2.25",
    ),
    (
        "A without RD",
        "123400000001000000000000046d61696c016104746573740000010001",
        "NOERROR op0 qr aa\n\
         an mail.a.test. 60 A 192.0.2.25",
    ),
    (
        "A with CD and AD",
        "123401300001000000000000046d61696c016104746573740000010001",
        "NOERROR op0 qr aa rd cd\n\
         an mail.a.test. 60 A 192.0.2.25",
    ),
    (
        "A with all flags of a query",
        "123407f00001000000000000046d61696c016104746573740000010001",
        "NOERROR op0 qr aa rd cd\n\
         an mail.a.test. 60 A 192.0.2.25",
    ),
    (
        "A with EDNS",
        "123401000001000000000001046d61696c01610474657374000001000100002904d0000000000000",
        "NOERROR op0 qr aa rd\n\
         an mail.a.test. 60 A 192.0.2.25\n\
         opt 0 1232 0",
    ),
    (
        "A with DO",
        "123401000001000000000001046d61696c0161047465737400000100010000291000000080000000",
        "NOERROR op0 qr aa rd\n\
         an mail.a.test. 60 A 192.0.2.25\n\
         opt 0 1232 1",
    ),
    (
        "A, mixed case",
        "123401000001000000000001046d41694c01410474457354000001000100002904d0000000000000",
        "NOERROR op0 qr aa rd\n\
         an mAiL.A.tEsT. 60 A 192.0.2.25\n\
         opt 0 1232 0",
    ),
    (
        "A, small payload",
        "123401000001000000000001036269670161047465737400000100010000290064000000000000",
        "NOERROR op0 qr aa tc rd\n\
         opt 0 1232 0",
    ),
    (
        "no data",
        "123401000001000000000001046d61696c0161047465737400000f000100002904d0000000000000",
        "NOERROR op0 qr aa rd\n\
         au a.test. 30 SOA ns.a.test. h.a.test. 1 2 3 4 30\n\
         opt 0 1232 0",
    ),
    (
        "no name",
        "123401000001000000000001026e6f01610474657374000001000100002904d0000000000000",
        "NXDOMAIN op0 qr aa rd\n\
         au a.test. 30 SOA ns.a.test. h.a.test. 1 2 3 4 30\n\
         opt 0 1232 0",
    ),
    (
        "no name, no EDNS",
        "1234010000010000000000000178026e6f016104746573740000010001",
        "NXDOMAIN op0 qr aa rd\n\
         au a.test. 30 SOA ns.a.test. h.a.test. 1 2 3 4 30",
    ),
    (
        "empty non-terminal",
        "1234010000010000000000000165016104746573740000010001",
        "NOERROR op0 qr aa rd\n\
         au a.test. 30 SOA ns.a.test. h.a.test. 1 2 3 4 30",
    ),
    (
        "wildcard",
        "1234010000010000000000010178017701610474657374000010000100002904d0000000000000",
        "NOERROR op0 qr aa rd\n\
         an x.w.a.test. 60 TXT \"x\"\n\
         opt 0 1232 0",
    ),
    (
        "wildcard, no data",
        "12340100000100000000000001780177016104746573740000010001",
        "NOERROR op0 qr aa rd\n\
         au a.test. 30 SOA ns.a.test. h.a.test. 1 2 3 4 30",
    ),
    (
        "wildcard itself",
        "123401000001000000000000012a0177016104746573740000100001",
        "NOERROR op0 qr aa rd\n\
         an *.w.a.test. 60 TXT \"x\"",
    ),
    (
        "MX",
        "1234010000010000000000010161047465737400000f000100002904d0000000000000",
        "NOERROR op0 qr aa rd\n\
         an a.test. 300 MX 10 mail.a.test.\n\
         an a.test. 300 MX 20 mail.other.test.\n\
         ad mail.a.test. 60 A 192.0.2.25\n\
         ad mail.a.test. 60 AAAA 2001:db8::25\n\
         opt 0 1232 0",
    ),
    (
        "SRV",
        "123401000001000000000001025f73045f74637001610474657374000021000100002904d0000000000000",
        "NOERROR op0 qr aa rd\n\
         an _s._tcp.a.test. 60 SRV 1 2 5060 mail.a.test.\n\
         ad mail.a.test. 60 A 192.0.2.25\n\
         ad mail.a.test. 60 AAAA 2001:db8::25\n\
         opt 0 1232 0",
    ),
    (
        "NS of the apex",
        "12340100000100000000000101610474657374000002000100002904d0000000000000",
        "NOERROR op0 qr aa rd\n\
         an a.test. 300 NS ns.a.test.\n\
         an a.test. 300 NS ns.other.test.\n\
         ad ns.a.test. 60 A 192.0.2.53\n\
         opt 0 1232 0",
    ),
    (
        "SOA",
        "123401000001000000000000016104746573740000060001",
        "NOERROR op0 qr aa rd\n\
         an a.test. 300 SOA ns.a.test. h.a.test. 1 2 3 4 30",
    ),
    (
        "referral",
        "12340100000100000000000101780373756201610474657374000001000100002904d0000000000000",
        "NOERROR op0 qr rd\n\
         au sub.a.test. 60 NS ns.sub.a.test.\n\
         au sub.a.test. 60 NS ns.other.test.\n\
         ad ns.sub.a.test. 60 A 192.0.2.4\n\
         ad ns.sub.a.test. 60 AAAA 2001:db8::4\n\
         opt 0 1232 0",
    ),
    (
        "referral, no EDNS",
        "12340100000100000000000003737562016104746573740000020001",
        "NOERROR op0 qr rd\n\
         au sub.a.test. 60 NS ns.sub.a.test.\n\
         au sub.a.test. 60 NS ns.other.test.\n\
         ad ns.sub.a.test. 60 A 192.0.2.4\n\
         ad ns.sub.a.test. 60 AAAA 2001:db8::4",
    ),
    (
        "DS",
        "123401000001000000000001037375620161047465737400002b000100002904d0000000000000",
        "NOERROR op0 qr aa rd\n\
         an sub.a.test. 60 DS 1 13 2 abababababababababababababababababababababababababababababababab\n\
         opt 0 1232 0",
    ),
    (
        "referral with much glue",
        "12340100000100000000000001780464656570016104746573740000010001",
        "NOERROR op0 qr tc rd\n\
         au deep.a.test. 60 NS ns1.deep.a.test.\n\
         au deep.a.test. 60 NS ns2.deep.a.test.\n\
         au deep.a.test. 60 NS ns3.deep.a.test.\n\
         au deep.a.test. 60 NS ns4.deep.a.test.\n\
         au deep.a.test. 60 NS ns5.deep.a.test.\n\
         au deep.a.test. 60 NS ns6.deep.a.test.\n\
         au deep.a.test. 60 NS ns7.deep.a.test.\n\
         au deep.a.test. 60 NS ns8.deep.a.test.\n\
         ad ns1.deep.a.test. 60 A 10.1.0.1\n\
         ad ns1.deep.a.test. 60 AAAA 2001:db8::1:1\n\
         ad ns2.deep.a.test. 60 A 10.1.0.2\n\
         ad ns2.deep.a.test. 60 AAAA 2001:db8::1:2\n\
         ad ns3.deep.a.test. 60 A 10.1.0.3\n\
         ad ns3.deep.a.test. 60 AAAA 2001:db8::1:3\n\
         ad ns4.deep.a.test. 60 A 10.1.0.4\n\
         ad ns4.deep.a.test. 60 AAAA 2001:db8::1:4\n\
         ad ns5.deep.a.test. 60 A 10.1.0.5\n\
         ad ns5.deep.a.test. 60 AAAA 2001:db8::1:5\n\
         ad ns6.deep.a.test. 60 A 10.1.0.6\n\
         ad ns6.deep.a.test. 60 AAAA 2001:db8::1:6\n\
         ad ns7.deep.a.test. 60 A 10.1.0.7\n\
         ad ns7.deep.a.test. 60 AAAA 2001:db8::1:7\n\
         ad ns8.deep.a.test. 60 A 10.1.0.8",
    ),
    (
        "referral with much glue and EDNS",
        "1234010000010000000000010178046465657001610474657374000001000100002904d0000000000000",
        "NOERROR op0 qr rd\n\
         au deep.a.test. 60 NS ns1.deep.a.test.\n\
         au deep.a.test. 60 NS ns2.deep.a.test.\n\
         au deep.a.test. 60 NS ns3.deep.a.test.\n\
         au deep.a.test. 60 NS ns4.deep.a.test.\n\
         au deep.a.test. 60 NS ns5.deep.a.test.\n\
         au deep.a.test. 60 NS ns6.deep.a.test.\n\
         au deep.a.test. 60 NS ns7.deep.a.test.\n\
         au deep.a.test. 60 NS ns8.deep.a.test.\n\
         ad ns1.deep.a.test. 60 A 10.1.0.1\n\
         ad ns1.deep.a.test. 60 AAAA 2001:db8::1:1\n\
         ad ns2.deep.a.test. 60 A 10.1.0.2\n\
         ad ns2.deep.a.test. 60 AAAA 2001:db8::1:2\n\
         ad ns3.deep.a.test. 60 A 10.1.0.3\n\
         ad ns3.deep.a.test. 60 AAAA 2001:db8::1:3\n\
         ad ns4.deep.a.test. 60 A 10.1.0.4\n\
         ad ns4.deep.a.test. 60 AAAA 2001:db8::1:4\n\
         ad ns5.deep.a.test. 60 A 10.1.0.5\n\
         ad ns5.deep.a.test. 60 AAAA 2001:db8::1:5\n\
         ad ns6.deep.a.test. 60 A 10.1.0.6\n\
         ad ns6.deep.a.test. 60 AAAA 2001:db8::1:6\n\
         ad ns7.deep.a.test. 60 A 10.1.0.7\n\
         ad ns7.deep.a.test. 60 AAAA 2001:db8::1:7\n\
         ad ns8.deep.a.test. 60 A 10.1.0.8\n\
         ad ns8.deep.a.test. 60 AAAA 2001:db8::1:8\n\
         opt 0 1232 0",
    ),
    (
        "chain",
        "12340100000100000000000105616c69617301610474657374000001000100002904d0000000000000",
        "NOERROR op0 qr aa rd\n\
         an alias.a.test. 60 CNAME one.a.test.\n\
         an one.a.test. 60 CNAME two.a.test.\n\
         an two.a.test. 60 CNAME mail.a.test.\n\
         an mail.a.test. 60 A 192.0.2.25\n\
         opt 0 1232 0",
    ),
    (
        "chain, no data",
        "12340100000100000000000005616c696173016104746573740000100001",
        "NOERROR op0 qr aa rd\n\
         an alias.a.test. 60 CNAME one.a.test.\n\
         an one.a.test. 60 CNAME two.a.test.\n\
         an two.a.test. 60 CNAME mail.a.test.\n\
         au a.test. 30 SOA ns.a.test. h.a.test. 1 2 3 4 30",
    ),
    (
        "alias itself",
        "12340100000100000000000005616c696173016104746573740000050001",
        "NOERROR op0 qr aa rd\n\
         an alias.a.test. 60 CNAME one.a.test.",
    ),
    (
        "alias out",
        "123401000001000000000000036f7574016104746573740000010001",
        "NOERROR op0 qr aa rd\n\
         an out.a.test. 60 CNAME www.other.test.",
    ),
    (
        "alias to nothing",
        "12340100000100000000000004676f6e65016104746573740000010001",
        "NXDOMAIN op0 qr aa rd\n\
         an gone.a.test. 60 CNAME nothing.a.test.\n\
         au a.test. 30 SOA ns.a.test. h.a.test. 1 2 3 4 30",
    ),
    (
        "alias into a delegation",
        "12340100000100000000000104696e746f01610474657374000001000100002904d0000000000000",
        "NOERROR op0 qr aa rd\n\
         an into.a.test. 60 CNAME x.sub.a.test.\n\
         au sub.a.test. 60 NS ns.sub.a.test.\n\
         au sub.a.test. 60 NS ns.other.test.\n\
         ad ns.sub.a.test. 60 A 192.0.2.4\n\
         ad ns.sub.a.test. 60 AAAA 2001:db8::4\n\
         opt 0 1232 0",
    ),
    (
        "alias to itself",
        "123401000001000000000000046c6f6f70016104746573740000010001",
        "NOERROR op0 qr aa rd\n\
         an loop.a.test. 60 CNAME loop.a.test.",
    ),
    (
        "DNAME",
        "1234010000010000000000010178016401610474657374000001000100002904d0000000000000",
        "NOERROR op0 qr aa rd\n\
         an d.a.test. 30 DNAME t.a.test.\n\
         an x.d.a.test. 30 CNAME x.t.a.test.\n\
         an x.t.a.test. 60 A 192.0.2.3\n\
         opt 0 1232 0",
    ),
    (
        "DNAME itself",
        "1234010000010000000000000164016104746573740000270001",
        "NOERROR op0 qr aa rd\n\
         an d.a.test. 30 DNAME t.a.test.",
    ),
    (
        "DNAME twice in a chain",
        "1234010000010000000000010179016401610474657374000001000100002904d0000000000000",
        "NOERROR op0 qr aa rd\n\
         an d.a.test. 30 DNAME t.a.test.\n\
         an y.d.a.test. 30 CNAME y.t.a.test.\n\
         an y.t.a.test. 60 CNAME x.d.a.test.\n\
         an x.d.a.test. 30 CNAME x.t.a.test.\n\
         an x.t.a.test. 60 A 192.0.2.3\n\
         opt 0 1232 0",
    ),
    (
        "DNAME and its owner",
        "123401000001000000000000017a0164016104746573740000270001",
        "NOERROR op0 qr aa rd\n\
         an d.a.test. 30 DNAME t.a.test.\n\
         an z.d.a.test. 30 CNAME z.t.a.test.\n\
         an z.t.a.test. 60 CNAME d.a.test.",
    ),
    (
        "DNAME, no name",
        "123401000001000000000000026e6f0164016104746573740000010001",
        "NXDOMAIN op0 qr aa rd\n\
         an d.a.test. 30 DNAME t.a.test.\n\
         an no.d.a.test. 30 CNAME no.t.a.test.\n\
         au a.test. 30 SOA ns.a.test. h.a.test. 1 2 3 4 30",
    ),
    (
        "ANY",
        "123401000001000000000001046d61696c016104746573740000ff000100002904d0000000000000",
        "NOERROR op0 qr aa rd\n\
         an mail.a.test. 60 A 192.0.2.25\n\
         an mail.a.test. 60 AAAA 2001:db8::25\n\
         opt 0 1232 0",
    ),
    (
        "ANY of the apex",
        "123401000001000000000001016104746573740000ff000100002904d0000000000000",
        "NOERROR op0 qr aa rd\n\
         an a.test. 300 SOA ns.a.test. h.a.test. 1 2 3 4 30\n\
         an a.test. 300 NS ns.other.test.\n\
         an a.test. 300 NS ns.a.test.\n\
         an a.test. 300 MX 20 mail.other.test.\n\
         an a.test. 300 MX 10 mail.a.test.\n\
         opt 0 1232 0",
    ),
    (
        "ANY of an alias",
        "12340100000100000000000005616c696173016104746573740000ff0001",
        "NOERROR op0 qr aa rd\n\
         an alias.a.test. 60 CNAME one.a.test.",
    ),
    (
        "ANY, no name",
        "123401000001000000000000026e6f016104746573740000ff0001",
        "NXDOMAIN op0 qr aa rd\n\
         au a.test. 30 SOA ns.a.test. h.a.test. 1 2 3 4 30",
    ),
    (
        "unknown type",
        "123401000001000000000000046d61696c016104746573740000640001",
        "NOERROR op0 qr aa rd\n\
         au a.test. 30 SOA ns.a.test. h.a.test. 1 2 3 4 30",
    ),
    (
        "type 128",
        "123401000001000000000000046d61696c016104746573740000800001",
        "NOERROR op0 qr aa rd\n\
         au a.test. 30 SOA ns.a.test. h.a.test. 1 2 3 4 30",
    ),
    (
        "OPT asked",
        "123401000001000000000000046d61696c016104746573740000290001",
        "NOERROR op0 qr aa rd\n\
         au a.test. 30 SOA ns.a.test. h.a.test. 1 2 3 4 30",
    ),
    (
        "TSIG asked",
        "123401000001000000000000046d61696c016104746573740000fa0001",
        "NOERROR op0 qr aa rd\n\
         au a.test. 30 SOA ns.a.test. h.a.test. 1 2 3 4 30",
    ),
    (
        "RRSIG asked",
        "123401000001000000000000046d61696c0161047465737400002e0001",
        "NOERROR op0 qr aa rd\n\
         au a.test. 30 SOA ns.a.test. h.a.test. 1 2 3 4 30",
    ),
    (
        "truncated",
        "12340100000100000000000003626967016104746573740000010001",
        "NOERROR op0 qr aa tc rd",
    ),
    (
        "not truncated",
        "1234010000010000000000010362696701610474657374000001000100002904d0000000000000",
        "NOERROR op0 qr aa rd\n\
         an big.a.test. 60 A 10.0.0.1\n\
         an big.a.test. 60 A 10.0.0.2\n\
         an big.a.test. 60 A 10.0.0.3\n\
         an big.a.test. 60 A 10.0.0.4\n\
         an big.a.test. 60 A 10.0.0.5\n\
         an big.a.test. 60 A 10.0.0.6\n\
         an big.a.test. 60 A 10.0.0.7\n\
         an big.a.test. 60 A 10.0.0.8\n\
         an big.a.test. 60 A 10.0.0.9\n\
         an big.a.test. 60 A 10.0.0.10\n\
         an big.a.test. 60 A 10.0.0.11\n\
         an big.a.test. 60 A 10.0.0.12\n\
         an big.a.test. 60 A 10.0.0.13\n\
         an big.a.test. 60 A 10.0.0.14\n\
         an big.a.test. 60 A 10.0.0.15\n\
         an big.a.test. 60 A 10.0.0.16\n\
         an big.a.test. 60 A 10.0.0.17\n\
         an big.a.test. 60 A 10.0.0.18\n\
         an big.a.test. 60 A 10.0.0.19\n\
         an big.a.test. 60 A 10.0.0.20\n\
         an big.a.test. 60 A 10.0.0.21\n\
         an big.a.test. 60 A 10.0.0.22\n\
         an big.a.test. 60 A 10.0.0.23\n\
         an big.a.test. 60 A 10.0.0.24\n\
         an big.a.test. 60 A 10.0.0.25\n\
         an big.a.test. 60 A 10.0.0.26\n\
         an big.a.test. 60 A 10.0.0.27\n\
         an big.a.test. 60 A 10.0.0.28\n\
         an big.a.test. 60 A 10.0.0.29\n\
         an big.a.test. 60 A 10.0.0.30\n\
         an big.a.test. 60 A 10.0.0.31\n\
         an big.a.test. 60 A 10.0.0.32\n\
         an big.a.test. 60 A 10.0.0.33\n\
         an big.a.test. 60 A 10.0.0.34\n\
         an big.a.test. 60 A 10.0.0.35\n\
         an big.a.test. 60 A 10.0.0.36\n\
         an big.a.test. 60 A 10.0.0.37\n\
         an big.a.test. 60 A 10.0.0.38\n\
         an big.a.test. 60 A 10.0.0.39\n\
         an big.a.test. 60 A 10.0.0.40\n\
         opt 0 1232 0",
    ),
    (
        "truncated TXT",
        "123401000001000000000000046c6f6e67016104746573740000100001",
        "NOERROR op0 qr aa tc rd",
    ),
    (
        "MX with many additionals",
        "123401000001000000000000016d0161047465737400000f0001",
        "NOERROR op0 qr aa rd\n\
         an m.a.test. 60 MX 1 mail1.many.a.test.\n\
         an m.a.test. 60 MX 2 mail2.many.a.test.\n\
         an m.a.test. 60 MX 3 mail3.many.a.test.\n\
         an m.a.test. 60 MX 4 mail4.many.a.test.\n\
         an m.a.test. 60 MX 5 mail5.many.a.test.\n\
         an m.a.test. 60 MX 6 mail6.many.a.test.\n\
         ad mail1.many.a.test. 60 AAAA 2001:db8::1\n\
         ad mail2.many.a.test. 60 AAAA 2001:db8::2\n\
         ad mail3.many.a.test. 60 AAAA 2001:db8::3\n\
         ad mail4.many.a.test. 60 AAAA 2001:db8::4\n\
         ad mail5.many.a.test. 60 AAAA 2001:db8::5\n\
         ad mail6.many.a.test. 60 AAAA 2001:db8::6",
    ),
    (
        "MX with many additionals, EDNS",
        "123401000001000000000001016d0161047465737400000f000100002904d0000000000000",
        "NOERROR op0 qr aa rd\n\
         an m.a.test. 60 MX 1 mail1.many.a.test.\n\
         an m.a.test. 60 MX 2 mail2.many.a.test.\n\
         an m.a.test. 60 MX 3 mail3.many.a.test.\n\
         an m.a.test. 60 MX 4 mail4.many.a.test.\n\
         an m.a.test. 60 MX 5 mail5.many.a.test.\n\
         an m.a.test. 60 MX 6 mail6.many.a.test.\n\
         ad mail1.many.a.test. 60 AAAA 2001:db8::1\n\
         ad mail2.many.a.test. 60 AAAA 2001:db8::2\n\
         ad mail3.many.a.test. 60 AAAA 2001:db8::3\n\
         ad mail4.many.a.test. 60 AAAA 2001:db8::4\n\
         ad mail5.many.a.test. 60 AAAA 2001:db8::5\n\
         ad mail6.many.a.test. 60 AAAA 2001:db8::6\n\
         opt 0 1232 0",
    ),
    (
        "other zone",
        "123401000001000000000000016204746573740000010001",
        "REFUSED op0 qr rd",
    ),
    (
        "other zone with EDNS",
        "12340100000100000000000101620474657374000001000100002904d0000000000000",
        "REFUSED op0 qr rd\n\
         opt 0 1232 0",
    ),
    (
        "root",
        "1234010000010000000000000000020001",
        "REFUSED op0 qr rd",
    ),
    (
        "class CH",
        "123401000001000000000000016104746573740000010003",
        "REFUSED op0 qr rd",
    ),
    (
        "class NONE",
        "123401000001000000000001046d61696c0161047465737400000100fe00002904d0000000000000",
        "REFUSED op0 qr rd\n\
         opt 0 1232 0",
    ),
    (
        "AXFR",
        "123401000001000000000000016104746573740000fc0001",
        "NOTIMP op0 qr rd",
    ),
    (
        "AXFR with EDNS",
        "123401000001000000000001016104746573740000fc000100002904d0000000000000",
        "NOTIMP op0 qr rd",
    ),
    (
        "IXFR",
        "123401000001000000000000016104746573740000fb0001",
        "REFUSED op0 qr rd",
    ),
    (
        "MAILA",
        "123401000001000000000000016104746573740000fe0001",
        "NOERROR op0 qr aa rd\n\
         au a.test. 30 SOA ns.a.test. h.a.test. 1 2 3 4 30",
    ),
    (
        "MAILB",
        "123401000001000000000000016104746573740000fd0001",
        "NOERROR op0 qr aa rd\n\
         au a.test. 30 SOA ns.a.test. h.a.test. 1 2 3 4 30",
    ),
    (
        "AXFR other zone",
        "123401000001000000000000016204746573740000fc0001",
        "NOTIMP op0 qr rd",
    ),
    (
        "BADVERS",
        "123401000001000000000001046d61696c01610474657374000001000100002904d0000100000000",
        "BADVERS op0 qr rd\n\
         opt 0 1232 0",
    ),
    (
        "BADVERS DO",
        "123401000001000000000001046d61696c01610474657374000001000100002904d000ff80000000",
        "BADVERS op0 qr rd\n\
         opt 0 1232 1",
    ),
    (
        "status",
        "123410000001000000000000046d61696c016104746573740000010001",
        "NOTIMP op2 qr",
    ),
    (
        "IQUERY",
        "123408000001000000000000046d61696c016104746573740000010001",
        "NOTIMP op1 qr",
    ),
    (
        "UPDATE",
        "123428000001000000000000016104746573740000060001",
        "NOTIMP op5 qr",
    ),
    (
        "no question",
        "123401000000000000000000",
        "FORMERR op0 qr rd",
    ),
    (
        "no question with EDNS",
        "12340100000000000000000100002904d0000000000000",
        "FORMERR op0 qr rd",
    ),
    (
        "two questions",
        "123401000002000000000000046d61696c016104746573740000010001026e73016104746573740000010001",
        "FORMERR op0 qr rd",
    ),
    (
        "two questions, EDNS",
        "123401000002000000000001046d61696c016104746573740000010001026e7301610474657374000001000100002904d0000000000000",
        "FORMERR op0 qr rd",
    ),
    (
        "cut question",
        "123401000002000000000000046d61696c016104746573740000010001",
        "FORMERR op0 qr rd",
    ),
    (
        "cut name",
        "123401000001000000000000046d6169",
        "FORMERR op0 qr rd",
    ),
    (
        "header alone",
        "123401000001000000000000",
        "FORMERR op0 qr rd",
    ),
    ("short", "1234010000010000000000", "none"),
    (
        "bad label",
        "123401000001000000000000806101610000010001",
        "FORMERR op0 qr rd",
    ),
    (
        "two OPT",
        "123401000001000000000002046d61696c01610474657374000001000100002904d000000000000000002904d0000000000000",
        "FORMERR op0 qr rd",
    ),
    (
        "OPT with owner",
        "123401000001000000000001046d61696c016104746573740000010001016100002904d0000000000000",
        "FORMERR op0 qr rd",
    ),
    (
        "OPT with a cut option",
        "123401000001000000000001046d61696c01610474657374000001000100002904d0000000000005000a000801",
        "FORMERR op0 qr rd",
    ),
    (
        "OPT among the answers",
        "123401000001000100000000046d61696c01610474657374000001000100002904d0000000000000",
        "FORMERR op0 qr rd",
    ),
    (
        "missing additional",
        "123401000001000000000001046d61696c016104746573740000010001",
        "FORMERR op0 qr rd",
    ),
    (
        "response",
        "123481000001000000000000046d61696c016104746573740000010001",
        "none",
    ),
    (
        "octets after",
        "123401000001000000000000046d61696c01610474657374000001000178797a",
        "NOERROR op0 qr aa rd\n\
         an mail.a.test. 60 A 192.0.2.25",
    ),
    (
        "an answer in a query",
        "123401000001000100000000046d61696c016104746573740000010001000001000100000000000401020304",
        "NOERROR op0 qr aa rd\n\
         an mail.a.test. 60 A 192.0.2.25",
    ),
];
